// What a copy prints: how large the target is, or why there is none.
ghost use Rattle.std.specs.Prelude.{◌≡◌, false, true};
ghost use Rattle.df_base.specs.Causes.{HasCause};
ghost use Rattle.df_inspect.specs.Prints.{Prints};
ghost use Rattle.df_layout.specs.Zones.{file_sectors};
ghost use Rattle.df_program.specs.Telling.{Blames, Writes};
ghost use Rattle.df_copy.specs.{Statuses.{is_fault}, Texts.{copied_text, ending_text}};

use crate::ending::Ending;
use crate::status::Status;
use arrayvec::ArrayVec;
use df_base::{Failed, Sink};
use df_inspect::{Line, number_line, put, put_number, two_numbers_line, write_line};
use df_layout::Layout;
use df_program::{end_line, ended, print_damaged};

/// The line that says which words have a meaning.
pub const USAGE: &[u8] = b"usage: filecopy FROM TO LAYOUT\n";

/// Prints how many sectors the target has.
pub(crate) fn tell_copied<W: Sink>(sink: &mut W, layout: &Layout) -> Status
    ensures line { Writes Status.WriteFault (copied_text (file_sectors layout.now)) Status.Done (W.written sink.old) (W.written sink.new) result }
    ensures sink { Blames Status.WriteFault (W.faults sink.old) (W.faults sink.new) result }
{
    let line = number_line("copied", u128::from(layout.sectors()));
    end_line(sink, &line, Status::Done)
}

// The line on a source that isn't at rest.
fn not_at_rest_line(checkpoint_op: u64, head: u64, replies: u64) -> Line
    ensures { result.items ≡ ending_text (Ending.NotAtRest checkpoint_op head replies) }
{
    let mut line = ArrayVec::new();
    put(&mut line, "refused NotAtRest checkpoint_op ");
    put_number(&mut line, u128::from(checkpoint_op));
    put(&mut line, " head ");
    put_number(&mut line, u128::from(head));
    put(&mut line, " replies ");
    put_number(&mut line, u128::from(replies));
    put(&mut line, "\n");
    line
}

// The line of an ending; a failing disk has none.
fn print_ending<W: Sink>(sink: &mut W, ending: Ending) -> Result<(), Failed>
    ensures prints { Prints (ending_text ending) (W.written sink.old) (W.written sink.new) result }
    ensures cause { HasCause (W.faults sink.old) (W.faults sink.new) result }
{
    match ending {
        Ending::Source | Ending::Target => Ok(()),
        Ending::NotAtRest {
            checkpoint_op,
            head,
            replies,
        } => write_line(sink, &not_at_rest_line(checkpoint_op, head, replies)),
        Ending::TooFewClients { sessions, clients } => write_line(
            sink,
            &two_numbers_line(
                "refused TooFewClients sessions",
                sessions,
                "clients",
                clients,
            ),
        ),
        Ending::TooFewBlocks { needed, blocks } => write_line(
            sink,
            &two_numbers_line("refused TooFewBlocks needed", needed, "blocks", blocks),
        ),
        Ending::NotBlank { copy } => {
            write_line(
                sink,
                &number_line("refused NotBlank copy", u128::from(copy)),
            )
        }
        Ending::ReplyTooLong { place, size } => write_line(
            sink,
            &two_numbers_line("refused ReplyTooLong place", place, "size", size),
        ),
        Ending::BlockTooLong { address, size } => write_line(
            sink,
            &two_numbers_line("refused BlockTooLong address", address, "size", size),
        ),
        Ending::Damaged { place, class } => print_damaged(sink, place, class),
    }
}

// Whether a disk failed.
fn is_fault(ending: Ending) -> bool
    ensures { result ≡ is_fault ending }
{
    ending == Ending::Source || ending == Ending::Target
}

/// Prints why no copy is made, or none whole; a failing disk has no line.
pub(crate) fn tell_ending<W: Sink>(sink: &mut W, ending: Ending) -> Status
    ensures refused { is_fault ending ≡ false → Writes Status.WriteFault (ending_text ending) Status.Refused (W.written sink.old) (W.written sink.new) result }
    ensures fault { is_fault ending ≡ true → (result ≡ Status.DiskFault) × (W.written sink.new ≡ W.written sink.old) }
    ensures sink { Blames Status.WriteFault (W.faults sink.old) (W.faults sink.new) result }
{
    if is_fault(ending) {
        return Status::DiskFault;
    }
    ended(print_ending(sink, ending), Status::Refused)
}
