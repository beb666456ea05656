// The line that shows a block, and those of the scrubber.
ghost use Rattle.std.specs.Prelude.{◌≡◌, ◌≤◌, ◌+◌, ◌++◌, length};
ghost use Rattle.df_base.specs.Causes.{HasCause};
ghost use Rattle.df_model.specs.declared.answers.Scrubbed.TheVariants as scrubs;
ghost use Rattle.df_script_model.specs.Texts.{scrubbed_text, verdict_text};
ghost use Rattle.df_inspect.specs.{Messages.{block_front, shown_block}, Prints.{Prints}};

use crate::line::{Line, put, put_class, put_field, put_number, put_numbered, write_line};
use crate::messages::print_body;
use arrayvec::ArrayVec;
use df_base::{Failed, Sink};
use df_format::Header;
use df_model::{Scrubbed, Verdict};

/// `block ADDRESS kind KIND body BODY`: a block that was read at this address.
pub fn print_block<W: Sink>(
    sink: &mut W,
    address: u64,
    header: &Header,
    body: &[u8],
) -> Result<(), Failed>
    ensures prints { Prints (shown_block address header.now body.now) (W.written sink.old) (W.written sink.new) result }
    ensures cause { HasCause (W.faults sink.old) (W.faults sink.new) result }
{
    write_line(sink, &block_line(address, header))?;
    print_body(sink, body)
}

// The front of a block's line, up to its body.
fn block_line(address: u64, header: &Header) -> Line
    ensures { result.items ≡ block_front address header.now }
{
    let mut line = ArrayVec::new();
    put_numbered(&mut line, "block", u128::from(address));
    put_field(&mut line, "kind", u128::from(header.block_kind));
    put(&mut line, " body ");
    line
}

/// `checked ADDRESS Sound`, `checked ADDRESS CLASS` or `tour CHECKED FAILING`: how far the scrubber came.
pub(crate) fn scrubbed_line(scrubbed: Scrubbed) -> Line
    ensures { result.items ≡ scrubbed_text scrubbed }
{
    match scrubbed {
        Scrubbed::Checked { address, verdict } => checked_line(address, verdict),
        Scrubbed::TourEnd { checked, failing } => tour_line(checked, failing),
    }
}

/// The line on a tour that is at its end.
pub(crate) fn tour_line(checked: u64, failing: u64) -> Line
    ensures { result.items ≡ scrubbed_text (scrubs.TourEnd checked failing) }
{
    let mut line = ArrayVec::new();
    put_numbered(&mut line, "tour", u128::from(checked));
    put(&mut line, " ");
    put_number(&mut line, u128::from(failing));
    put(&mut line, "\n");
    line
}

// The line on a block that was checked.
fn checked_line(address: u64, verdict: Verdict) -> Line
    ensures { result.items ≡ scrubbed_text (scrubs.Checked address verdict) }
{
    let mut line = ArrayVec::new();
    put_numbered(&mut line, "checked", u128::from(address));
    put(&mut line, " ");
    put_verdict(&mut line, verdict);
    put(&mut line, "\n");
    line
}

// Puts what a check found at the end of the line.
fn put_verdict(line: &mut Line, verdict: Verdict)
    requires { length line.old.items + 64 ≤ 640 }
    ensures put { line.new.items ≡ line.old.items ++ verdict_text verdict }
    ensures room { length line.new.items ≤ length line.old.items + 64 }
{
    match verdict {
        Verdict::Sound => put(line, "Sound"),
        Verdict::Failing(class) => put_class(line, class),
    }
}
