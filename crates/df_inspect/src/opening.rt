// The lines that say that a file was made or upgraded, why one isn't made or opened, and which line of a script is none. A failing disk has no line.
ghost use Rattle.std.specs.Prelude.{◌≡◌, ◌≤◌, ◌+◌, ◌++◌, length};
ghost use Rattle.df_base.specs.Causes.{HasCause};
ghost use Rattle.df_model.specs.declared.errors.OpenError.TheVariants as opens;
ghost use Rattle.df_inspect.specs.{Opening.{field_name, format_refusal, formatted_text, layout_text, open_refusal, script_text, upgraded_text}, Prints.{Prints}};

use crate::line::{
    Line, damaged_line, number_line, put, put_class, put_number, put_numbered, text_line,
    write_line,
};
use arrayvec::ArrayVec;
use df_base::{Failed, Sink};
use df_layout::{Class, Field, Layout};
use df_model::{FormatError, OpenError};

/// `formatted SECTORS`: the size of the file that was made, in sectors.
pub fn print_formatted<W: Sink>(sink: &mut W, sectors: u64) -> Result<(), Failed>
    ensures prints { Prints (formatted_text sectors) (W.written sink.old) (W.written sink.new) result }
    ensures cause { HasCause (W.faults sink.old) (W.faults sink.new) result }
{
    write_line(sink, &number_line("formatted", u128::from(sectors)))
}

/// `upgraded SEQUENCE`: the sequence of the file that is of version 2 now.
pub fn print_upgraded<W: Sink>(sink: &mut W, sequence: u64) -> Result<(), Failed>
    ensures prints { Prints (upgraded_text sequence) (W.written sink.old) (W.written sink.new) result }
    ensures cause { HasCause (W.faults sink.old) (W.faults sink.new) result }
{
    write_line(sink, &number_line("upgraded", u128::from(sequence)))
}

/// `script LINE`: the line of a script, counted from 1, that is none, is too long, or is past the budget.
pub fn print_script<W: Sink>(sink: &mut W, line: u64) -> Result<(), Failed>
    ensures prints { Prints (script_text line) (W.written sink.old) (W.written sink.new) result }
    ensures cause { HasCause (W.faults sink.old) (W.faults sink.new) result }
{
    write_line(sink, &number_line("script", u128::from(line)))
}

/// Why a file isn't made.
pub fn print_format_refusal<W: Sink>(sink: &mut W, error: FormatError) -> Result<(), Failed>
    ensures prints { Prints (format_refusal error) (W.written sink.old) (W.written sink.new) result }
    ensures cause { HasCause (W.faults sink.old) (W.faults sink.new) result }
{
    write_line(sink, &format_line(error))
}

fn format_line(error: FormatError) -> Line
    ensures { result.items ≡ format_refusal error }
{
    match error {
        FormatError::ClusterZero => text_line("refused ClusterZero\n"),
        FormatError::NotBlank { copy } => number_line("refused NotBlank copy", u128::from(copy)),
        FormatError::DiskFault => text_line(""),
    }
}

/// Why a file isn't opened.
pub fn print_open_refusal<W: Sink>(sink: &mut W, error: &OpenError) -> Result<(), Failed>
    ensures prints { Prints (open_refusal error.now) (W.written sink.old) (W.written sink.new) result }
    ensures cause { HasCause (W.faults sink.old) (W.faults sink.new) result }
{
    write_line(sink, &open_line(error))
}

fn open_line(error: &OpenError) -> Line
    ensures { result.items ≡ open_refusal error.now }
{
    match *error {
        OpenError::NotFormatted => text_line("refused NotFormatted\n"),
        OpenError::NoQuorum { classes } => no_quorum_line(&classes),
        OpenError::Version { found } => number_line("refused Version found", u128::from(found)),
        OpenError::BadField { field, value } => {
            let mut line = ArrayVec::new();
            put(&mut line, "refused BadField ");
            put_numbered(&mut line, name_of_field(field), value);
            put(&mut line, "\n");
            line
        }
        OpenError::LayoutDiffers { reserved, found } => {
            let mut line = ArrayVec::new();
            put(&mut line, "refused LayoutDiffers ");
            put_layout(&mut line, &reserved);
            put(&mut line, " ");
            put_layout(&mut line, &found);
            put(&mut line, "\n");
            line
        }
        OpenError::Damaged { place, class } => damaged_line(place, class),
        OpenError::DiskFault => text_line(""),
        OpenError::BootSpent => text_line("refused BootSpent\n"),
    }
}

// The line on four copies of the superblock of which no two agree.
fn no_quorum_line(classes: &[Class; 4]) -> Line
    ensures { result.items ≡ open_refusal (opens.NoQuorum classes.now) }
{
    let mut line = ArrayVec::new();
    put(&mut line, "refused NoQuorum");
    for class in classes {
        put(&mut line, " ");
        put_class(&mut line, *class);
    }
    put(&mut line, "\n");
    line
}

/// Puts the five numbers of a layout at the end of the line.
pub(crate) fn put_layout(line: &mut Line, layout: &Layout)
    requires { length line.old.items + 204 ≤ 640 }
    ensures put { line.new.items ≡ line.old.items ++ layout_text layout.now }
    ensures room { length line.new.items ≤ length line.old.items + 204 }
{
    put_number(line, u128::from(layout.slots));
    put(line, " ");
    put_number(line, u128::from(layout.message_size));
    put(line, " ");
    put_number(line, u128::from(layout.clients));
    put(line, " ");
    put_number(line, u128::from(layout.block_size));
    put(line, " ");
    put_number(line, u128::from(layout.blocks));
}

// The name of a field in the format.
fn name_of_field(field: Field) -> &'static str
    ensures name { result.now ≡ field_name field }
    ensures short { length result.now ≤ 15 }
{
    match field {
        Field::Slots => "Slots",
        Field::MessageSize => "MessageSize",
        Field::Clients => "Clients",
        Field::BlockSize => "BlockSize",
        Field::Blocks => "Blocks",
        Field::Cluster => "Cluster",
        Field::Sequence => "Sequence",
        Field::Op => "Op",
        Field::OpChecksum => "OpChecksum",
        Field::Head => "Head",
        Field::Replies => "Replies",
        Field::TrailerAddress => "TrailerAddress",
        Field::TrailerChecksum => "TrailerChecksum",
        Field::TrailerSize => "TrailerSize",
        Field::Boot => "Boot",
        Field::Zero => "Zero",
        Field::TrailerChain => "TrailerChain",
        Field::TrailerRoot => "TrailerRoot",
        Field::TrailerSessions => "TrailerSessions",
        Field::TrailerBits => "TrailerBits",
        Field::TrailerEnd => "TrailerEnd",
        Field::Pending => "Pending",
    }
}
