// The line that an answer prints, and the one on a file of another program.
ghost use Rattle.std.specs.Prelude.{◌≡◌, ◌++◌, ◌∷◌, [], decimal};
ghost use Rattle.df_base.specs.Causes.{HasCause};
ghost use Rattle.df_script_model.specs.Texts.{body_text, line_of, spaced};
ghost use Rattle.df_inspect.specs.Prints.{Prints};
ghost use Rattle.df_rows.specs.Answers.{not_table_text, refusal_text, table_answer_text};

use crate::answer::Answer;
use crate::refusal::Refusal;
use arrayvec::ArrayVec;
use df_base::{Failed, Sink};
use df_inspect::{
    Line as Text, number_line, place_line, print_body, put, put_number, text_line, write_line,
};
use df_layout::Place;

/// The line of an answer. It is written by one call of the sink, and a value by two more.
pub fn print_answer<W: Sink>(sink: &mut W, answer: &Answer) -> Result<(), Failed>
    ensures prints { Prints (table_answer_text answer.now) (W.written sink.old) (W.written sink.new) result }
    ensures cause { HasCause (W.faults sink.old) (W.faults sink.new) result }
{
    match *answer {
        Answer::Put { op } => write_line(sink, &number_line("put", u128::from(op))),
        Answer::Dropped { op } => write_line(sink, &number_line("dropped", u128::from(op))),
        Answer::Found { key, value } => print_found(sink, key, value),
        Answer::Counted { rows } => write_line(sink, &number_line("count", u128::from(rows))),
        Answer::Refused(refusal) => write_line(sink, &refusal_line(refusal)),
    }
}

// `KEY BODY`: a key and its value.
fn print_found<W: Sink>(sink: &mut W, key: u128, value: &[u8]) -> Result<(), Failed>
    ensures prints { Prints (line_of (spaced (decimal key) (body_text value.now))) (W.written sink.old) (W.written sink.new) result }
    ensures cause { HasCause (W.faults sink.old) (W.faults sink.new) result }
{
    write_line(sink, &key_front(key))?;
    print_body(sink, value)
}

// A key and the space after it.
fn key_front(key: u128) -> Text
    ensures { result.items ≡ decimal key ++ 32 ∷ [] }
{
    let mut line = ArrayVec::new();
    put_number(&mut line, key);
    put(&mut line, " ");
    line
}

// Why a line is refused.
fn refusal_line(refusal: Refusal) -> Text
    ensures { result.items ≡ refusal_text refusal }
{
    match refusal {
        Refusal::ValueTooLong { max } => number_line("refused ValueTooLong max", u128::from(max)),
        Refusal::TableFull { max } => number_line("refused TableFull max", u128::from(max)),
        Refusal::NoKey => text_line("refused NoKey\n"),
    }
}

/// `refused NotTable ZONE INDEX`: the place that shows that the file is no table's.
pub fn print_not_table<W: Sink>(sink: &mut W, place: Place) -> Result<(), Failed>
    ensures prints { Prints (not_table_text place) (W.written sink.old) (W.written sink.new) result }
    ensures cause { HasCause (W.faults sink.old) (W.faults sink.new) result }
{
    write_line(sink, &place_line("refused NotTable", place))
}
