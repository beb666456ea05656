// The last text of a program: its line, or why a file isn't opened or what stands in it is damaged. Where the sink fails, the status says so.
ghost use Rattle.std.specs.Prelude.{◌≡◌, ◌<◌, ◌+◌, ◌^◌, ℕ, List, Option};
ghost use Rattle.df_base.specs.Causes.{HasCause};
ghost use Rattle.df_inspect.specs.{Opening.{script_text}, Prints.{Prints}};
ghost use Rattle.df_script_model.specs.Texts.{damaged_text};
ghost use Rattle.df_program.specs.Telling.{Blames, PrintsError, Writes, status_or};

use crate::ends::Ends;
use df_base::{Failed, Sink};
use df_inspect::{Line, print_answer, print_open_refusal, print_script, write_line};
use df_layout::{Class, Place};
use df_model::{Answer, Command, OpenError, StepError};

/// Ends with the status that is given where the last text was printed.
pub fn ended<S: Ends>(done: Result<(), Failed>, given: S) -> S
    requires { given ≡ S.statuses.write_fault → ⊥ }
    ensures is { result ≡ status_or S.statuses.write_fault given done }
    ensures writes { (text : List ℕ) (old new : Option (List ℕ)) → Prints text old new done → Writes S.statuses.write_fault text given old new result }
    ensures sink { (before now : ℕ) → HasCause before now done → Blames S.statuses.write_fault before now result }
{
    match done {
        Ok(()) => given,
        Err(_) => S::shared().write_fault,
    }
}

/// Prints the line that says which words have a meaning, and ends with the status of words that have none, which is given, or with that of a failing sink.
pub fn print_usage<W: Sink, S: Ends>(sink: &mut W, usage: &[u8], words: S) -> S
    requires { words ≡ S.statuses.write_fault → ⊥ }
    ensures writes { Writes S.statuses.write_fault usage.now words (W.written sink.old) (W.written sink.new) result }
    ensures sink { Blames S.statuses.write_fault (W.faults sink.old) (W.faults sink.new) result }
{
    ended(sink.write(usage), words)
}

/// Prints a line, and ends with the status that is given, or with that of a failing sink.
pub fn end_line<W: Sink, S: Ends>(sink: &mut W, line: &Line, given: S) -> S
    requires { given ≡ S.statuses.write_fault → ⊥ }
    ensures writes { Writes S.statuses.write_fault line.now.items given (W.written sink.old) (W.written sink.new) result }
    ensures sink { Blames S.statuses.write_fault (W.faults sink.old) (W.faults sink.new) result }
{
    ended(write_line(sink, line), given)
}

/// Prints why a file isn't opened, and ends with the status of a refusal; a failing disk has no line, and a status of its own.
pub fn refuse_file<W: Sink, S: Ends>(sink: &mut W, error: &OpenError) -> S
    ensures prints { PrintsError S.statuses.refused S.statuses.disk_fault S.statuses.write_fault error.now (W.written sink.old) (W.written sink.new) result }
    ensures sink { Blames S.statuses.write_fault (W.faults sink.old) (W.faults sink.new) result }
{
    if *error == OpenError::DiskFault {
        return S::shared().disk_fault;
    }
    ended(print_open_refusal(sink, error), S::shared().refused)
}

/// Prints the line that refuses the next line of a script, of which `lines` were executed, and ends with the status that is given.
pub fn refuse_line<W: Sink, S: Ends>(sink: &mut W, lines: u64, given: S) -> S
    requires room { lines < 2 ^ 63 }
    requires given { given ≡ S.statuses.write_fault → ⊥ }
    ensures writes { Writes S.statuses.write_fault (script_text (lines + 1)) given (W.written sink.old) (W.written sink.new) result }
    ensures sink { Blames S.statuses.write_fault (W.faults sink.old) (W.faults sink.new) result }
{
    ended(print_script(sink, lines + 1), given)
}

/// Prints that what stands at a place isn't what is known of it.
pub fn print_damaged<W: Sink>(sink: &mut W, place: Place, class: Class) -> Result<(), Failed>
    ensures prints { Prints (damaged_text place class) (W.written sink.old) (W.written sink.new) result }
    ensures cause { HasCause (W.faults sink.old) (W.faults sink.new) result }
{
    let answer = Answer::Advance(Err(StepError::Damaged { place, class }));
    print_answer(sink, &Command::Advance, &answer)
}

/// Prints that what stands at a place isn't what is known of it, and ends with the status of a refusal.
pub fn refuse_damaged<W: Sink, S: Ends>(sink: &mut W, place: Place, class: Class) -> S
    ensures writes { Writes S.statuses.write_fault (damaged_text place class) S.statuses.refused (W.written sink.old) (W.written sink.new) result }
    ensures sink { Blames S.statuses.write_fault (W.faults sink.old) (W.faults sink.new) result }
{
    ended(print_damaged(sink, place, class), S::shared().refused)
}
