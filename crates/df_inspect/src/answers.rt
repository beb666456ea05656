// The one line that the answer of a call prints: what was done, or why the call is refused.
ghost use Rattle.std.specs.Prelude.{◌≡◌};
ghost use Rattle.df_base.specs.Causes.{HasCause};
ghost use Rattle.df_model.specs.declared.commands.Answer.TheVariants as answers;
ghost use Rattle.df_script_model.specs.{Script.{address_named, op_in}, Texts.{progress_text}};
ghost use Rattle.df_model.specs.Commands.{Command as Asked};
ghost use Rattle.df_inspect.specs.{Answers.{command_of, line_of_answer}, Prints.{Prints}};

use crate::blocks::scrubbed_line;
use crate::line::{Line, number_line, text_line, write_line};
use crate::refusals::{
    append_refusal, begin_refusal, block_refusal, flush_refusal, lookup_refusal, prepare_refusal,
    read_refusal, reply_refusal, step_refusal,
};
use df_base::{Check, Failed, Sink};
use df_model::{
    Answer, AppendError, BeginError, BlockError, Command, FlushError, NotLive, Progress, Receipt,
    Reference, ReplyError, StepError,
};

/// What was answered to a command, or why it is refused. A failing disk has no line, nor has a unit that was read, which prints itself.
pub fn print_answer<W: Sink>(sink: &mut W, command: &Command, answer: &Answer) -> Result<(), Failed>
    ensures prints { Prints (line_of_answer (command_of command.now) answer.now) (W.written sink.old) (W.written sink.new) result }
    ensures cause { HasCause (W.faults sink.old) (W.faults sink.new) result }
{
    write_line(sink, &answer_line(command, answer))
}

fn answer_line(command: &Command, answer: &Answer) -> Line
    ensures { result.items ≡ line_of_answer (command_of command.now) answer.now }
{
    match *answer {
        Answer::Append(answer) => append_line(answer),
        Answer::Stage(answer) => stage_line(answer),
        Answer::Flush(answer) => flush_line(answer),
        Answer::Reply(answer) => reply_line(op_in(command), answer),
        Answer::WriteBlock(answer) => wrote_line(answer),
        Answer::Release(answer) => release_line(address_in(command), answer),
        Answer::Begin(answer) => begin_line(answer),
        Answer::Advance(answer) => step_line(answer),
        Answer::ReadPrepare(Err(error)) => prepare_refusal(error),
        Answer::ReadReply(Err(error)) => lookup_refusal(error),
        Answer::ReadBlock(Err(error)) => read_refusal(error),
        Answer::Scrub(scrubbed) => scrubbed_line(scrubbed),
        Answer::ReadPrepare(Ok(()))
        | Answer::ReadReply(Ok(()))
        | Answer::ReadBlock(Ok(()))
        | Answer::Recent => text_line(""),
    }
}

// The op that a reply names.
fn op_in(command: &Command) -> u64
    ensures { result ≡ op_in (command_of command.now) }
{
    match *command {
        Command::Reply { op, body: _ } => op,
        _ => 0,
    }
}

// The address that a release names.
fn address_in(command: &Command) -> u64
    ensures { result ≡ address_named (command_of command.now) }
{
    match *command {
        Command::Release { address } | Command::ReadBlock { address } => address,
        _ => 0,
    }
}

// `appended OP`: the op that the prepare got.
fn append_line(answer: Result<Receipt, AppendError>) -> Line
    ensures { (c : Asked) → result.items ≡ line_of_answer c (answers.Append answer) }
{
    match answer {
        Ok(receipt) => number_line("appended", u128::from(receipt.op)),
        Err(error) => append_refusal(error),
    }
}

// `staged OP`: the op that the request is to get.
fn stage_line(answer: Result<u64, AppendError>) -> Line
    ensures { (c : Asked) → result.items ≡ line_of_answer c (answers.Stage answer) }
{
    match answer {
        Ok(op) => number_line("staged", u128::from(op)),
        Err(error) => append_refusal(error),
    }
}

// `flushed COUNT`: how many prepares were appended.
fn flush_line(answer: Result<u64, FlushError>) -> Line
    ensures { (c : Asked) → result.items ≡ line_of_answer c (answers.Flush answer) }
{
    match answer {
        Ok(count) => number_line("flushed", u128::from(count)),
        Err(error) => flush_refusal(error),
    }
}

// `replied OP`: the op whose reply is stored.
fn reply_line(op: u64, answer: Result<Check, ReplyError>) -> Line
    ensures { (c : Asked) → op ≡ op_in c → result.items ≡ line_of_answer c (answers.Reply answer) }
{
    match answer {
        Ok(_) => number_line("replied", u128::from(op)),
        Err(error) => reply_refusal(error),
    }
}

// `wrote ADDRESS`: where the block was written.
fn wrote_line(answer: Result<Reference, BlockError>) -> Line
    ensures { (c : Asked) → result.items ≡ line_of_answer c (answers.WriteBlock answer) }
{
    match answer {
        Ok(reference) => number_line("wrote", u128::from(reference.address)),
        Err(error) => block_refusal(error),
    }
}

// `released ADDRESS`: the block that is live no longer.
fn release_line(address: u64, answer: Result<(), NotLive>) -> Line
    ensures { (c : Asked) → address ≡ address_named c → result.items ≡ line_of_answer c (answers.Release answer) }
{
    match answer {
        Ok(()) => number_line("released", u128::from(address)),
        Err(_) => text_line("refused NotLive\n"),
    }
}

// `begun BLOCKS`: how many trailer blocks the checkpoint that was begun has.
fn begin_line(answer: Result<u64, BeginError>) -> Line
    ensures { (c : Asked) → result.items ≡ line_of_answer c (answers.Begin answer) }
{
    match answer {
        Ok(blocks) => number_line("begun", u128::from(blocks)),
        Err(error) => begin_refusal(error),
    }
}

// `working LEFT` or `done SEQUENCE`: how far the running checkpoint came.
fn step_line(answer: Result<Progress, StepError>) -> Line
    ensures { (c : Asked) → result.items ≡ line_of_answer c (answers.Advance answer) }
{
    match answer {
        Ok(progress) => progress_line(progress),
        Err(error) => step_refusal(error),
    }
}

fn progress_line(progress: Progress) -> Line
    ensures { result.items ≡ progress_text progress }
{
    match progress {
        Progress::Working { left } => number_line("working", u128::from(left)),
        Progress::Done { sequence } => number_line("done", u128::from(sequence)),
    }
}
