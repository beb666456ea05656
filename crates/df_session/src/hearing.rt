// What is heard of an answer: the answer itself, or why no call may follow it.
ghost use Rattle.std.specs.Prelude.{◌≡◌};
ghost use Rattle.df_session.specs.{Calls.{blames, is_fault}, Endings.{heard, unless_damaged}};

use df_base::BlamesDisk;
use df_layout::{Class, Place};
use df_model::{Answer, StepError};

/// Why a list of calls ends before its last one was answered.
#[derive(Clone, Copy, Debug, PartialEq, Eq)]
pub enum Fault {
    /// The disk failed.
    Disk,
    /// A step found the superblock damaged that it wrote: this copy of it isn't read back as it was written.
    Damaged { place: Place, class: Class },
}

// Whether a call blames the disk.
fn blames<T, E: BlamesDisk>(answer: &Result<T, E>) -> bool
    ensures { result ≡ blames E.is_fault answer.now }
{
    match answer {
        Ok(_) => false,
        Err(error) => error.is_fault(),
    }
}

// Whether the disk failed in a call that answered so.
fn is_fault(answer: &Answer) -> bool
    ensures { result ≡ is_fault answer.now }
{
    match answer {
        Answer::Append(answer) => blames(answer),
        Answer::Flush(answer) => blames(answer),
        Answer::Reply(answer) => blames(answer),
        Answer::WriteBlock(answer) => blames(answer),
        Answer::Advance(answer) => blames(answer),
        Answer::ReadPrepare(answer) => blames(answer),
        Answer::ReadReply(answer) => blames(answer),
        Answer::ReadBlock(answer) => blames(answer),
        _ => false,
    }
}

// What is heard of an answer where the disk didn't fail.
fn unless_damaged(answer: Answer) -> Result<Answer, Fault>
    ensures { result ≡ unless_damaged answer }
{
    match answer {
        Answer::Advance(Err(StepError::Damaged { place, class })) => {
            Err(Fault::Damaged { place, class })
        }
        _ => Ok(answer),
    }
}

/// What is heard of an answer: the answer itself, or why no call may follow.
pub fn hear(answer: Answer) -> Result<Answer, Fault>
    ensures { result ≡ heard answer }
{
    if is_fault(&answer) {
        return Err(Fault::Disk);
    }
    unless_damaged(answer)
}
