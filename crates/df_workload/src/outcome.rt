// What a generated run hears of an answer.
ghost use Rattle.std.specs.Prelude.{◌≡◌};
ghost use Rattle.df_workload.specs.Hearing.{outcome_in};

use df_model::{Answer, Progress};

/// All that the rest of a run depends on.
#[derive(Clone, Copy, Debug, PartialEq, Eq)]
pub enum Outcome {
    /// The command was refused, for whatever reason.
    Refused,
    /// It was carried out; a step has more steps after it.
    Accepted,
    /// The block stands at this address.
    Wrote { address: u64 },
    /// The step was the last of its checkpoint.
    Finished,
}

/// What a run hears of the answer of a call in which the disk didn't fail.
pub fn outcome_in(answer: &Answer) -> Outcome
    ensures { result ≡ outcome_in answer.now }
{
    match *answer {
        Answer::WriteBlock(Ok(reference)) => Outcome::Wrote {
            address: reference.address,
        },
        Answer::Advance(Ok(Progress::Done { sequence: _ })) => Outcome::Finished,
        Answer::Append(Err(_))
        | Answer::Stage(Err(_))
        | Answer::Flush(Err(_))
        | Answer::Reply(Err(_))
        | Answer::WriteBlock(Err(_))
        | Answer::Release(Err(_))
        | Answer::Begin(Err(_))
        | Answer::Advance(Err(_)) => Outcome::Refused,
        Answer::Append(Ok(_))
        | Answer::Stage(Ok(_))
        | Answer::Flush(Ok(_))
        | Answer::Reply(Ok(_))
        | Answer::Release(Ok(()))
        | Answer::Begin(Ok(_))
        | Answer::Advance(Ok(Progress::Working { left: _ }))
        | Answer::ReadPrepare(_)
        | Answer::ReadReply(_)
        | Answer::ReadBlock(_)
        | Answer::Scrub(_)
        | Answer::Recent => Outcome::Accepted,
    }
}
