// What an answer makes of a generated run.
ghost use Rattle.std.specs.Prelude.{◌≡◌, ◌≤◌, ◌<◌, ◌+◌, ◌^◌, length};
ghost use Rattle.df_workload.specs.{Hearing.{append_heard, begin_heard, block_heard, refused, release_heard, reply_heard, stepped, told}, Sound.{IsSoundState, MayBeTold, counted_commands}};

use crate::draw::body_length;
use crate::{Outcome, Point, State};

impl State {
    fn refuse(&mut self)
        requires { self.old.counts.refused < 2 ^ 32 }
        ensures { self.new ≡ refused self.old }
    {
        self.counts.refused += 1;
    }

    fn appended(&mut self, outcome: Outcome)
        requires counted { counted_commands self.old.counts < 2 ^ 32 }
        requires bytes { self.old.counts.bytes < 2 ^ 48 }
        ensures { self.new ≡ append_heard outcome self.old }
    {
        if outcome == Outcome::Refused {
            self.refuse();
        } else {
            self.counts.appended += 1;
            self.counts.bytes += body_length(self.number) as u64;
        }
    }

    fn replied(&mut self, outcome: Outcome)
        requires { counted_commands self.old.counts < 2 ^ 32 }
        ensures { self.new ≡ reply_heard outcome self.old }
    {
        if outcome == Outcome::Refused {
            self.refuse();
        } else {
            self.counts.replied += 1;
        }
    }

    fn stepped(&mut self, outcome: Outcome)
        requires { counted_commands self.old.counts < 2 ^ 32 }
        ensures { self.new ≡ stepped outcome self.old }
    {
        match outcome {
            Outcome::Refused => self.refuse(),
            Outcome::Finished => {
                self.running = false;
                self.counts.checkpoints += 1;
            }
            Outcome::Accepted | Outcome::Wrote { address: _ } => {}
        }
    }

    fn wrote(&mut self, outcome: Outcome)
        requires counted { counted_commands self.old.counts < 2 ^ 32 }
        requires held { length self.old.held ≤ 8 }
        ensures { self.new ≡ block_heard outcome self.old }
    {
        match outcome {
            Outcome::Refused => self.refuse(),
            Outcome::Wrote { address } => {
                self.held.push(address);
                self.counts.wrote += 1;
            }
            Outcome::Accepted | Outcome::Finished => {}
        }
    }

    fn released(&mut self, outcome: Outcome)
        requires counted { counted_commands self.old.counts < 2 ^ 32 }
        requires held { 0 < length self.old.held }
        ensures { self.new ≡ release_heard outcome self.old }
    {
        self.held.take_first();
        if outcome == Outcome::Refused {
            self.refuse();
        } else {
            self.counts.released += 1;
        }
    }

    fn begun(&mut self, outcome: Outcome)
        requires { counted_commands self.old.counts < 2 ^ 32 }
        ensures { self.new ≡ begin_heard outcome self.old }
    {
        if outcome == Outcome::Refused {
            self.refuse();
        } else {
            self.running = true;
        }
    }

    /// Counts an answer and goes on.
    pub(crate) fn hear(&mut self, outcome: Outcome)
        requires sound { IsSoundState self.old }
        requires may { MayBeTold self.old.point outcome self.old }
        ensures { self.new ≡ told outcome self.old }
    {
        match self.point {
            Point::Appending => {
                self.appended(outcome);
                self.to_replies();
            }
            Point::Replying { op } => {
                self.replied(outcome);
                self.after_reply(op);
            }
            Point::Stepping => {
                self.stepped(outcome);
                self.to_block();
            }
            Point::Writing => {
                self.wrote(outcome);
                self.to_release();
            }
            Point::Releasing => {
                self.released(outcome);
                self.to_begin();
            }
            Point::Beginning => {
                self.begun(outcome);
                self.to_next();
            }
            Point::Ending => self.stepped(outcome),
        }
    }
}
