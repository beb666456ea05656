// From one point of a generated run to the next one that asks for something.
ghost use Rattle.std.specs.Prelude.{◌≡◌, ◌≤◌, ◌<◌, ◌+◌, ◌^◌};
ghost use Rattle.df_workload.specs.Rounds.{after_reply, is_replied_to, start, to_append, to_begin, to_block, to_next, to_release, to_replies, to_step};

use crate::draw::{first_number, next_number};
use crate::{Counts, Held, Point, State};

/// The start of a run of this many rounds, over a file with places for this many clients.
pub(crate) fn start(seed: u64, count: u64, clients: u32) -> State
    ensures { result ≡ start seed count clients }
{
    let mut state = State {
        number: first_number(seed),
        count,
        clients: u64::from(clients.min(4)),
        round: 1,
        point: Point::Appending,
        held: Held::none(),
        running: false,
        counts: Counts {
            appended: 0,
            replied: 0,
            wrote: 0,
            released: 0,
            checkpoints: 0,
            refused: 0,
            bytes: 0,
        },
    };
    state.to_append();
    state
}

impl State {
    /// Draws a body and goes on to its append.
    fn to_append(&mut self)
        requires { self.old.number < 2 ^ 31 }
        ensures { self.new ≡ to_append self.old }
    {
        self.number = next_number(self.number);
        self.point = Point::Appending;
    }

    /// Goes on to the next round, or to the end.
    pub(crate) fn to_next(&mut self)
        requires { self.old.number < 2 ^ 31 }
        ensures { self.new ≡ to_next self.old }
    {
        if self.round < self.count {
            self.round += 1;
            self.to_append();
        } else {
            self.point = Point::Ending;
        }
    }

    /// Each sixteenth round begins a checkpoint.
    pub(crate) fn to_begin(&mut self)
        requires { self.old.number < 2 ^ 31 }
        ensures { self.new ≡ to_begin self.old }
    {
        if self.round % 16 == 0 {
            self.point = Point::Beginning;
        } else {
            self.to_next();
        }
    }

    /// Where nine addresses are held, the oldest is released.
    pub(crate) fn to_release(&mut self)
        requires { self.old.number < 2 ^ 31 }
        ensures { self.new ≡ to_release self.old }
    {
        if self.held.is_full() {
            self.point = Point::Releasing;
        } else {
            self.to_begin();
        }
    }

    /// Each fourth round draws a body and writes a block.
    pub(crate) fn to_block(&mut self)
        requires { self.old.number < 2 ^ 31 }
        ensures { self.new ≡ to_block self.old }
    {
        if self.round % 4 == 0 {
            self.number = next_number(self.number);
            self.point = Point::Writing;
        } else {
            self.to_begin();
        }
    }

    /// While a checkpoint runs, a round has a step of it.
    pub(crate) fn to_step(&mut self)
        requires { self.old.number < 2 ^ 31 }
        ensures { self.new ≡ to_step self.old }
    {
        if self.running {
            self.point = Point::Stepping;
        } else {
            self.to_block();
        }
    }

    fn is_replied_to(&self) -> bool
        requires { 1 ≤ self.now.clients }
        ensures { result ≡ is_replied_to self.now }
    {
        self.round % self.clients == 0 || self.round == self.count
    }

    /// Where each client had its turn, or there is no more, the ops that wait are replied to.
    pub(crate) fn to_replies(&mut self)
        requires number { self.old.number < 2 ^ 31 }
        requires clients { 1 ≤ self.old.clients }
        requires round { 1 ≤ self.old.round }
        ensures { self.new ≡ to_replies self.old }
    {
        if self.is_replied_to() {
            let op = self.round - (self.round - 1) % self.clients;
            self.point = Point::Replying { op };
        } else {
            self.to_step();
        }
    }

    /// After the reply to an op comes that to the next one, up to the round's.
    pub(crate) fn after_reply(&mut self, op: u64)
        requires { self.old.number < 2 ^ 31 }
        ensures { self.new ≡ after_reply op self.old }
    {
        if op < self.round {
            self.point = Point::Replying { op: op + 1 };
        } else {
            self.to_step();
        }
    }
}
