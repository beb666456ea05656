// The generator: the state of a run, and the room for the body that was drawn last.
ghost use Rattle.std.specs.Prelude.{◌≡◌, ◌≤◌, ◌<◌, false, IfSome, IfNone, Some, None};
ghost use Rattle.df_workload.specs.{Asking.{asks, command_asked}, Draw.{drawn_body}, Hearing.{told}, Rounds.{start}, Sound.{MayBeTold, is_at_end, left}};

use crate::draw::{ROOM, body_length, fill};
use crate::rounds::start;
use crate::{Asked, Counts, Outcome, Point, State};
use std::marker::Model;

/// A run of commands that are made up from a number; it takes no memory.
#[derive(Drop)]
pub struct Generator {
    state: State,
    room: [u8; ROOM],
}

impl Model for Generator {
    ghost use Rattle.std.specs.Prelude.{◌≡◌, take};
    ghost use Rattle.df_workload.specs.declared.state.State.{State};

    ghost Value = { State };

    ghost use Rattle.df_workload.specs.Draw.{body_length, drawn_body};
    ghost use Rattle.df_workload.specs.Sound.{IsSoundState};

    ghost view = { λ g. g.state };

    ghost invariant = { λ g. IsSoundState g.state × (take (body_length g.state.number) g.room ≡ drawn_body g.state.number) };
}

impl Generator {
    /// A run of `count` rounds, 1 to 1,000,000, over a file with places for `clients` clients.
    pub fn new(seed: u64, count: u64, clients: u32) -> Generator
        requires some { 1 ≤ count }
        requires million { count ≤ 1000000 }
        requires clients { 1 ≤ clients }
        ensures { result ≡ start seed count clients }
    {
        let state = start(seed, count, clients);
        let mut room = [0; ROOM];
        fill(&mut room, state.number);
        Generator { state, room }
    }

    /// The command that is asked for next: None where all rounds are over and no checkpoint runs.
    pub fn asks(&self) -> Option<Asked>
        ensures some { IfSome result (λ a. asks self.now ≡ Some (command_asked self.now a)) }
        ensures none { IfNone result (asks self.now ≡ None) }
    {
        match self.state.point {
            Point::Appending => Some(Asked::Append {
                client: u128::from((self.state.round - 1) % self.state.clients + 1),
                request: (self.state.round - 1) / self.state.clients + 1,
            }),
            Point::Replying { op } => Some(Asked::Reply { op }),
            Point::Stepping => Some(Asked::Step),
            Point::Writing => Some(Asked::Block),
            Point::Releasing => Some(Asked::Release {
                address: self.state.held.first(),
            }),
            Point::Beginning => Some(Asked::Begin {
                root: self.state.round,
            }),
            Point::Ending => self.state.running.then_some(Asked::Step),
        }
    }

    /// The body that was drawn last.
    pub fn body(&self) -> &[u8]
        ensures { result.now ≡ drawn_body self.now.number }
    {
        &self.room[..body_length(self.state.number)]
    }

    /// Whether all rounds are over.
    pub fn is_ending(&self) -> bool
        ensures { result ≡ is_at_end self.now.point }
    {
        self.state.point == Point::Ending
    }

    /// Whether a checkpoint runs.
    pub fn is_running(&self) -> bool
        ensures { result ≡ self.now.running }
    {
        self.state.running
    }

    /// Hears what was answered to the command that was asked for.
    pub fn hear(&mut self, outcome: Outcome)
        requires { MayBeTold self.old.point outcome self.old }
        ensures heard { self.new ≡ told outcome self.old }
        ensures less { is_at_end self.old.point ≡ false → left self.new < left self.old }
    {
        self.state.hear(outcome);
        fill(&mut self.room, self.state.number);
    }

    /// What was counted so far.
    pub fn counts(&self) -> Counts
        ensures { result ≡ self.now.counts }
    {
        self.state.counts
    }
}
