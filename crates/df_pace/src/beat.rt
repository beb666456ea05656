// The loop's work piece by piece: where it stands, what is next, and what is left then.
ghost use Rattle.std.specs.Prelude.{◌≡◌};
ghost use Rattle.df_pace.specs.Beats.{beat_after_line, beat_after_piece, next_piece, started, without};

use crate::{Due, Pace, due};

/// One piece of the work that is due.
#[derive(Clone, Copy, Debug, PartialEq, Eq)]
pub enum Piece {
    /// A checkpoint is begun, with the durable root.
    Begin,
    /// A step of the running checkpoint.
    Step,
    /// A step of the scrubber.
    Scrub,
}

impl Due {
    // What is left when this is done.
    fn without(self, piece: Piece) -> Due
        ensures { result ≡ without piece self }
    {
        match piece {
            Piece::Begin => Due {
                begin: false,
                steps: self.steps,
                scrub: self.scrub,
            },
            Piece::Step => Due {
                begin: self.begin,
                steps: self.steps.saturating_sub(1),
                scrub: self.scrub,
            },
            Piece::Scrub => Due {
                begin: self.begin,
                steps: self.steps,
                scrub: self.scrub.saturating_sub(1),
            },
        }
    }
}

/// Where the loop stands beside a script.
#[derive(Clone, Copy, Debug, PartialEq, Eq)]
pub struct Beat {
    /// The head at the loop's last begin, or at the open.
    pub since: u64,
    /// What is left of the work after the last line.
    pub due: Due,
}

impl Beat {
    /// Where it stands at an open, with this head: nothing is due.
    pub fn start(head: u64) -> Beat
        ensures { result ≡ started head }
    {
        Beat {
            since: head,
            due: Due {
                begin: false,
                steps: 0,
                scrub: 0,
            },
        }
    }

    /// What is to be done next, where a checkpoint runs or not; None where nothing is left.
    pub fn next(&self, running: bool) -> Option<Piece>
        ensures { result ≡ next_piece self.now.due running }
    {
        if self.due.begin {
            return Some(Piece::Begin);
        }
        if running && self.due.steps > 0 {
            return Some(Piece::Step);
        }
        if self.due.scrub > 0 {
            Some(Piece::Scrub)
        } else {
            None
        }
    }

    /// Where it stands after a line, with the head as it is then, and where a checkpoint runs then or not.
    pub fn behind_line(&self, pace: &Pace, head: u64, running: bool) -> Beat
        ensures { result ≡ beat_after_line pace.now self.now head running }
    {
        Beat {
            since: self.since,
            due: due(pace, head.saturating_sub(self.since), running),
        }
    }

    /// Where it stands after a piece of its work: with a begin that was accepted it counts from the head anew.
    pub fn behind_piece(&self, piece: Piece, begun: bool, head: u64) -> Beat
        ensures { result ≡ beat_after_piece piece begun self.now head }
    {
        let since = if begun { head } else { self.since };
        Beat {
            since,
            due: self.due.without(piece),
        }
    }
}
