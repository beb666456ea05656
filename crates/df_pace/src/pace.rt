// How much work is done beside a script, so that no line waits for a whole checkpoint.
ghost use Rattle.std.specs.Prelude.{◌≡◌};
ghost use Rattle.df_pace.specs.Beats.{idle};

/// How much work is done after each line of a script.
#[derive(Clone, Copy, Debug, PartialEq, Eq)]
pub struct Pace {
    /// This many steps of the scrubber.
    pub scrub: u64,
    /// A checkpoint is begun once this many prepares were accepted since the loop last began one, a flush counting as many as it appends;
    /// with 0 none ever is.
    pub every: u64,
    /// At most this many steps of the running checkpoint.
    pub steps: u64,
}

impl Pace {
    /// No work at all.
    pub fn idle() -> Pace
        ensures { result ≡ idle }
    {
        Pace {
            scrub: 0,
            every: 0,
            steps: 0,
        }
    }
}

/// The work that is due after a line, in this order.
#[derive(Clone, Copy, Debug, PartialEq, Eq)]
pub struct Due {
    /// A checkpoint is to be begun, with the durable root. One that is refused is due again after the next line.
    pub begin: bool,
    /// At most this many steps, as long as a checkpoint runs.
    pub steps: u64,
    /// This many steps of the scrubber.
    pub scrub: u64,
}
