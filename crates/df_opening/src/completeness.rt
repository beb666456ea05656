// The law by which an open refuses no file that is in order, while boots are left.
ghost use Rattle.df_opening.specs.Completeness.{SafeIsNotRefused};

/// What an honest disk shows whose log is safe is refused for no reason, while boots are left.
pub fn what_is_safe_is_not_refused()
    ensures { SafeIsNotRefused }
{}
