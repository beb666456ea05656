// How the words that work on a file end where nothing fails.
ghost use Rattle.df_top.specs.Completeness.{BlankIsFormatted, OldIsUpgraded, SafeIsRun, SafeIsServed, SecondIsLeft};

/// A file that is safe to open is served: where no call of the disk, the source or the sink failed, `run` ends Done, or Script
/// where a line of the text is refused, `recover` ends Done, and `inspect` and `scrub` Done or Found; or memory was wanting,
/// unless the rooms are there.
pub fn a_safe_file_is_served()
    ensures runs { SafeIsRun }
    ensures serves { SafeIsServed }
{}

/// A file of version 1 in which an open of that version would find a state is upgraded: where no call of the disk or of the sink failed, the
/// word `upgrade` ends Done, or memory was wanting. A file of version 2 in which an open finds a state is left as it is.
pub fn an_old_file_is_upgraded()
    ensures upgraded { OldIsUpgraded }
    ensures left { SecondIsLeft }
{}

/// A blank disk is formatted: with a cluster other than 0, where no call of the disk or of the sink failed, the word `format` ends
/// Done, with the file made and its line printed, or memory was wanting.
pub fn a_blank_disk_is_formatted()
    ensures { BlankIsFormatted }
{}
