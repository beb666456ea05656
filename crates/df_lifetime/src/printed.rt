// What is printed is a function of what the disk shows and of the words: laws, each the clause of a function that does nothing.
ghost use Rattle.df_lifetime.specs.{Printed.{FrontIsWritten, OneRun, RunTextIsResult}, Printed.{RecoverHasOneText, ScrubHasOneText, WorkloadHasOneText}};

/// A word has one text and one status over what a disk shows: carried out over two disks that show the same place by place, where no
/// call of the disk or of the sink failed, it prints the same and ends with the same status.
pub fn a_word_has_one_text()
    ensures recover { RecoverHasOneText }
    ensures scrub { ScrubHasOneText }
    ensures workload { WorkloadHasOneText }
{}

/// A generated run is one, over an image: its commands and their answers are a function of the seed, of the number of rounds and of the
/// image. It prints what it counted, and the head, the replies and the sequence that were found, with what it counted added.
pub fn a_run_has_one_result()
    ensures one { OneRun }
    ensures result { RunTextIsResult }
{}

/// However a session ends, also where the disk, the source or the sink failed, what is written is a front of the text that its script
/// has over what the disk showed at first.
pub fn a_front_is_written()
    ensures { FrontIsWritten }
{}
