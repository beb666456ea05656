// Scripts and what they print.

ghost use Rattle.df_script_model.specs.Script.{PrintedLaw};
ghost use Rattle.df_script_model.specs.Sessions.{BlockSession, FillLaw, FirstSession, FullGrid, FullPipeline, FullStaged, FullTable, GroupSession, LongTrailer, RingSession, ScrubSession};

/// A script of calls prints the texts of the machine's answers, in their order.
pub fn scripts_print_answers()
    ensures { PrintedLaw }
{}

/// One client's first requests, with each refusal that it can meet.
pub fn a_first_session()
    ensures { FirstSession }
{}

/// Requests are staged and flushed as one group, with each refusal that they can meet, and what is staged takes its place among
/// the sessions and the prepares that wait.
pub fn a_group_is_flushed()
    ensures session { GroupSession }
    ensures full { FullStaged }
{}

/// A full ring takes appends again once a checkpoint is done.
pub fn a_full_ring()
    ensures { RingSession }
{}

/// No place is left for a further client, and none for a prepare that would wait.
pub fn a_full_table()
    ensures clients { FullTable }
    ensures pipeline { FullPipeline }
{}

/// An address is given out again once no checkpoint holds it.
pub fn blocks_are_given_out_again()
    ensures { BlockSession }
{}

/// A full grid takes no block and no checkpoint.
pub fn a_full_grid()
    ensures { FullGrid }
{}

/// Lines that write blocks take the addresses of a new grid one after the other, up to its last one.
pub fn lines_fill_the_grid()
    ensures { FillLaw }
{}

/// After this many lines one reference more makes a trailer of two blocks.
pub fn a_long_trailer()
    ensures { LongTrailer }
{}

/// A tour over a file that was damaged between two runs lists what fails.
pub fn a_damaged_file_is_scrubbed()
    ensures { ScrubSession }
{}
