// What is kept of a file by calls on it: a law, the clause of a function that does nothing.
ghost use Rattle.df_session.specs.Laws.{CallsOnOpenFileKeepIt};

/// Calls on a file that was opened keep it, whatever they are and however they end: what is answered is what the machine answers, and by each
/// log by which the file may be opened all that was answered is there from its answer on, at each moment and at the end.
pub fn calls_on_an_open_file_keep_it()
    ensures { CallsOnOpenFileKeepIt }
{}
