// What the calls of a replica lend is what was written: laws, each the clause of a function that does nothing.
ghost use Rattle.df_replica.specs.{Lending.{CallIsOwn, CallIsTheOne, KeptIsWritten, OpenedIsWrittenFor}, Striking.{StruckReadsAreOwn}};

/// A read that a session makes, and that is Ok, gives the one unit that was ever written with the checksum that is known, over any
/// image that came about without chance. Where all was written that the state of the machine has, it is that state's own; so it is of
/// a file that is kept and of what an open found on a disk that may be hurt, and each call carries it on, whatever sectors are struck
/// between two of them.
pub fn what_is_lent_was_written()
    ensures call { CallIsTheOne }
    ensures own { CallIsOwn }
    ensures kept { KeptIsWritten }
    ensures opened { OpenedIsWrittenFor }
    ensures struck { StruckReadsAreOwn }
{}
