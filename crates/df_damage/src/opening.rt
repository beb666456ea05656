// What an open finds on a disk that may be hurt: laws, each the clause of a function that does nothing.
ghost use Rattle.df_damage.specs.{Answers.{AnswerIsOfHurt}, Openings.{CheckpointStays, FoundWasHad, HeadersMayBeHurt, HeadersTell, TwoCopiesAreEnough, WholeTailIsFound}};

/// Whatever was damaged, lost or swapped, a state that an open finds is one that the file really had.
pub fn found_state_was_had()
    ensures { FoundWasHad }
{}

/// A file that had four equal superblock copies, of which at most two are hurt, and nothing else, is opened as it was left.
pub fn two_copies_are_enough()
    ensures { TwoCopiesAreEnough }
{}

/// A file of which header sectors alone are hurt is opened as it was left.
pub fn headers_are_not_needed()
    ensures { HeadersMayBeHurt }
{}

/// Where the four superblock copies were equal and at most two are hurt, what an open finds has the checkpoint of the file.
pub fn checkpoint_stays()
    ensures { CheckpointStays }
{}

/// While no header sector is hurt, what an open finds has each prepare above its checkpoint whose header the ring shows.
pub fn headers_tell()
    ensures each { HeadersTell }
    ensures whole { WholeTailIsFound }
{}

/// All of these, and why an open refuses, as one fact of its answer.
pub fn answer_is_of_hurt()
    ensures { AnswerIsOfHurt }
{}
