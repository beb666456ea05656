// What a table of replies says in the words of the theory: laws, each the clause of a function that does nothing.
ghost use Rattle.df_replies.specs.{Shown.{ScannedIsShown}, Answers.{FoundAreStored, StoredAreFound}};

/// Replies that were scanned are those that the theory's image shows.
pub fn scanned_replies_are_shown()
    ensures { ScannedIsShown }
{}

/// The stored replies of a state are those that are shown at the places of its answered sessions, both ways.
pub fn stored_replies_are_found()
    ensures found { StoredAreFound }
    ensures stored { FoundAreStored }
{}
