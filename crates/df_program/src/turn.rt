// What becomes of a session by one turn.
ghost use Rattle.std.specs.Prelude.{◌≡◌, ℕ, List, Option};
ghost use Rattle.df_base.specs.Causes.{HasCause};
ghost use Rattle.df_inspect.specs.Prints.{Prints};
ghost use Rattle.df_program.specs.Turns.{BlamesIfEnds, IsPrinted, printed_turn};

use crate::ends::Ends;
use df_base::Failed;

/// What became of a session by one turn: it goes on, or it ends with a status of the program.
#[derive(Clone, Copy, Debug, PartialEq, Eq)]
pub enum Turn<S> {
    GoesOn,
    Ends(S),
}

/// Goes on where the answer was printed.
pub fn printed<S: Ends>(done: Result<(), Failed>) -> Turn<S>
    ensures is { result ≡ printed_turn S.statuses.write_fault done }
    ensures prints { (text : List ℕ) (old new : Option (List ℕ)) → Prints text old new done → IsPrinted S.statuses.write_fault text old new result }
    ensures sink { (before now : ℕ) → HasCause before now done → BlamesIfEnds S.statuses.write_fault before now result }
    ensures others { (fault : S) (before now : ℕ) → (S.statuses.write_fault ≡ fault → ⊥) → now ≡ before → BlamesIfEnds fault before now result }
{
    match done {
        Ok(()) => Turn::GoesOn,
        Err(_) => Turn::Ends(S::shared().write_fault),
    }
}
