// What an image holds and what an open finds in it are one.

ghost use Rattle.df_theory.specs.ViewLaws.{OneChosenLaw, OneViewLaw, FoundLaw, SlotLaw, DecisionLaw, OneFoundLaw, AnAnswerLaw, OneAnswerLaw, FoundAnswerLaw, SpentAnswerLaw};

/// Four copies choose one content.
pub fn one_is_chosen()
    ensures { OneChosenLaw }
{}

/// An image holds one view.
pub fn one_view_is_held()
    ensures { OneViewLaw }
{}

/// What is held is what an open finds.
pub fn held_is_found()
    ensures { FoundLaw }
{}

/// The slot of each op of the tail is taken, and each other slot is empty.
pub fn slots_are_taken_or_empty()
    ensures { SlotLaw }
{}

/// What the decision on a slot says of what its two rings show.
pub fn decisions_say_what_is_shown()
    ensures { DecisionLaw }
{}

/// An open finds one state.
pub fn one_is_found()
    ensures { OneFoundLaw }
{}

/// An open gives one answer: the first refusal, or the state.
pub fn one_answer_is_given()
    ensures { OneAnswerLaw }
{}

/// The answer is a state exactly where no step refuses.
pub fn found_is_answered()
    ensures { FoundAnswerLaw }
{}

/// Where a state is found, the only refusal is of a boot that can't be raised.
pub fn spent_boots_are_refused()
    ensures { SpentAnswerLaw }
{}

/// An open of any image has an answer.
pub fn an_answer_is_given()
    ensures { AnAnswerLaw }
{}
