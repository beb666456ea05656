// What a call leaves at each moment, where the events that it adds are steps: laws, each the clause of a function that does nothing.
ghost use Rattle.df_units.specs.{Calls.{CallIsGood, CallIsGoodByUnits, CallIsSafe, CallIsWhole, CallEnds}, Within.{StepsLieWithin}};

/// Each moment of a call whose events are steps has what the steps have, also where the disk fails midway; and one that
/// adds them all ends where the steps do. Its writes lie within the zones of the file.
pub fn calls_are_steps()
    ensures good { CallIsGood }
    ensures units { CallIsGoodByUnits }
    ensures safe { CallIsSafe }
    ensures whole { CallIsWhole }
    ensures ends { CallEnds }
    ensures within { StepsLieWithin }
{}
