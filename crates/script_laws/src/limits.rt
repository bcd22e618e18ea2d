// The limits of scripts: a text that is a script by its grammar is one within its limits, its setup and
// each line behind those before it.
ghost use Rattle.script_laws.specs.Limits.{ScriptsAreWithin};
ghost use Rattle.script_laws.specs.Turns.{LinesFitInTurn, SubmitsAreRequests, FewAreSubmitted, FaultyAreMembers};

/// Each text that is a script is one within its limits.
pub fn scripts_are_within()
    ensures { ScriptsAreWithin }
{}

/// Who goes through the lines finds each within its limits; counts of lines are those of the requests
/// that they submit, and faulty members are of the ring.
pub fn lines_fit_in_turn()
    ensures turn { LinesFitInTurn }
    ensures submits { SubmitsAreRequests }
    ensures few { FewAreSubmitted }
    ensures faulty { FaultyAreMembers }
{}
