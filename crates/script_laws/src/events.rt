// The events that the lines of a script are: which event of the world a line is, that it may come, and
// what is submitted as lines come.
ghost use Rattle.script_laws.specs.EventLaws.{SetupsJoin, RingsJoin, RingIsSound, SubmitsAreRequests, CountsJoin, AskedIsThere, OthersSubmitNone, OneRequestALine, EventsComeOfLines};

/// A setup within the limits of scripts is one of a world, and its ring is the ring of the script, which
/// reads requests as the grammar does, is small, and tolerates the members that are declared faulty.
pub fn setups_join()
    ensures setup { SetupsJoin }
    ensures ring { RingsJoin }
    ensures sound { RingIsSound }
{}

/// What is submitted after lines are the requests that they submit, of each client as many.
pub fn submits_are_requests()
    ensures strings { SubmitsAreRequests }
    ensures counts { CountsJoin }
{}

/// A request that earlier lines submit is found among what is submitted.
pub fn asked_is_there()
    ensures { AskedIsThere }
{}

/// A line submits one request or none.
pub fn one_request_a_line()
    ensures others { OthersSubmitNone }
    ensures requests { OneRequestALine }
{}

/// The event of a line that is within its limits may come, and it is what the line adds to the events.
pub fn events_come_of_lines()
    ensures { EventsComeOfLines }
{}
