// Which events may come next.
ghost use Rattle.pond_world.specs.Coming.{EventsMayCome};

/// What a caller that keeps the list of events sees to is all that a step asks for.
pub fn events_may_come()
    ensures { EventsMayCome }
{}
