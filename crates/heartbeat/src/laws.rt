// What is believed of votes is what the model of agreement believes of letters.
ghost use Rattle.heartbeat.specs.Joins.{HeartsJoin, SealsJoin, NewestJoins};

/// The root of a version that is believed of letters is the one that is believed of the votes in them.
pub fn hearts_join()
    ensures { HeartsJoin }
{}

/// The manifest of a version that is believed of letters is the one that is believed of the votes in
/// them.
pub fn seals_join()
    ensures { SealsJoin }
{}

/// A client's heart of an object, by letters, is the newest version by the votes in them.
pub fn newest_joins()
    ensures { NewestJoins }
{}
