// Which strings deliveries name: what the receiver of a delivered message names is among the strings
// that the text has named up to that line, and so is what all deliveries of a settle name. These laws
// stand on the ring's agreement: what a member executes stands at the head of the one committed list.
ghost use Rattle.script_laws.specs.NamingLaws.{SettledIsReached, SettledJoins, SkipsJoin, DeliveriesAreNamed, SettlesAreNamed, ExecutedAreNamed};

/// The settle of a script goes through the deliveries of what is pending, in their order, and stops where
/// nothing is pending.
pub fn settled_joins()
    ensures reached { SettledIsReached }
    ensures joins { SettledJoins }
{}

/// A settle of a world passes over the messages that the script passes over, where both have the same
/// muted parties and lost messages.
pub fn skips_join()
    ensures { SkipsJoin }
{}

/// Each string that the receiver of a delivered message names is named by the lines up to the delivery's.
pub fn deliveries_are_named()
    ensures { DeliveriesAreNamed }
{}

/// Each string that the deliveries of a settle name is named by the lines up to the settle.
pub fn settles_are_named()
    ensures { SettlesAreNamed }
{}

/// Each string of a version that a correct member made is one of a version of the committed list.
pub fn executed_are_named()
    ensures { ExecutedAreNamed }
{}
