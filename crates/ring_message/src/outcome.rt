// What became of requests.
use pond_base::{Name, Version};

/// What became of a request that was executed.
#[derive(Clone, Copy, Debug, PartialEq, Eq)]
pub enum Outcome {
    /// It made this version of its object, whose root has this name.
    Made { version: Version, name: Name },
    /// The guards of no clause held.
    NoClause,
    /// An action was to change bytes that the version doesn't have.
    OutOfRange,
    /// An action would have made the version too long.
    TooLong,
    /// A request of this client and this number was executed before.
    Repeat,
}
