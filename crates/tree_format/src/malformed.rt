// Bytes outside a grammar.

/// The bytes are no string of the kind that was asked for.
#[derive(Clone, Copy, Debug, PartialEq, Eq)]
pub struct Malformed;
