// The phases of voting.

/// Which vote of a slot is meant: members first prepare a request, and then commit it.
#[derive(Clone, Copy, Debug, PartialEq, Eq)]
pub enum Phase {
    Prepare,
    Commit,
}
