// The first word of a line.

/// The first word of a line that is not skipped.
#[derive(Clone, Copy, Debug, PartialEq, Eq)]
pub enum Verb {
    Pond,
    Ring,
    Faulty,
    Block,
    Clients,
    Home,
    Submit,
    Resubmit,
    Deliver,
    Lose,
    Settle,
    Mute,
    Unmute,
    Forge,
    Cut,
    Mend,
    Read,
    Show,
}
