// What a client keeps.
ghost use Rattle.std.specs.Prelude.{◌<◌, ◌≤◌, length};
ghost use Rattle.pond_base.specs.declared.limits.TheConstants.{MOST_CLIENTS, MOST_FAULTY, MOST_SLOTS};

use crate::asking::Asked;
use crate::replies::Replies;
use heartbeat::Votes;
use pond_base::ClientId;
use std::alloc::Global;

/// A client of a ring: the requests that it submitted, and what members told it.
#[derive(Drop)]
pub struct Client {
    pub(crate) alloc: Global,
    pub(crate) id: ClientId,
    pub(crate) f: u8,
    pub(crate) requests: Vec<Asked>,
    pub(crate) replies: Replies,
    pub(crate) hearts: Votes,
    pub(crate) seals: Votes,
    ghost low: { id.0 < MOST_CLIENTS },
    ghost few: { f ≤ MOST_FAULTY },
    ghost counted: { length requests.items ≤ MOST_SLOTS },
}
