// The messages of one link.
ghost use Rattle.std.specs.Prelude.{◌≡◌, ℕ, ◌<◌, List, [], ◌∷◌, ◌++◌, length, slice_get, option_map, OnOk, IfOk};
ghost use Rattle.ring_model.specs.Messages.{Party, Packet};
ghost use Rattle.ring_model.specs.World.{between};
ghost use Rattle.ring_model.specs.Places.{Place, delivery};
ghost use Rattle.ring_mail.specs.Places.{packet_of};
ghost use Rattle.ring_mail.specs.Mails.{IsLink, is_marked as marked};

use crate::kept::Kept;
use bytes::Bytes;
use pond_base::OutOfMemory;

// Gives the bytes of the message at a place, and marks it as delivered.
pub(crate) fn take_out(kept: &mut Vec<Kept>, at: usize) -> Result<Option<Bytes>, OutOfMemory>
    ensures value { IfOk result (λ found. (p q : Party) (sent : List Packet) (done : List Place) → IsLink kept.old.items p q sent done → option_map (packet_of p q) found ≡ slice_get (between p q sent) at) }
    ensures ok { OnOk result ((p q : Party) (sent : List Packet) (done : List Place) → IsLink kept.old.items p q sent done → IsLink kept.new.items p q sent (done ++ delivery sent (record { from = p; to = q; place = at }))) }
{
    if at >= kept.len() {
        return Ok(None);
    }
    let bytes = copy(&kept[at])?;
    mark(kept, at);
    Ok(Some(bytes))
}

// The number of the message at a place, where there is one.
pub(crate) fn number_at(kept: &[Kept], at: usize) -> Option<u32>
    ensures { result ≡ option_map (λ one. one.number) (slice_get kept.now at) }
{
    match kept.get(at) {
        Some(one) => Some(one.number),
        None => None,
    }
}

// The bytes of a message, shared.
fn copy(kept: &Kept) -> Result<Bytes, OutOfMemory>
    ensures { IfOk result (λ bytes. bytes ≡ kept.now.bytes) }
{
    Ok(kept.bytes.clone()?)
}

// Marks the message at a place as delivered.
fn mark(kept: &mut Vec<Kept>, at: usize)
    requires { at < length kept.old.items }
    ensures { (p q : Party) (sent : List Packet) (done : List Place) → IsLink kept.old.items p q sent done → IsLink kept.new.items p q sent (done ++ record { from = p; to = q; place = at } ∷ []) }
{
    kept[at].delivered = true;
}

// Whether the message at a place was delivered.
pub(crate) fn is_marked(kept: &[Kept], at: usize) -> bool
    ensures { result ≡ marked (slice_get kept.now at) }
{
    match kept.get(at) {
        Some(one) => one.delivered,
        None => false,
    }
}
