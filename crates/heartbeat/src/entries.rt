// What is kept for each version of an object.
ghost use Rattle.std.specs.Prelude.{◌≡◌, ◌<◌, ℕ, List, Some, None, OnOk, OnErr};
ghost use Rattle.std.specs.Option.{option_or};
ghost use Rattle.std.specs.BTreeMap.{IsOrdered};
ghost use Rattle.heartbeat.specs.Votes.{value_for, said_of, believed_then, later_value};
ghost use Rattle.heartbeat.specs.Boards.{key_cmp, key_of, kept_at, first_at, value_at};
ghost use Rattle.heartbeat.specs.Newest.{newest_among};

use crate::entry::Entry;
use pond_base::{MemberId, Name, OutOfMemory, Version};
use std::collections::BTreeMap;

pub type Entries = BTreeMap<(Name, Version), Entry>;

/// What is kept for a version, an entry without votes where nothing is.
fn entry_of(entries: &Entries, object: Name, version: Version) -> Entry
    ensures first { (j : ℕ) → first_at (Some result) j ≡ first_at (kept_at entries.now.entries (key_of object version.0)) j }
    ensures accepted { value_at (Some result) ≡ value_at (kept_at entries.now.entries (key_of object version.0)) }
{
    match entries.get(&(object, version)) {
        Some(entry) => *entry,
        None => Entry::new(),
    }
}

/// Counts a member's vote for a version, and accepts its value where it is the first with so many
/// votes.
pub fn take(
    entries: &mut Entries,
    need: u32,
    member: MemberId,
    object: Name,
    version: Version,
    value: Name,
) -> Result<(), OutOfMemory>
    requires { member.0 < 10 }
    ensures first { OnOk result ((o : List ℕ) (v j : ℕ) → first_at (kept_at entries.new.entries (key_of o v)) j ≡ option_or (first_at (kept_at entries.old.entries (key_of o v)) j) (said_of o v j (record { member = member.0; object = object; version = version.0; value = value }))) }
    ensures accepted { OnOk result ((o : List ℕ) (v : ℕ) → value_at (kept_at entries.new.entries (key_of o v)) ≡ believed_then need (value_at (kept_at entries.old.entries (key_of o v))) (first_at (kept_at entries.new.entries (key_of o v))) (value_for o v (record { member = member.0; object = object; version = version.0; value = value }))) }
    ensures memory { OnErr result (kept_at entries.old.entries (key_of object version.0) ≡ None) }
    ensures err { OnErr result (entries.new.entries ≡ entries.old.entries) }
{
    let mut entry = entry_of(entries, object, version);
    entry.cast(need, member, value);
    match entries.insert((object, version), entry) {
        Ok(_) => Ok(()),
        Err(_) => Err(OutOfMemory),
    }
}

/// The later of what was found before and what the entry of a version has accepted.
fn later(before: Option<(Version, Name)>, version: Version, entry: Entry) -> Option<(Version, Name)>
    ensures { result ≡ later_value before version entry.accepted }
{
    let Some(value) = entry.accepted else {
        return before;
    };
    match before {
        Some((earlier, _)) if earlier > version => before,
        _ => Some((version, value)),
    }
}

/// The greatest version of an object with an accepted value, and this value. Reads the entries of the
/// object, which stand together, and the key after them.
pub fn newest_in(entries: &Entries, object: Name) -> Option<(Version, Name)>
    ensures value { result ≡ newest_among object None entries.now.entries }
    ensures ordered { IsOrdered key_cmp entries.now }
{
    let mut newest: Option<(Version, Name)> = None;
    for (key, entry) in entries.range((object, Version(0))..) {
        if key.0 != object {
            return newest;
        }
        newest = later(newest, key.1, *entry);
    }
    newest
}
