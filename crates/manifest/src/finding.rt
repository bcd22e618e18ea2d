// The look-up of an entry.
ghost use Rattle.std.specs.Prelude.{◌≡◌};
ghost use Rattle.std.specs.Option.{option_copied};
ghost use Rattle.manifest.specs.Grammar.{entry_named};

use crate::{Entry, Manifest};
use pond_base::Name;

/// The first entry of this name, and `None` exactly where the manifest lists no string of this name.
/// Takes no memory.
pub fn find(manifest: &Manifest, name: Name) -> Option<&Entry>
    ensures { option_copied result ≡ entry_named manifest.now.entries name }
{
    for entry in manifest.entries.as_slice() {
        if entry.name == name {
            return Some(entry);
        }
    }
    None
}
