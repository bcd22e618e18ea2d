// A hash with clashes, for tests.
ghost use Rattle.std.specs.Prelude.{◌≡◌, List, [], ◌∷◌, ◌++◌, ℕ};
ghost use Rattle.sha1.specs.Sha1.{sha1, Holds};
ghost use Rattle.block_names.specs.Digest.{folded};

use crate::Hash160;
use pond_base::Name;
use sha1::Sha1;

/// SHA-1 of a string without its bytes `ee`. It is for tests alone: strings that differ in bytes `ee`
/// alone have one name, so that a test can make the clashes that SHA-1 hides.
#[derive(Clone, Copy, Debug)]
pub struct FoldHash;

impl Hash160 for FoldHash {
    ghost use Rattle.sha1.specs.Sha1.{sha1};
    ghost use Rattle.block_names.specs.Digest.{folded, length-sha1};

    ghost naming = { λ bytes. sha1 (folded bytes) };

    fn hash(&self, bytes: &[u8]) -> Name {
        Name::from_bytes(folded_digest(bytes))
    }

    ghost long = { λ bytes. length-sha1 (folded bytes) };
}

// The digest of the bytes that are not `ee`.
fn folded_digest(bytes: &[u8]) -> [u8; 20]
    ensures { result ≡ sha1 (folded bytes.now) }
{
    let mut hasher = Sha1::new();
    for byte in bytes {
        take_folded(&mut hasher, *byte);
    }
    hasher.finalize()
}

// Hands a byte to a hasher, unless it is `ee`.
fn take_folded(hasher: &mut Sha1, byte: u8)
    ensures { (taken : List ℕ) → Holds hasher.old taken → Holds hasher.new (taken ++ folded (byte ∷ [])) }
{
    if byte == 0xee {
        return;
    }
    hasher.update(&[byte]);
}
