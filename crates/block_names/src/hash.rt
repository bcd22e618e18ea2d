// Hashes of 20 bytes.
ghost use Rattle.std.specs.Prelude.{◌≡◌, List, ℕ, length};

use pond_base::Name;
use sha1::Sha1;

/// A hash of 20 bytes. Its meaning is a naming function, from byte strings to names.
pub trait Hash160 {
    // The name of each byte string.
    ghost naming: { List ℕ → List ℕ };

    /// The name of a byte string. Takes no memory.
    fn hash(&self, bytes: &[u8]) -> Name
        ensures { result ≡ naming bytes.now };

    // A name has 20 bytes.
    ghost long: { (bytes : List ℕ) → length (naming bytes) ≡ 20 };
}

/// SHA-1, of FIPS 180-4.
#[derive(Clone, Copy, Debug)]
pub struct Sha1Hash;

impl Hash160 for Sha1Hash {
    ghost use Rattle.sha1.specs.Sha1.{sha1};
    ghost use Rattle.block_names.specs.Digest.{length-sha1};

    ghost naming = { sha1 };

    fn hash(&self, bytes: &[u8]) -> Name {
        Name::from_bytes(Sha1::digest(bytes))
    }

    ghost long = { length-sha1 };
}
