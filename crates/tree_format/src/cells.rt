// Numbers and names at places of a byte string.
ghost use Rattle.std.specs.Prelude.{◌≡◌, ◌≤◌, ◌+◌, length, take, drop};
ghost use Rattle.std.specs.Int.{w32, to_be_bytes};

use pond_base::Name;

// The number of the four bytes from a place on.
pub(crate) fn number_at(bytes: &[u8], at: usize) -> u32
    requires { at + 4 ≤ length bytes.now }
    ensures { to_be_bytes w32 result ≡ take 4 (drop at bytes.now) }
{
    u32::from_be_bytes([bytes[at], bytes[at + 1], bytes[at + 2], bytes[at + 3]])
}

// The name of the twenty bytes from a place on.
pub(crate) fn name_at(bytes: &[u8], at: usize) -> Name
    requires { at + 20 ≤ length bytes.now }
    ensures { result ≡ take 20 (drop at bytes.now) }
{
    let mut name = [0; 20];
    name.copy_from_slice(&bytes[at..at + 20]);
    Name::from_bytes(name)
}
