// The name of a byte string.
ghost use Rattle.std.specs.Prelude.{◌≡◌, length};

use std::marker::Model;

/// The name of a byte string: the 20 bytes of its hash. Contracts see the list of these bytes.
#[derive(Clone, Copy, Debug, PartialEq, Eq, PartialOrd, Ord, Hash)]
pub struct Name([u8; 20]);

impl Model for Name {
    ghost use Rattle.std.specs.Prelude.{List, ℕ};

    ghost Value = { List ℕ };

    ghost view = { λ name. name.0 };

    ghost inverse = { λ bytes. record { 0 = bytes } };
}

impl Name {
    /// The name with these bytes.
    pub fn from_bytes(bytes: [u8; 20]) -> Name
        ensures { result ≡ bytes }
    {
        Name(bytes)
    }

    /// The 20 bytes of the name.
    pub fn bytes(&self) -> [u8; 20]
        ensures value { result ≡ self.now }
        ensures length { length self.now ≡ 20 }
    {
        self.0
    }
}
