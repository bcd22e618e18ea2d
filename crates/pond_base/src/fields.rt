// Fixed fields, read one after the other from the front of a byte string.
ghost use Rattle.std.specs.Prelude.{◌≡◌, ◌++◌, ◌∷◌, ◌<◌, ◌^◌, ℕ, List, length, IfOk, OnErr};
ghost use Rattle.std.specs.Int.{w32, to_be_bytes};
ghost use Rattle.pond_base.specs.Fields.{Gives};

use crate::Name;
use std::marker::Model;

/// Fewer bytes are left than were asked for.
#[derive(Clone, Copy, Debug, PartialEq, Eq)]
pub struct Short;

/// A cursor over the bytes that are left to read. Numbers are big-endian. After [`Short`], which comes
/// exactly where fewer bytes are left than a call asks for, the cursor is as it was.
#[derive(Debug, Drop)]
pub struct Fields<'a> {
    rest: &'a [u8],
}

impl<'a> Model for Fields<'a> {
    ghost use Rattle.std.specs.Prelude.{List, ℕ};

    ghost Value = { List ℕ };

    ghost view = { λ fields. fields.rest.now };
}

impl<'a> Fields<'a> {
    /// A cursor at the front of these bytes.
    pub fn new(bytes: &'a [u8]) -> Fields<'a>
        ensures { result ≡ bytes.now }
    {
        Fields { rest: bytes }
    }

    /// How many bytes are left.
    pub fn left(&self) -> usize
        ensures { result ≡ length self.now }
    {
        self.rest.len()
    }

    /// Takes one byte.
    pub fn take_u8(&mut self) -> Result<u8, Short>
        ensures read { IfOk result (λ number. self.old ≡ number ∷ self.new) }
        ensures spelled { (number : ℕ) (rest : List ℕ) → self.old ≡ number ∷ rest → Gives result self.new number rest }
        ensures short { OnErr result (length self.old < 1) }
        ensures unchanged { OnErr result (self.new ≡ self.old) }
    {
        let Some((first, rest)) = self.rest.split_first() else {
            return Err(Short);
        };
        self.rest = rest;
        Ok(*first)
    }

    /// Takes four bytes, the number that they spell.
    pub fn take_u32(&mut self) -> Result<u32, Short>
        ensures read { IfOk result (λ number. self.old ≡ to_be_bytes w32 number ++ self.new) }
        ensures spelled { (number : ℕ) (rest : List ℕ) → number < 2 ^ 32 → self.old ≡ to_be_bytes w32 number ++ rest → Gives result self.new number rest }
        ensures short { OnErr result (length self.old < 4) }
        ensures unchanged { OnErr result (self.new ≡ self.old) }
    {
        if self.rest.len() < 4 {
            return Err(Short);
        }
        let (front, rest) = self.rest.split_at(4);
        self.rest = rest;
        Ok(u32::from_be_bytes([front[0], front[1], front[2], front[3]]))
    }

    /// Takes the 20 bytes of a name.
    pub fn take_name(&mut self) -> Result<Name, Short>
        ensures read { IfOk result (λ name. (self.old ≡ name ++ self.new) × (length name ≡ 20)) }
        ensures spelled { (name : List ℕ) (rest : List ℕ) → length name ≡ 20 → self.old ≡ name ++ rest → Gives result self.new name rest }
        ensures short { OnErr result (length self.old < 20) }
        ensures unchanged { OnErr result (self.new ≡ self.old) }
    {
        let bytes = self.take_bytes(20)?;
        let mut name = [0; 20];
        name.copy_from_slice(bytes);
        Ok(Name::from_bytes(name))
    }

    /// Takes so many bytes.
    pub fn take_bytes(&mut self, count: usize) -> Result<&'a [u8], Short>
        ensures read { IfOk result (λ bytes. (self.old ≡ bytes.now ++ self.new) × (length bytes.now ≡ count)) }
        ensures spelled { (bytes : List ℕ) (rest : List ℕ) → length bytes ≡ count → self.old ≡ bytes ++ rest
            → IfOk result (λ found. found.now ≡ bytes) × (self.new ≡ rest) }
        ensures short { OnErr result (length self.old < count) }
        ensures unchanged { OnErr result (self.new ≡ self.old) }
    {
        if self.rest.len() < count {
            return Err(Short);
        }
        let (front, rest) = self.rest.split_at(count);
        self.rest = rest;
        Ok(front)
    }
}
