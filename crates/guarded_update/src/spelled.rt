// What stands in a list of a request: guards, actions and clauses, read and written one way.
ghost use Rattle.std.specs.Prelude.{◌≡◌, ◌++◌, Bool, List, ℕ, length, IfOk, OnOk, IsTrue};
ghost use Rattle.std.specs.List.{flat_map, list_all, AllByRecursion};
ghost use Rattle.guarded_update.specs.Reads.{Gets, after_adding};

use crate::RequestFault;
use pond_base::{Fields, Items, OutOfMemory};
use std::alloc::Global;

/// A type of values of which those that are allowed have a spelling.
pub(crate) trait Spelled: Drop + Sized {
    // The bytes that spell a value.
    ghost spelling: { Self → List ℕ };

    // Whether the parts of a value fit into their places.
    ghost allowed: { Self → Type 0 };

    // Whether a value can be written.
    ghost writable: { Self → Bool };

    /// Reads the value that is spelled in front.
    fn read(alloc: Global, fields: &mut Fields) -> Result<Self, RequestFault>
        ensures read { IfOk result (λ value. (fields.old ≡ spelling value ++ fields.new) × allowed value) }
        ensures spelled { (value : Self) (rest : List ℕ) → allowed value → fields.old ≡ spelling value ++ rest → Gets result fields.new value rest };

    /// Adds the spelling of this value.
    fn write(&self, out: &mut Vec<u8>) -> Result<(), OutOfMemory>
        requires { IsTrue (writable self.now) }
        ensures added { OnOk result (out.new.items ≡ out.old.items ++ spelling self.now) }
        ensures allowed { OnOk result (allowed self.now) };
}

/// Reads so many values that are spelled one after the other.
pub(crate) fn read_items<T: Spelled>(
    alloc: Global,
    fields: &mut Fields,
    count: u8,
) -> Result<Items<T>, RequestFault>
    ensures read { IfOk result (λ items. (fields.old ≡ flat_map T.spelling items ++ fields.new) × (length items ≡ count) × AllByRecursion T.allowed items) }
    ensures spelled { (items : List T) (rest : List ℕ) → length items ≡ count → AllByRecursion T.allowed items → fields.old ≡ flat_map T.spelling items ++ rest
        → Gets result fields.new items rest }
{
    let mut items = Vec::new(alloc);
    add_items(alloc, fields, count, &mut items)?;
    Ok(Items::from_vec(items))
}

// Adds so many values to a list.
fn add_items<T: Spelled>(
    alloc: Global,
    fields: &mut Fields,
    count: u8,
    items: &mut Vec<T>,
) -> Result<(), RequestFault>
    ensures read { OnOk result ((added : List T) × (items.new.items ≡ items.old.items ++ added) × (length added ≡ count) × (fields.old ≡ flat_map T.spelling added ++ fields.new) × AllByRecursion T.allowed added) }
    ensures spelled { (added : List T) (rest : List ℕ) → length added ≡ count → AllByRecursion T.allowed added → fields.old ≡ flat_map T.spelling added ++ rest
        → Gets (after_adding result items.new.items) fields.new (items.old.items ++ added) rest }
{
    if count == 0 {
        return Ok(());
    }
    items.push(T::read(alloc, fields)?)?;
    add_items(alloc, fields, count - 1, items)
}

/// Adds the spellings of values, one after the other.
pub(crate) fn write_items<T: Spelled>(items: &[T], out: &mut Vec<u8>) -> Result<(), OutOfMemory>
    requires { IsTrue (list_all T.writable items.now) }
    ensures added { OnOk result (out.new.items ≡ out.old.items ++ flat_map T.spelling items.now) }
    ensures allowed { OnOk result (AllByRecursion T.allowed items.now) }
{
    let mut rest = items;
    while let [first, after @ ..] = rest {
        first.write(out)?;
        rest = after;
    }
    Ok(())
}
