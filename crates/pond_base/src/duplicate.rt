// Equal copies.
ghost use Rattle.std.specs.Prelude.{◌≡◌, IfOk};

use crate::{Label, Name, OutOfMemory};

/// A type whose values can be copied into equal ones, which may take memory.
pub trait Duplicate: Drop + Sized {
    /// A copy that equals this value.
    fn duplicate(&self) -> Result<Self, OutOfMemory>
        ensures { IfOk result (λ copy. copy ≡ self.now) };
}

impl Duplicate for Name {
    fn duplicate(&self) -> Result<Name, OutOfMemory> {
        Ok(*self)
    }
}

impl Duplicate for Label {
    fn duplicate(&self) -> Result<Label, OutOfMemory> {
        Ok(*self)
    }
}
