// The labels of a script.
ghost use Rattle.std.specs.Prelude.{ℕ, List};
ghost use Rattle.script_run.specs.Labels.{HasName};

use pond_base::{Label, Name};
use std::collections::BTreeMap;

/// The labels of a script, each with the name of its object.
pub(crate) type Labels = BTreeMap<Label, Name>;

/// The name of the object of a label of the script. Takes no memory.
pub(crate) fn object_of(labels: &Labels, label: &Label) -> Name
    requires { (name : List ℕ) × HasName labels.now.entries label.now name }
    ensures { HasName labels.now.entries label.now result }
{
    match labels.get(label) {
        Some(name) => *name,
        None => unreachable!(),
    }
}
