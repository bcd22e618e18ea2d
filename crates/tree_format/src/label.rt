// The string that an object has its name from.
ghost use Rattle.std.specs.Prelude.{◌≡◌, IfOk};
ghost use Rattle.tree_format.specs.Strings.{label_string};

use bytes::Bytes;
use pond_base::{Label, OutOfMemory};
use std::alloc::Global;

/// The label string of a label. The object of the label has the name of this string.
pub fn write_label(alloc: Global, label: &Label) -> Result<Bytes, OutOfMemory>
    ensures { IfOk result (λ string. string ≡ label_string label.now) }
{
    let mut string = Vec::new(alloc);
    string.push(7)?;
    string.extend_from_slice(label.bytes())?;
    Ok(Bytes::from_vec(string)?)
}
