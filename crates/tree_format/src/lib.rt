//! The strings of which versions of objects are made: leaf, inner and root strings, and the string that
//! an object has its name from.
//!
//! It stands on pond_base. Each kind of string is a definition by one function from values to bytes,
//! and which values have a string is another one. A reader gives the value whose string the bytes are,
//! and [`Malformed`] exactly where there is none; a writer gives the string of a value. The layers above
//! use both ways: what is read is in the grammar, and a string in the grammar is read as its one value.
#![tactic(auto)]

mod cells;
mod inner;
mod label;
mod leaf;
mod malformed;
mod root;

pub use inner::{Inner, read_inner, write_inner};
pub use label::write_label;
pub use leaf::{read_leaf, write_leaf};
pub use malformed::Malformed;
pub use root::{Root, is_root, read_root, write_root};
