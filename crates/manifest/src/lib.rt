//! Manifests: which strings a version of an object has first, with the names of their fragments.
//!
//! It stands on `pond_base` alone. A [`Manifest`] has one spelling, in the first form where its code is
//! plain and in the second where it is systematic. [`read`] gives the manifest that a string spells as a
//! whole, which is defined by a function from strings to manifests, and [`write`] gives the spelling of
//! a manifest. The layers above use that function, by which they say what a string that calls itself a
//! manifest lists, and the two laws, functions without code: what is written is read again, and what is
//! read is written by the same bytes. [`find`] looks an entry up by its name.
#![tactic(auto)]

mod fault;
mod finding;
mod laws;
mod manifest;
mod reading;
mod writing;

pub use finding::find;
pub use laws::{read_then_written, written_then_read};
pub use manifest::{Entry, Manifest};
pub use reading::read;
pub use writing::write;
