//! The base of every other crate: names, numbers of parties and versions, labels, the reading of
//! fixed fields, lists that contracts see as lists, and the outside.
//!
//! It stands on the standard library alone. Types that contracts compare have a model without
//! pointers: a name is its 20 bytes, a label its text, an [`Items`] the list of its items.
//! The outside is a [`Source`] of bytes and a [`Sink`] of bytes, each with a count of its faults.
//! The layers above use these clauses: a reader of fields fails exactly where bytes are wanting, and
//! a call to the outside fails only where its count of faults rose.
#![tactic(auto)]

mod clean;
mod duplicate;
mod fields;
mod items;
mod label;
pub mod limits;
mod memory_sink;
mod memory_source;
mod name;
mod numbers;
mod out_of_memory;
mod outside;
mod reading;
mod writing;

pub use clean::{CleanSink, CleanSource};
pub use duplicate::Duplicate;
pub use fields::{Fields, Short};
pub use items::Items;
pub use label::{BadLabel, Label};
pub use memory_sink::MemorySink;
pub use memory_source::MemorySource;
pub use name::Name;
pub use numbers::{ClientId, MemberId, Party, Seq, Version};
pub use out_of_memory::OutOfMemory;
pub use outside::{Failed, Sink, Source};
pub use reading::{Unread, read_whole};
pub use writing::write_whole;
