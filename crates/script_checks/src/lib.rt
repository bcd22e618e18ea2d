//! What earlier lines declared and sent, and the checks of a line against it.
//!
//! It stands on the definitions of script_grammar. [`Known`] is what the lines before a line declared,
//! and how many of them count; [`Load`] is what their actions load. Neither keeps a line. The layer above
//! uses that each stands for a list of lines, and goes on to stand for it with one line more; that a
//! number which passes [`Known`] has the type of what it names; and that an update which passes
//! [`changing`] and [`in_size`] is in range and size.
#![tactic(auto)]

mod known;
mod load;
mod sizes;

pub use known::{Known, slot};
pub use load::Load;
pub use sizes::{changing, in_size};
