//! A board of versions: one thread publishes them, and others read them without waiting for it.
//!
//! It stands on the two copies of `left_right`, of which readers take one while the writer changes the
//! other, under the rule of `board_model`, and on the history of `logbook`, by which two published lists
//! are known to be beginnings of one. A [`BoardWriter`] stands for two lists, the published one and the
//! pending one. A [`BoardReader`] sees one list at a time, which begins with each that it has seen and
//! with each of which it was told by a [`BoardNote`]; its answer is the last entry of a label in that
//! list. The layer above uses that a list which is seen after a note was learnt begins with all that
//! was published when the note was told. Reading takes no lock and waits for nobody: `read` is given no
//! handle under which it could. What is taken on trust of reading stands in [`door`].
#![tactic(auto)]

mod board;
mod change;
pub mod door;
mod entry;
mod front;
mod history;
mod note;
mod opening;
mod pen;
mod read;
mod reader;
mod rule;
mod writer;

pub use entry::BoardEntry;
pub use note::BoardNote;
pub use opening::open_board;
pub use read::{BoardFault, BoardRead};
pub use reader::BoardReader;
pub use writer::BoardWriter;
