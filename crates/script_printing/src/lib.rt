//! What the lines of a script print, of values: the version of an object that is a client's heart, the
//! shape of a version, what a member executed, what a client believes, and the last deliveries.
//!
//! It stands on `object_fold`, `pond_node` and `client_core` for the values, and on the texts of
//! `text_model`, which its contracts cite. The layer above uses that each function prints just the text
//! of the model, whatever requests its objects or its node stand for, whatever letters its client stands
//! for, and whatever places were delivered. Nothing here changes a value; the only error is want of
//! memory.
#![tactic(auto)]

mod clients;
mod deliveries;
mod members;
mod outcomes;
mod reads;
mod shapes;

pub use clients::client_text;
pub use deliveries::recent_text;
pub use members::{faulty_text, member_text};
pub use reads::read_text;
pub use shapes::shape_text;
