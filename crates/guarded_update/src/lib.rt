//! Updates of objects and the requests that carry them, as values and as bytes.
//!
//! It stands on pond_base. An [`Update`] is a list of clauses, each with guards that must hold of an
//! object's last version and actions that make the next one. A [`Request`] is a client's numbered
//! update of the object of a label. The spelling of a request is one function from requests to bytes.
//! The layers above use both ways: [`read`] gives the request that the bytes spell and fails on other
//! bytes, [`write`] gives the spelling, and a request has a spelling exactly where it [`fits`].
//! [`Setup`] and [`Place`] are what a run is set up with.
#![tactic(auto)]

mod actions;
mod clauses;
mod contents;
mod duplicates;
mod fitting;
mod guards;
mod reading;
mod request;
mod setup;
mod spelled;
mod update;
mod writing;

pub use fitting::{fits, update_fits};
pub use reading::{RequestFault, read};
pub use request::Request;
pub use setup::{Place, Setup};
pub use update::{Action, Clause, Guard, Update};
pub use writing::write;
