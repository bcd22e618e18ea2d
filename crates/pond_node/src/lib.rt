//! A correct member of the ring with its objects, as a pure state machine: bytes from a party in, bytes
//! for parties out.
//!
//! It stands on `ring_member`, which orders and votes, and on `object_fold`, which executes. A [`Node`]
//! executes each slot that its member newly executes, tells the client of the request its outcome, and
//! tells every client a version that was made. The layer above uses the relation `NodeStands` between a
//! node and a ring, the strings that executions name, a member's number and a list of letters. It is one
//! instance of the trait of `ring_node`, over which the world is proved and whose contract of `take` it
//! meets: whatever list a node stood for, after `take` it stands for that list and one letter more, and
//! it answers all that the model of agreement has a correct member send.
#![tactic(auto)]

mod answering;
mod execution;
mod looking;
mod node;
mod serving;
mod taking;

pub use node::Node;
