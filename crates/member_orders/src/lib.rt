//! The primary's orders: requests, as they become next of their clients.
//!
//! It stands on the model of agreement, which recounts all letters of the primary, and on the messages.
//! [`Orders`] keeps, for each client, the first request of each number that is not ordered, and how many
//! are. The layer above uses the relation `Stands` between a ring, what is kept and a list of letters:
//! after [`Orders::take`] what is kept stands for the letters and the request that came, and the answer
//! is the PrePrepares that the model's orders grew by. Letters that are no requests from their clients
//! change nothing.
#![tactic(auto)]

mod orders;

pub use orders::Orders;
