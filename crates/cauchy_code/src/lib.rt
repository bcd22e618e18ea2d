//! The Cauchy code: a block is cut into `m` parts, and any `m` of its `n` rows give it back. In the
//! systematic code the first `m` rows are the parts themselves.
//!
//! Each other row is a sum of the parts, each part times a factor of the field of 256 elements. This
//! layer stands on the field and on its row sums. A block is rebuilt by a table that is made by
//! elimination, one row and one column at a time; one kernel makes rows and parts. The layers above
//! use the clause of `rebuild`: whatever block the parts are rows of is the result. It has no premise
//! on hashing.
#![tactic(auto)]

mod code;
mod combine;
mod inverses;
mod mixed;
mod order;
mod products;
mod table;

pub use code::Code;
pub use inverses::Inverses;
