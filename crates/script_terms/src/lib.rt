//! What the lines of a script say, as values.
//!
//! It stands on pond_base and on the types of guarded_update. A line of a script that is not skipped
//! says an [`Item`]: a [`Declaration`] or an event, which is a [`Line`]. A [`Script`] is what all lines
//! of a text say together. A text that is none is refused at a line with one [`Cause`]. The layers above
//! define over these types which texts are scripts, and read them.
#![tactic(auto)]

mod cause;
mod declaration;
mod fault;
mod item;
mod line;
mod script;
mod verb;

pub use cause::Cause;
pub use declaration::Declaration;
pub use fault::{LineFault, refused};
pub use item::{Item, Placed};
pub use line::{Line, LineClause, LineGuard, Spot};
pub use script::Script;
pub use verb::Verb;
