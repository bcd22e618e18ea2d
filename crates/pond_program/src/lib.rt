//! The program: the top call with its table of statuses, its edge to the system, and what it tells
//! beside the text.
//!
//! [`pond`] is the call that is proved, over any source and sink: what each status says of the words,
//! the source and the sink, and which status comes where. [`wanted`] reads the words into a [`Task`]
//! first, and the table of statuses goes by task. [`InputSource`] and [`OutputSink`] are the
//! edge: they tell the bytes that a reader has left and a writer has taken, as far as these tell them.
//! [`run_words`] joins them to the words, the standard input and the standard output of a runtime, and
//! [`tell`] prints the line of a status. What `main` adds is the exit status.
#![tactic(auto)]

mod edge;
mod running;
mod status;
mod task;
mod telling;
mod top;

pub use edge::{InputSource, OutputSink};
pub use running::run_words;
pub use status::Status;
pub use task::{Task, wanted};
pub use telling::tell;
pub use top::pond;
