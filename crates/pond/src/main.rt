//! Pond: runs a script of updates and reads from standard input, and writes what the reads give.
//!
//! `pond_program` has the call that is proved; here its status becomes the exit status and the line on
//! standard error.
#![tactic(auto)]

use pond_program::{run_words, tell};
use std::process::ExitCode;

fn main(rt: HostRuntime) -> ExitCode {
    let status = run_words(&rt);
    let exit = status.exit();
    // Where standard error takes no line, the exit status says the same.
    let _ = tell(&rt, status);
    ExitCode::from(exit)
}
