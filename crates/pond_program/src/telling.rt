// The line on standard error.
use crate::status::Status;
use std::io;

/// Prints the line of a status on standard error, and nothing for a status that has none.
pub fn tell(rt: &impl Eprint, status: Status) -> io::Result<()> {
    if status.has_line() {
        return rt.eprintln(status);
    }
    Ok(())
}
