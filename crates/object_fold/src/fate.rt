// What actions come to, by lengths alone.
ghost use Rattle.std.specs.Prelude.{◌≡◌, ◌≤◌, ℕ, List, length, nat_le, if◌then◌else◌, Ok, Err};
ghost use Rattle.object_model.specs.Updates.{act_all, largest, TooLong};
ghost use Rattle.object_fold.specs.Choice.{length_told, length_after, length_after_all, measured};

use guarded_update::Action;
use pond_base::limits::MOST_OBJECT_BYTES;

/// Why an update makes no version.
#[derive(Clone, Copy, Debug, PartialEq, Eq)]
pub(crate) enum Refused {
    NoClause,
    OutOfRange,
    TooLong,
}

/// The length that actions leave of a version of so many bytes, or why the first that fails does.
pub(crate) fn fate(count: usize, actions: &[Action]) -> Result<usize, Refused>
    requires { count ≤ 1048576 }
    ensures { (bytes : List ℕ) → length bytes ≡ count → measured (act_all actions.now bytes) ≡ length_told result }
{
    after_all(count, actions)
}

// The length that actions leave, one after the other.
fn after_all(count: usize, actions: &[Action]) -> Result<usize, Refused>
    requires { count ≤ 1048576 }
    ensures { length_told result ≡ length_after_all actions.now count }
{
    let mut count = count;
    for action in actions {
        count = after_one(count, action)?;
    }
    Ok(count)
}

// The length that an action leaves.
fn after_one(count: usize, action: &Action) -> Result<usize, Refused>
    requires { count ≤ 1048576 }
    ensures { length_told result ≡ length_after action.now count }
{
    match action {
        Action::Replace { offset, content } => {
            if *offset as usize + content.len() <= count {
                Ok(count)
            } else {
                Err(Refused::OutOfRange)
            }
        }
        Action::Append { content } => up_to_most(count + content.len()),
        Action::Truncate { length: kept } => {
            if *kept as usize <= count {
                Ok(*kept as usize)
            } else {
                Err(Refused::OutOfRange)
            }
        }
        Action::Splice {
            offset,
            remove,
            content,
        } => {
            if *offset as usize + *remove as usize <= count {
                up_to_most(count - *remove as usize + content.len())
            } else {
                Err(Refused::OutOfRange)
            }
        }
    }
}

// A length that a version may have.
fn up_to_most(count: usize) -> Result<usize, Refused>
    ensures { length_told result ≡ (if nat_le count largest then Ok count else Err TooLong) }
{
    if count <= MOST_OBJECT_BYTES {
        Ok(count)
    } else {
        Err(Refused::TooLong)
    }
}
