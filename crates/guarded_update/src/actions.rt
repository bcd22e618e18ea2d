// The spelling of actions.
ghost use Rattle.std.specs.Prelude.{◌≡◌, ◌<◌, ◌^◌, ◌∷◌, ◌++◌, List, ℕ, length, IfOk, OnOk};
ghost use Rattle.guarded_update.specs.declared.update.Action.{Action};
ghost use Rattle.guarded_update.specs.declared.update.Action.TheVariants.{Replace, Append, Truncate, Splice};
ghost use Rattle.guarded_update.specs.Reads.{Gets};
ghost use Rattle.guarded_update.specs.Fitting.{IsAction};
ghost use Rattle.guarded_update.specs.Spelling.{number, counted, action_string};

use crate::contents::{read_content, write_content};
use crate::spelled::Spelled;
use crate::{Action, RequestFault};
use pond_base::{Fields, OutOfMemory};
use std::alloc::Global;

impl Spelled for Action {
    ghost use Rattle.guarded_update.specs.Spelling.{action_string};
    ghost use Rattle.guarded_update.specs.Fitting.{IsAction, action_is_short};

    ghost spelling = { action_string };

    ghost allowed = { IsAction };

    ghost writable = { action_is_short };

    fn read(alloc: Global, fields: &mut Fields) -> Result<Action, RequestFault> {
        match fields.take_u8()? {
            1 => read_replace(alloc, fields),
            2 => read_append(alloc, fields),
            3 => read_truncate(fields),
            4 => read_splice(alloc, fields),
            _ => Err(RequestFault::BadRequest),
        }
    }

    fn write(&self, out: &mut Vec<u8>) -> Result<(), OutOfMemory> {
        match self {
            Action::Replace { offset, content } => {
                out.push(1)?;
                out.extend_from_slice(&offset.to_be_bytes())?;
                write_content(content, out)
            }
            Action::Append { content } => {
                out.push(2)?;
                write_content(content, out)
            }
            Action::Truncate { length } => {
                out.push(3)?;
                out.extend_from_slice(&length.to_be_bytes())?;
                Ok(())
            }
            Action::Splice {
                offset,
                remove,
                content,
            } => {
                out.push(4)?;
                write_numbers(*offset, *remove, out)?;
                write_content(content, out)
            }
        }
    }
}

// Reads the fields of a replace.
fn read_replace(alloc: Global, fields: &mut Fields) -> Result<Action, RequestFault>
    ensures read { IfOk result (λ action. (1 ∷ fields.old ≡ action_string action ++ fields.new) × IsAction action) }
    ensures spelled { (offset : ℕ) (content rest : List ℕ) → offset < 2 ^ 32 → length content < 2 ^ 32 → fields.old ≡ number offset ++ counted content ++ rest
        → Gets result fields.new (Replace offset content) rest }
{
    let offset = fields.take_u32()?;
    let content = read_content(alloc, fields)?;
    Ok(Action::Replace { offset, content })
}

// Reads the fields of an append.
fn read_append(alloc: Global, fields: &mut Fields) -> Result<Action, RequestFault>
    ensures read { IfOk result (λ action. (2 ∷ fields.old ≡ action_string action ++ fields.new) × IsAction action) }
    ensures spelled { (content rest : List ℕ) → length content < 2 ^ 32 → fields.old ≡ counted content ++ rest → Gets result fields.new (Append content) rest }
{
    let content = read_content(alloc, fields)?;
    Ok(Action::Append { content })
}

// Reads the field of a truncate.
fn read_truncate(fields: &mut Fields) -> Result<Action, RequestFault>
    ensures read { IfOk result (λ action. (3 ∷ fields.old ≡ action_string action ++ fields.new) × IsAction action) }
    ensures spelled { (kept : ℕ) (rest : List ℕ) → kept < 2 ^ 32 → fields.old ≡ number kept ++ rest → Gets result fields.new (Truncate kept) rest }
{
    let length = fields.take_u32()?;
    Ok(Action::Truncate { length })
}

// Reads the fields of a splice.
fn read_splice(alloc: Global, fields: &mut Fields) -> Result<Action, RequestFault>
    ensures read { IfOk result (λ action. (4 ∷ fields.old ≡ action_string action ++ fields.new) × IsAction action) }
    ensures spelled { (offset remove : ℕ) (content rest : List ℕ) → offset < 2 ^ 32 → remove < 2 ^ 32 → length content < 2 ^ 32
        → fields.old ≡ number offset ++ number remove ++ counted content ++ rest → Gets result fields.new (Splice offset remove content) rest }
{
    let offset = fields.take_u32()?;
    let remove = fields.take_u32()?;
    let content = read_content(alloc, fields)?;
    Ok(Action::Splice {
        offset,
        remove,
        content,
    })
}

// Adds two numbers.
fn write_numbers(first: u32, second: u32, out: &mut Vec<u8>) -> Result<(), OutOfMemory>
    ensures { OnOk result (out.new.items ≡ out.old.items ++ number first ++ number second) }
{
    out.extend_from_slice(&first.to_be_bytes())?;
    out.extend_from_slice(&second.to_be_bytes())?;
    Ok(())
}
