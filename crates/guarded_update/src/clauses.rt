// The spelling of clauses.
use crate::spelled::{Spelled, read_items, write_items};
use crate::{Clause, RequestFault};
use pond_base::{Fields, OutOfMemory};
use std::alloc::Global;

impl Spelled for Clause {
    ghost use Rattle.guarded_update.specs.Spelling.{clause_string};
    ghost use Rattle.guarded_update.specs.Fitting.{IsClause, clause_is_short};

    ghost spelling = { clause_string };

    ghost allowed = { IsClause };

    ghost writable = { clause_is_short };

    fn read(alloc: Global, fields: &mut Fields) -> Result<Clause, RequestFault> {
        let count = fields.take_u8()?;
        let guards = read_items(alloc, fields, count)?;
        let count = fields.take_u8()?;
        let actions = read_items(alloc, fields, count)?;
        Ok(Clause { guards, actions })
    }

    fn write(&self, out: &mut Vec<u8>) -> Result<(), OutOfMemory> {
        let guards = self.guards.as_slice();
        let actions = self.actions.as_slice();
        out.push(guards.len() as u8)?;
        write_items(guards, out)?;
        out.push(actions.len() as u8)?;
        write_items(actions, out)
    }
}
