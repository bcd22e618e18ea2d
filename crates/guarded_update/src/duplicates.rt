// Equal copies.
use crate::{Action, Clause, Guard, Request, Update};
use pond_base::{Duplicate, OutOfMemory};

impl Duplicate for Guard {
    fn duplicate(&self) -> Result<Guard, OutOfMemory> {
        Ok(*self)
    }
}

impl Duplicate for Action {
    fn duplicate(&self) -> Result<Action, OutOfMemory> {
        match self {
            Action::Replace { offset, content } => Ok(Action::Replace {
                offset: *offset,
                content: content.clone()?,
            }),
            Action::Append { content } => Ok(Action::Append {
                content: content.clone()?,
            }),
            Action::Truncate { length } => Ok(Action::Truncate { length: *length }),
            Action::Splice {
                offset,
                remove,
                content,
            } => Ok(Action::Splice {
                offset: *offset,
                remove: *remove,
                content: content.clone()?,
            }),
        }
    }
}

impl Duplicate for Clause {
    fn duplicate(&self) -> Result<Clause, OutOfMemory> {
        Ok(Clause {
            guards: self.guards.duplicate()?,
            actions: self.actions.duplicate()?,
        })
    }
}

impl Duplicate for Update {
    fn duplicate(&self) -> Result<Update, OutOfMemory> {
        Ok(Update {
            clauses: self.clauses.duplicate()?,
        })
    }
}

impl Duplicate for Request {
    fn duplicate(&self) -> Result<Request, OutOfMemory> {
        Ok(Request {
            client: self.client,
            number: self.number,
            label: self.label,
            update: self.update.duplicate()?,
        })
    }
}
