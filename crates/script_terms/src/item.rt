// What a line says.
use crate::{Declaration, Line};

/// What a line that is not skipped says.
#[derive(Debug, Drop)]
pub enum Item {
    Declared(Declaration),
    Event(Line),
}

/// An item with the number of its line, counted from 1.
#[derive(Debug, Drop)]
pub struct Placed {
    pub line: u32,
    pub item: Item,
}
