// The same list and map behind a lock.
use pond_base::{Label, OutOfMemory};
use std::alloc::Global;
use std::collections::BTreeMap;
use version_board::BoardEntry;

/// Entries, and under each label the place of its last one.
#[derive(Drop)]
pub struct Entries {
    entries: Vec<BoardEntry>,
    places: BTreeMap<Label, usize>,
}

impl Entries {
    pub fn new(alloc: Global) -> Entries {
        Entries {
            entries: Vec::new(alloc),
            places: BTreeMap::new(alloc),
        }
    }

    pub fn push(&mut self, entry: BoardEntry) -> Result<(), OutOfMemory> {
        self.places.insert(entry.label, self.entries.len())?;
        self.entries.push(entry)?;
        Ok(())
    }

    /// The bytes of the last entry of a label.
    pub fn read(&self, label: &Label) -> Option<Vec<u8>> {
        let at = *self.places.get(label)?;
        self.entries.get(at)?.tree.bytes().ok()
    }
}
