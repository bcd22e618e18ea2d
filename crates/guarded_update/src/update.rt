// Updates of an object.
use bytes::Bytes;
use pond_base::{Items, Name, Version};

/// A guarded update: the first clause whose guards all hold decides what is done.
#[derive(Debug, Drop)]
pub struct Update {
    pub clauses: Items<Clause>,
}

/// Guards, and the actions that are done one after the other where all of them hold.
#[derive(Debug, Drop)]
pub struct Clause {
    pub guards: Items<Guard>,
    pub actions: Items<Action>,
}

/// What must hold of the last version of an object.
#[derive(Clone, Copy, Debug)]
pub enum Guard {
    /// It has this number.
    VersionIs(Version),
    /// It has so many bytes.
    SizeIs(u32),
    /// It has a leaf at this place, counted from 0, whose leaf string has this name.
    BlockIs { place: u32, name: Name },
}

/// A change of the bytes of a version.
#[derive(Debug, Drop)]
pub enum Action {
    /// Overwrites bytes from an offset on.
    Replace {
        offset: u32,
        content: Bytes,
    },
    /// Adds bytes at the end.
    Append {
        content: Bytes,
    },
    /// Keeps so many bytes from the front.
    Truncate {
        length: u32,
    },
    /// Takes out `remove` bytes at an offset, and puts bytes there.
    Splice {
        offset: u32,
        remove: u32,
        content: Bytes,
    },
}
