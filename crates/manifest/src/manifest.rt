// Manifests, and what stands in front of their entries.
use pond_base::{Items, Name, Version};

/// A string that a version lists: its name, its length in bytes, and the names of its fragments, that
/// of fragment 0 first.
#[derive(Debug, Drop)]
pub struct Entry {
    pub name: Name,
    pub length: u32,
    pub fragments: Items<Name>,
}

/// The strings that a version of an object has first, each cut into `m` parts and coded as `n`
/// fragments. In the systematic code the first `m` fragments are the parts themselves.
#[derive(Debug, Drop)]
pub struct Manifest {
    pub systematic: bool,
    pub m: u8,
    pub n: u8,
    pub version: Version,
    pub object: Name,
    pub entries: Items<Entry>,
}

/// What stands in front of the entries, and how many entries there are.
#[derive(Clone, Copy, Debug)]
pub(crate) struct Head {
    pub systematic: bool,
    pub m: u8,
    pub n: u8,
    pub version: Version,
    pub object: Name,
    pub count: u32,
}
