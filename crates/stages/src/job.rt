// A job of the archive, and what comes of it.
ghost use Rattle.std.specs.Prelude.{◌≡◌, map};
ghost use Rattle.stages.specs.Rows.{rows_of};

use bytes::Bytes;
use cauchy_code::Code;
use pond_base::{Items, Label, Version};

/// A version whose new strings are to be coded.
#[derive(Drop)]
pub struct ArchiveJob {
    /// The place of the version among all that were made, counted from 1.
    pub place: u32,
    pub label: Label,
    pub version: Version,
    /// The strings that are new in the version, in order.
    pub strings: Items<Bytes>,
}

/// A version whose new strings are coded: beside each string all its rows, in the order of their
/// indexes.
#[derive(Drop)]
pub struct ArchiveDone {
    /// The place of the version among all that were made, counted from 1.
    pub place: u32,
    pub label: Label,
    pub version: Version,
    pub code: Code,
    /// The strings that are new in the version, in order.
    pub strings: Items<Bytes>,
    /// The rows of each of the strings.
    pub rows: Items<Items<Bytes>>,
    ghost coded: { rows ≡ map (rows_of code) strings },
}
