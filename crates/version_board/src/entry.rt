// One version on the board.
use cow_tree::Tree;
use pond_base::{Duplicate, Label, OutOfMemory, Version};
use std::marker::Model;

/// A version to be published, as its tree. Contracts see its label, its number and the bytes of the
/// tree.
#[derive(Drop)]
pub struct BoardEntry {
    pub label: Label,
    pub version: Version,
    pub tree: Tree,
}

impl Model for BoardEntry {
    ghost use Rattle.cow_tree.specs.Versions.{content_of};
    ghost use Rattle.board_model.specs.Boards.{Entry};

    ghost Value = { Entry };

    ghost view = { λ entry. record { label = entry.label; version = entry.version.0; bytes = content_of entry.tree } };
}

impl Duplicate for BoardEntry {
    fn duplicate(&self) -> Result<BoardEntry, OutOfMemory> {
        let tree = self.tree.share()?;
        Ok(BoardEntry {
            label: self.label,
            version: self.version,
            tree,
        })
    }
}
