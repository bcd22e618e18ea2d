// What lines change outside the ring.
ghost use Rattle.std.specs.Prelude.{◌≡◌, ◌++◌, ◌∷◌, [], not, filter, OnOk, OnErr, IfOk};
ghost use Rattle.script_terms.specs.declared.line.Line.TheVariants.{Cut, Mend};
ghost use Rattle.script_terms.specs.declared.line.Spot.{Spot};
ghost use Rattle.text_model.specs.Outside as model;

use pond_base::{Items, OutOfMemory};
use script_terms::{Line, Spot};
use std::alloc::Global;
use std::marker::Model;

/// The places that are cut, each once.
#[derive(Drop)]
pub(crate) struct Outside {
    alloc: Global,
    cut: Items<Spot>,
}

impl Model for Outside {
    ghost use Rattle.std.specs.Prelude.{List};
    ghost use Rattle.script_terms.specs.declared.line.Spot.{Spot};

    ghost Value = { List Spot };

    ghost view = { λ o. o.cut };
}

impl Outside {
    /// Nothing is cut. Takes no memory.
    pub(crate) fn new(alloc: Global) -> Outside
        ensures { result ≡ [] }
    {
        Outside {
            alloc,
            cut: Items::new(alloc),
        }
    }

    /// Does what a line does outside the ring; where memory runs out, nothing.
    pub(crate) fn change(&mut self, line: &Line) -> Result<(), OutOfMemory>
        ensures ok { OnOk result (self.new ≡ model.cut_by self.old line.now) }
        ensures err { OnErr result (self.new ≡ self.old) }
    {
        match line {
            Line::Cut { spot } => self.cut_off(*spot),
            Line::Mend { spot } => self.mended(*spot),
            _ => Ok(()),
        }
    }

    fn cut_off(&mut self, spot: Spot) -> Result<(), OutOfMemory>
        ensures ok { OnOk result (self.new ≡ model.cut_by self.old (Cut spot)) }
        ensures err { OnErr result (self.new ≡ self.old) }
    {
        if self.is_cut(spot) {
            return Ok(());
        }
        self.cut.push(spot)
    }

    fn mended(&mut self, spot: Spot) -> Result<(), OutOfMemory>
        ensures ok { OnOk result (self.new ≡ model.cut_by self.old (Mend spot)) }
        ensures err { OnErr result (self.new ≡ self.old) }
    {
        self.cut = without(self.alloc, self.cut.as_slice(), spot)?;
        Ok(())
    }

    fn is_cut(&self, spot: Spot) -> bool
        ensures { result ≡ model.is_cut self.now spot }
    {
        self.cut
            .as_slice()
            .iter()
            .any(|other| is_same(spot, *other))
    }
}

// All places but one.
fn without(alloc: Global, spots: &[Spot], spot: Spot) -> Result<Items<Spot>, OutOfMemory>
    ensures { IfOk result (λ left. left ≡ filter (λ (other : Spot). not (model.same_spot spot other)) spots.now) }
{
    let mut left = Items::new(alloc);
    for other in spots {
        if !is_same(spot, *other) {
            left.push(*other)?;
        }
    }
    Ok(left)
}

fn is_same(one: Spot, other: Spot) -> bool
    ensures { result ≡ model.same_spot one other }
{
    match (one, other) {
        (Spot::Member(one), Spot::Member(other)) => one.0 == other.0,
    }
}
