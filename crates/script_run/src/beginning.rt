// The state before the first line.
ghost use Rattle.std.specs.Prelude.{◌≡◌, ◌∷◌, ◌++◌, [], ℕ, List, reverse, IfOk, IfErr, OnOk};
ghost use Rattle.std.specs.List.{flat_map};
ghost use Rattle.std.specs.Ordering.{nat_cmp};
ghost use Rattle.std.specs.Cmp.Lexicographic.{slice_cmp};
ghost use Rattle.std.specs.BTreeMap.{insert_entry};
ghost use Rattle.ring_world.specs.Skipping.{skips};
ghost use Rattle.script_laws.specs.Limits.{IsWithin};
ghost use Rattle.object_model.specs.Trees.{object_name, version_strings};
ghost use Rattle.pond_node.specs.Standing.{NodeStands};
ghost use Rattle.ring_world.specs.Worlds.{WorldStands};
ghost use Rattle.script_requests.specs.Holding.{HoldsAll, HoldsJust, IsClashOf};
ghost use Rattle.text_model.specs.Events.{ring_for};
ghost use Rattle.text_model.specs.Named.{label_strings, start_strings};
ghost use Rattle.text_model.specs.Requests.{Numbered};
ghost use Rattle.tree_format.specs.Strings.{label_string};
ghost use Rattle.script_run.specs.Labels.{AreLabels};
ghost use Rattle.script_run.specs.States.{StandsFor};

use crate::labels::Labels;
use crate::state::State;
use block_names::{Hash160, NameFault};
use fold_model::ring_folds;
use pond_base::Label;
use pond_world::Site;
use script_laws::setups_join;
use script_terms::{Line, Script};
use std::alloc::Global;
use std::collections::BTreeMap;
use tree_format::write_label;

impl<H: Hash160 + Drop> State<H> {
    /// Before the first line: the root string of the empty version is named, and the label strings of
    /// all events. The labels are given too.
    pub(crate) fn new(
        alloc: Global,
        script: &Script,
        hash: H,
    ) -> Result<(State<H>, Labels), NameFault>
        requires { IsWithin script.now }
        ensures stands { IfOk result (λ first. StandsFor H.naming script.now [] first.0.site (skips first.0.site.world)) }
        ensures labels { IfOk result (λ first. AreLabels H.naming first.1.entries (reverse script.now.lines)) }
        ensures fault { IfErr result (IsClashOf H.naming (start_strings H.naming script.now)) }
    {
        setups_join();
        let mut site = Site::open(alloc, hash, &script.setup)?;
        holds_empty(&site, script);
        let labels = name_labels(alloc, &mut site, script.lines.as_slice())?;
        Ok((State { alloc, site }, labels))
    }
}

// The strings of the empty version are held. Does nothing but look.
fn holds_empty<H: Hash160 + Drop>(site: &Site<H>, script: &Script)
    ensures { WorldStands NodeStands (ring_for H.naming script.now) site.now.world [] → IsWithin script.now
        → HoldsAll H.naming site.now.held (version_strings H.naming script.now.setup.block [] []) }
{
    ring_folds();
    let _objects = site.world().committed().objects();
}

// Names the label strings of events, and gives the labels.
fn name_labels<H: Hash160 + Drop>(
    alloc: Global,
    site: &mut Site<H>,
    lines: &[(u32, Line)],
) -> Result<Labels, NameFault>
    ensures world { site.new.world ≡ site.old.world }
    ensures holds { OnOk result ((strings : List (List ℕ)) → HoldsJust H.naming site.old.held strings → HoldsJust H.naming site.new.held (strings ++ flat_map label_strings lines.now)) }
    ensures labels { IfOk result (λ labels. AreLabels H.naming labels.entries (reverse lines.now)) }
    ensures fault { IfErr result (λ fault. (strings : List (List ℕ)) → HoldsJust H.naming site.old.held strings → IsClashOf H.naming (strings ++ flat_map label_strings lines.now) fault) }
{
    let mut labels = BTreeMap::new(alloc);
    for (_, line) in lines {
        name_label_of(alloc, site, &mut labels, line)?;
    }
    Ok(labels)
}

fn name_label_of<H: Hash160 + Drop>(
    alloc: Global,
    site: &mut Site<H>,
    labels: &mut Labels,
    line: &Line,
) -> Result<(), NameFault>
    ensures world { site.new.world ≡ site.old.world }
    ensures holds { OnOk result ((number : ℕ) (strings : List (List ℕ)) → HoldsJust H.naming site.old.held strings → HoldsJust H.naming site.new.held (strings ++ label_strings (number, line.now))) }
    ensures labels { OnOk result ((number : ℕ) (lines : List Numbered) → AreLabels H.naming labels.old.entries lines → AreLabels H.naming labels.new.entries ((number, line.now) ∷ lines)) }
    ensures fault { IfErr result (λ fault. (number : ℕ) (strings : List (List ℕ)) → HoldsJust H.naming site.old.held strings → IsClashOf H.naming (strings ++ label_strings (number, line.now)) fault) }
{
    match line {
        Line::Submit { label, .. } => name_label(alloc, site, labels, label),
        Line::ForgeHeart { label, .. } => name_label(alloc, site, labels, label),
        Line::Read { label, .. } => name_label(alloc, site, labels, label),
        Line::ShowVersion { label, .. } => name_label(alloc, site, labels, label),
        _ => Ok(()),
    }
}

fn name_label<H: Hash160 + Drop>(
    alloc: Global,
    site: &mut Site<H>,
    labels: &mut Labels,
    label: &Label,
) -> Result<(), NameFault>
    ensures world { site.new.world ≡ site.old.world }
    ensures holds { OnOk result ((strings : List (List ℕ)) → HoldsJust H.naming site.old.held strings → HoldsJust H.naming site.new.held (strings ++ label_string label.now ∷ [])) }
    ensures labels { OnOk result (labels.new.entries ≡ insert_entry (slice_cmp nat_cmp) labels.old.entries label.now (object_name H.naming label.now)) }
    ensures fault { IfErr result (λ fault. (strings : List (List ℕ)) → HoldsJust H.naming site.old.held strings → IsClashOf H.naming (strings ++ label_string label.now ∷ []) fault) }
{
    let string = write_label(alloc, label)?;
    let name = site.name(string.as_slice())?;
    let Ok(_) = labels.insert(*label, name) else {
        return Err(NameFault::Memory);
    };
    Ok(())
}
