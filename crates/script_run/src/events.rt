// Lines that are events of the world.
ghost use Rattle.std.specs.Prelude.{◌≡◌, ◌≢◌, ◌+◌, ◌<◌, length, reverse, Contains, IfOk, IfErr};
ghost use Rattle.block_names.specs.Faults.{step_fault};
ghost use Rattle.block_names.specs.Growth.{Grew};
ghost use Rattle.block_names.specs.declared.fault.StepFault.TheVariants.{Ended};
ghost use Rattle.pond_node.specs.Standing.{NodeStands};
ghost use Rattle.pond_world.specs.Sites.{IsClashAfter};
ghost use Rattle.ring_world.specs.Worlds.{WorldStands, strings_of};
ghost use Rattle.ring_world.specs.Skipping.{skips};
ghost use Rattle.script_laws.specs.Limits.{IsWithin};
ghost use Rattle.script_requests.specs.Holding.{HoldsAll, IsClashOf};
ghost use Rattle.script_terms.specs.declared.line.Line.TheVariants.{Deliver, Resubmit, Settle};
ghost use Rattle.text_model.specs.Events.{ring_for, world_of, events_of};
ghost use Rattle.text_model.specs.Named.{named, committed_strings};
ghost use Rattle.text_model.specs.Requests.{Numbered};
ghost use Rattle.script_terms.specs.declared.script.Script.{Script};
ghost use Rattle.std.specs.Prelude.{List, ℕ};
ghost use Rattle.script_run.specs.Labels.{AreLabels};
ghost use Rattle.script_run.specs.States.{StandsFor, StandsNext, IsTurn, IsComing, IsQuiet, lines_before};

use crate::labels::Labels;
use crate::state::State;
use block_names::{Hash160, NameFault, StepFault};
use fold_model::ring_folds;
use pond_base::{ClientId, Party};
use pond_world::{Site, events_may_come};
use ring_world::Event;
use script_laws::{
    deliveries_are_named, events_come_of_lines, lines_fit_in_turn, settled_joins,
    settles_are_named, setups_join, skips_join, submits_are_requests,
};
use script_terms::{Line, Script};
use std::thread::Threads;

impl<H: Hash160 + Drop> State<H> {
    /// The ring after the line at a place, where that is one of it or changes what is passed over.
    pub(crate) fn after<R: Threads>(
        self,
        rt: &R,
        labels: &Labels,
        script: &Script,
        at: usize,
    ) -> Result<State<H>, NameFault>
        requires within { IsWithin script.now }
        requires labels { AreLabels H.naming labels.now.entries (reverse script.now.lines) }
        requires here { at < length script.now.lines }
        requires stands { StandsFor H.naming script.now (lines_before script.now at) self.site (skips self.site.world) }
        ensures stands { IfOk result (λ state. StandsNext H.naming script.now at state.site (skips state.site.world)) }
        ensures fault { IfErr result (IsClashOf H.naming (named H.naming script.now (lines_before script.now (at + 1)))) }
    {
        let (_, line) = &script.lines.as_slice()[at];
        match line {
            Line::Submit {
                client,
                label,
                clauses,
            } => self.submitted(rt, script, at, *client, *label, clauses.as_slice()),
            Line::Resubmit { client, number } => self.resubmitted(rt, script, at, *client, *number),
            Line::Deliver { from, to, place } => self.delivered(rt, script, at, *from, *to, *place),
            Line::Lose { from, to, place } => Ok(self.lost(script, at, *from, *to, *place)?),
            Line::Settle => self.settled(rt, script, at),
            Line::Mute { party } => Ok(self.muted(script, at, *party)?),
            Line::Unmute { party } => Ok(self.unmuted(script, at, *party)?),
            Line::ForgeOrder {
                member,
                to,
                seq,
                client,
                number,
            } => self.forged_order(rt, script, at, *member, *to, *seq, *client, *number),
            Line::ForgePrepare {
                member,
                to,
                seq,
                client,
                number,
            } => self.forged_prepare(rt, script, at, *member, *to, *seq, *client, *number),
            Line::ForgeCommit {
                member,
                to,
                seq,
                client,
                number,
            } => self.forged_commit(rt, script, at, *member, *to, *seq, *client, *number),
            Line::ForgeHeart {
                member,
                to,
                label,
                version,
                name,
            } => self.forged_heart(rt, labels, script, at, *member, *to, label, *version, *name),
            Line::ForgeRaw { member, to, bytes } => self.forged_raw(
                rt, script, at, *member, *to, bytes,
            ),
            _ => Ok(self),
        }
    }

    // The client sends its request of a number again.
    fn resubmitted<R: Threads>(
        self,
        rt: &R,
        script: &Script,
        at: usize,
        client: ClientId,
        number: u32,
    ) -> Result<State<H>, NameFault>
        requires { IsTurn H.naming script.now at (Resubmit client number) self.site (skips self.site.world) }
        ensures stands { IfOk result (λ state. StandsNext H.naming script.now at state.site (skips state.site.world)) }
        ensures fault { IfErr result (IsClashOf H.naming (named H.naming script.now (lines_before script.now (at + 1)))) }
    {
        self.sent(rt, script, at, Event::Resubmit { client, number })
    }

    // An event that sends messages and names nothing.
    pub(crate) fn sent<R: Threads>(
        self,
        rt: &R,
        script: &Script,
        at: usize,
        event: Event,
    ) -> Result<State<H>, NameFault>
        requires coming { IsComing H.naming script.now at event self.site (skips self.site.world) }
        requires quiet { IsQuiet event }
        ensures stands { IfOk result (λ state. StandsNext H.naming script.now at state.site (skips state.site.world)) }
        ensures fault { IfErr result (IsClashOf H.naming (named H.naming script.now (lines_before script.now (at + 1)))) }
    {
        let state = self.advanced(rt, script, at, event)?;
        Ok(state)
    }

    // The message at a place is delivered.
    fn delivered<R: Threads>(
        self,
        rt: &R,
        script: &Script,
        at: usize,
        from: Party,
        to: Party,
        place: u32,
    ) -> Result<State<H>, NameFault>
        requires { IsTurn H.naming script.now at (Deliver from to place) self.site (skips self.site.world) }
        ensures stands { IfOk result (λ state. StandsNext H.naming script.now at state.site (skips state.site.world)) }
        ensures fault { IfErr result (IsClashOf H.naming (named H.naming script.now (lines_before script.now (at + 1)))) }
    {
        lines_fit_in_turn();
        setups_join();
        submits_are_requests();
        events_come_of_lines();
        events_may_come();
        deliveries_are_named();
        self.site.world().submits_apart(self.site.book());
        let state = self.advanced(rt, script, at, Event::Deliver { from, to, place })?;
        holds_committed(&state.site, script);
        Ok(state)
    }

    // All that is pending and not passed over is delivered.
    fn settled<R: Threads>(self, rt: &R, script: &Script, at: usize) -> Result<State<H>, NameFault>
        requires { IsTurn H.naming script.now at Settle self.site (skips self.site.world) }
        ensures stands { IfOk result (λ state. StandsNext H.naming script.now at state.site (skips state.site.world)) }
        ensures fault { IfErr result (IsClashOf H.naming (named H.naming script.now (lines_before script.now (at + 1)))) }
    {
        setups_join();
        submits_are_requests();
        skips_join();
        settled_joins();
        settles_are_named();
        self.site.world().submits_apart(self.site.book());
        let mut state = self;
        match state.site.settle(rt) {
            Ok(_) => {
                holds_committed(&state.site, script);
                Ok(state)
            }
            Err(fault) => Err(cause_of(fault)),
        }
    }

    // The world after an event.
    fn advanced<R: Threads>(
        self,
        rt: &R,
        script: &Script,
        at: usize,
        event: Event,
    ) -> Result<State<H>, NameFault>
        requires { IsComing H.naming script.now at event self.site (skips self.site.world) }
        ensures stands { IfOk result (λ state. WorldStands NodeStands (ring_for H.naming script.now) state.site.world (events_of H.naming script.now (lines_before script.now (at + 1)))) }
        ensures skips { IfOk result (λ state. skips state.site.world ≡ skips self.site.world) }
        ensures grew { IfOk result (λ state. Grew H.naming self.site.held
            (Contains (strings_of (ring_for H.naming script.now) (world_of H.naming script.now (lines_before script.now at)) event)) state.site.held) }
        ensures fault { IfErr result (IsClashAfter H.naming self.site.held
            (Contains (strings_of (ring_for H.naming script.now) (world_of H.naming script.now (lines_before script.now at)) event))) }
    {
        events_come_of_lines();
        events_may_come();
        setups_join();
        lines_fit_in_turn();
        let mut state = self;
        state.site.world().may_step(&event);
        match state.site.step(rt, event) {
            Ok(_) => Ok(state),
            Err(fault) => Err(cause_of(fault)),
        }
    }
}

// Why a line's strings are not named, where the world had not ended before.
pub(crate) fn cause_of(fault: StepFault) -> NameFault
    requires { fault ≢ Ended }
    ensures { fault ≡ step_fault result }
{
    match fault {
        StepFault::Clash { old, new } => NameFault::Clash { old, new },
        StepFault::Ended => unreachable!(),
        StepFault::Memory => NameFault::Memory,
    }
}

// All strings of the versions that the committed list makes are held. Does nothing but look.
fn holds_committed<H: Hash160 + Drop>(site: &Site<H>, script: &Script)
    ensures { (lines : List Numbered) → WorldStands NodeStands (ring_for H.naming script.now) site.now.world (events_of H.naming script.now lines)
        → IsWithin script.now → HoldsAll H.naming site.now.held (committed_strings H.naming script.now lines) }
{
    ring_folds();
    let _objects = site.world().committed().objects();
}
