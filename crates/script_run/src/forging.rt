// What faulty members send.
ghost use Rattle.std.specs.Prelude.{◌≡◌, ◌+◌, reverse, IfOk, IfErr};
ghost use Rattle.ring_world.specs.Skipping.{skips};
ghost use Rattle.script_laws.specs.Limits.{HasSent, IsWithin};
ghost use Rattle.script_requests.specs.Holding.{IsClashOf};
ghost use Rattle.script_terms.specs.declared.line.Line.TheVariants.{ForgeOrder, ForgePrepare, ForgeCommit, ForgeHeart, ForgeRaw};
ghost use Rattle.text_model.specs.Events.{ring_for, world_of, asked_string};
ghost use Rattle.text_model.specs.Named.{named};
ghost use Rattle.script_run.specs.Labels.{AreLabels};
ghost use Rattle.script_run.specs.States.{StandsFor, StandsNext, IsTurn, IsForgery, lines_before};

use crate::labels::{Labels, object_of};
use crate::state::State;
use block_names::{Hash160, NameFault};
use bytes::Bytes;
use message_model::messages_are_meant;
use pond_base::{ClientId, Label, MemberId, Name, OutOfMemory, Party, Seq, Version};
use ring_message::{Message, write};
use ring_world::Event;
use script_laws::{asked_is_there, lines_fit_in_turn};
use script_terms::Script;
use std::thread::Threads;

impl<H: Hash160 + Drop> State<H> {
    /// A faulty member sends an order of a client's request for a slot.
    pub(crate) fn forged_order<R: Threads>(
        self,
        rt: &R,
        script: &Script,
        at: usize,
        member: MemberId,
        to: Party,
        seq: Seq,
        client: ClientId,
        number: u32,
    ) -> Result<State<H>, NameFault>
        requires { IsTurn H.naming script.now at (ForgeOrder member to seq client number) self.site (skips self.site.world) }
        ensures stands { IfOk result (λ state. StandsNext H.naming script.now at state.site (skips state.site.world)) }
        ensures fault { IfErr result (IsClashOf H.naming (named H.naming script.now (lines_before script.now (at + 1)))) }
    {
        lines_fit_in_turn();
        asked_is_there();
        let request = self.asked(script, at, client, number)?;
        self.forged(
            rt,
            script,
            at,
            member,
            to,
            &Message::PrePrepare { seq, request },
        )
    }

    /// It sends a prepare of that request's name.
    pub(crate) fn forged_prepare<R: Threads>(
        self,
        rt: &R,
        script: &Script,
        at: usize,
        member: MemberId,
        to: Party,
        seq: Seq,
        client: ClientId,
        number: u32,
    ) -> Result<State<H>, NameFault>
        requires { IsTurn H.naming script.now at (ForgePrepare member to seq client number) self.site (skips self.site.world) }
        ensures stands { IfOk result (λ state. StandsNext H.naming script.now at state.site (skips state.site.world)) }
        ensures fault { IfErr result (IsClashOf H.naming (named H.naming script.now (lines_before script.now (at + 1)))) }
    {
        lines_fit_in_turn();
        let (state, name) = self.asked_name(script, at, client, number)?;
        state.forged(rt, script, at, member, to, &Message::Prepare { seq, name })
    }

    /// It sends a commit of that request's name.
    pub(crate) fn forged_commit<R: Threads>(
        self,
        rt: &R,
        script: &Script,
        at: usize,
        member: MemberId,
        to: Party,
        seq: Seq,
        client: ClientId,
        number: u32,
    ) -> Result<State<H>, NameFault>
        requires { IsTurn H.naming script.now at (ForgeCommit member to seq client number) self.site (skips self.site.world) }
        ensures stands { IfOk result (λ state. StandsNext H.naming script.now at state.site (skips state.site.world)) }
        ensures fault { IfErr result (IsClashOf H.naming (named H.naming script.now (lines_before script.now (at + 1)))) }
    {
        lines_fit_in_turn();
        let (state, name) = self.asked_name(script, at, client, number)?;
        state.forged(rt, script, at, member, to, &Message::Commit { seq, name })
    }

    /// It sends a heart: that a version of a label's object has a root of this name.
    pub(crate) fn forged_heart<R: Threads>(
        self,
        rt: &R,
        labels: &Labels,
        script: &Script,
        at: usize,
        member: MemberId,
        to: Party,
        label: &Label,
        version: Version,
        name: Name,
    ) -> Result<State<H>, NameFault>
        requires turn { IsTurn H.naming script.now at (ForgeHeart member to label.now version name) self.site (skips self.site.world) }
        requires labels { AreLabels H.naming labels.now.entries (reverse script.now.lines) }
        ensures stands { IfOk result (λ state. StandsNext H.naming script.now at state.site (skips state.site.world)) }
        ensures fault { IfErr result (IsClashOf H.naming (named H.naming script.now (lines_before script.now (at + 1)))) }
    {
        lines_fit_in_turn();
        let object = object_of(labels, label);
        self.forged(
            rt,
            script,
            at,
            member,
            to,
            &Message::Heart {
                object,
                version,
                name,
            },
        )
    }

    /// It sends any bytes.
    pub(crate) fn forged_raw<R: Threads>(
        self,
        rt: &R,
        script: &Script,
        at: usize,
        member: MemberId,
        to: Party,
        bytes: &Bytes,
    ) -> Result<State<H>, NameFault>
        requires { IsTurn H.naming script.now at (ForgeRaw member to bytes.now) self.site (skips self.site.world) }
        ensures stands { IfOk result (λ state. StandsNext H.naming script.now at state.site (skips state.site.world)) }
        ensures fault { IfErr result (IsClashOf H.naming (named H.naming script.now (lines_before script.now (at + 1)))) }
    {
        let bytes = bytes.clone()?;
        self.sent(rt, script, at, Event::Forge { member, to, bytes })
    }

    // It sends a message.
    fn forged<R: Threads>(
        self,
        rt: &R,
        script: &Script,
        at: usize,
        member: MemberId,
        to: Party,
        message: &Message,
    ) -> Result<State<H>, NameFault>
        requires { IsForgery H.naming script.now at member to message.now self.site (skips self.site.world) }
        ensures stands { IfOk result (λ state. StandsNext H.naming script.now at state.site (skips state.site.world)) }
        ensures fault { IfErr result (IsClashOf H.naming (named H.naming script.now (lines_before script.now (at + 1)))) }
    {
        messages_are_meant();
        let bytes = write(self.alloc, message)?;
        self.sent(rt, script, at, Event::Forge { member, to, bytes })
    }

    // The string of a client's request that was submitted.
    fn asked(
        &self,
        script: &Script,
        at: usize,
        client: ClientId,
        number: u32,
    ) -> Result<Bytes, OutOfMemory>
        requires within { IsWithin script.now }
        requires stands { StandsFor H.naming script.now (lines_before script.now at) self.now.site (skips self.now.site.world) }
        requires sent { HasSent script.now.setup (lines_before script.now at) client number }
        ensures { IfOk result (λ text. text ≡ asked_string (ring_for H.naming script.now) (world_of H.naming script.now (lines_before script.now at)) client number) }
    {
        asked_is_there();
        match self.site.world().request(client, number) {
            Some(text) => Ok(text.clone()?),
            None => unreachable!(),
        }
    }

    // Its name.
    fn asked_name(
        self,
        script: &Script,
        at: usize,
        client: ClientId,
        number: u32,
    ) -> Result<(State<H>, Name), NameFault>
        requires within { IsWithin script.now }
        requires stands { StandsFor H.naming script.now (lines_before script.now at) self.site (skips self.site.world) }
        requires sent { HasSent script.now.setup (lines_before script.now at) client number }
        ensures stands { IfOk result (λ found. StandsFor H.naming script.now (lines_before script.now at) found.0.site (skips found.0.site.world)) }
        ensures name { IfOk result (λ found. found.1 ≡ H.naming (asked_string (ring_for H.naming script.now) (world_of H.naming script.now (lines_before script.now at)) client number)) }
        ensures fault { IfErr result (IsClashOf H.naming (named H.naming script.now (lines_before script.now at))) }
    {
        asked_is_there();
        let text = self.asked(script, at, client, number)?;
        let mut state = self;
        let name = state.site.name(text.as_slice())?;
        Ok((state, name))
    }
}
