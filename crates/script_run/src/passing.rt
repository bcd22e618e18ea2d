// What settles pass over.
ghost use Rattle.std.specs.Prelude.{◌≡◌, ◌++◌, ◌∷◌, [], IfOk};
ghost use Rattle.ring_world.specs.Skipping.{skips};
ghost use Rattle.script_terms.specs.declared.line.Line.TheVariants.{Mute, Unmute, Lose};
ghost use Rattle.script_run.specs.States.{IsTurn, StandsNext};

use crate::state::State;
use block_names::Hash160;
use pond_base::{OutOfMemory, Party};
use script_laws::lines_fit_in_turn;
use script_terms::Script;

impl<H: Hash160 + Drop> State<H> {
    /// From now on messages from and to a party are passed over.
    pub(crate) fn muted(
        self,
        script: &Script,
        at: usize,
        party: Party,
    ) -> Result<State<H>, OutOfMemory>
        requires { IsTurn H.naming script.now at (Mute party) self.site (skips self.site.world) }
        ensures { IfOk result (λ state. StandsNext H.naming script.now at state.site (skips state.site.world)) }
    {
        lines_fit_in_turn();
        let mut state = self;
        state.site.mute(party)?;
        Ok(state)
    }

    /// From now on they are no more.
    pub(crate) fn unmuted(
        self,
        script: &Script,
        at: usize,
        party: Party,
    ) -> Result<State<H>, OutOfMemory>
        requires { IsTurn H.naming script.now at (Unmute party) self.site (skips self.site.world) }
        ensures { IfOk result (λ state. StandsNext H.naming script.now at state.site (skips state.site.world)) }
    {
        lines_fit_in_turn();
        let mut state = self;
        state.site.unmute(party)?;
        Ok(state)
    }

    /// From now on the message at a place is passed over.
    pub(crate) fn lost(
        self,
        script: &Script,
        at: usize,
        from: Party,
        to: Party,
        place: u32,
    ) -> Result<State<H>, OutOfMemory>
        requires { IsTurn H.naming script.now at (Lose from to place) self.site (skips self.site.world) }
        ensures { IfOk result (λ state. StandsNext H.naming script.now at state.site (skips state.site.world)) }
    {
        lines_fit_in_turn();
        let mut state = self;
        state.site.lose(from, to, place)?;
        Ok(state)
    }
}
