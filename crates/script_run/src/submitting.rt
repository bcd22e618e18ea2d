// Submits.
ghost use Rattle.std.specs.Prelude.{◌+◌, IfOk, IfErr};
ghost use Rattle.ring_world.specs.Skipping.{skips};
ghost use Rattle.script_requests.specs.Holding.{IsClashOf};
ghost use Rattle.script_terms.specs.declared.line.Line.TheVariants.{Submit};
ghost use Rattle.text_model.specs.Named.{named};
ghost use Rattle.script_run.specs.States.{IsTurn, StandsNext, lines_before};

use crate::events::cause_of;
use crate::state::State;
use block_names::{Hash160, NameFault};
use guarded_update::{Request, Update, write};
use pond_base::{ClientId, Label};
use pond_world::{Site, events_may_come, worlds_stay_known};
use ring_world::Event;
use script_laws::{events_come_of_lines, lines_fit_in_turn, setups_join, submits_are_requests};
use script_requests::clauses_of;
use script_terms::{LineClause, Script};
use std::thread::Threads;

impl<H: Hash160 + Drop> State<H> {
    /// A client sends its next request: the leaves of its guards are named, and its string.
    pub(crate) fn submitted<R: Threads>(
        self,
        rt: &R,
        script: &Script,
        at: usize,
        client: ClientId,
        label: Label,
        clauses: &[LineClause],
    ) -> Result<State<H>, NameFault>
        requires { IsTurn H.naming script.now at (Submit client label clauses.now) self.site (skips self.site.world) }
        ensures stands { IfOk result (λ state. StandsNext H.naming script.now at state.site (skips state.site.world)) }
        ensures fault { IfErr result (IsClashOf H.naming (named H.naming script.now (lines_before script.now (at + 1)))) }
    {
        lines_fit_in_turn();
        setups_join();
        submits_are_requests();
        events_come_of_lines();
        events_may_come();
        worlds_stay_known();
        let State { alloc, site } = self;
        let (mut book, world) = site.into_parts();
        let clauses = clauses_of(alloc, &mut book, clauses)?;
        let request = Request {
            client,
            number: world.submitted(client) + 1,
            label,
            update: Update { clauses },
        };
        // It has a spelling, which the world names.
        write(alloc, &request)?;
        let event = Event::Submit {
            client,
            label,
            update: request.update,
        };
        world.may_step(&event);
        let mut site = Site::of(book, world);
        match site.step(rt, event) {
            Ok(_) => Ok(State { alloc, site }),
            Err(fault) => Err(cause_of(fault)),
        }
    }
}
