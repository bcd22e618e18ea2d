// What lines print.
ghost use Rattle.std.specs.Prelude.{◌≡◌, ◌<◌, length, reverse, string_bytes, IfOk};
ghost use Rattle.ring_world.specs.Skipping.{skips};
ghost use Rattle.script_laws.specs.Limits.{IsWithin};
ghost use Rattle.script_terms.specs.declared.line.Line.TheVariants.{Read, ShowMember, ShowClient, ShowVersion, ShowRecent};
ghost use Rattle.text_model.specs.Text.{line_text};
ghost use Rattle.script_run.specs.Labels.{AreLabels};
ghost use Rattle.script_run.specs.States.{StandsFor, IsTurn, PrintsAt, lines_before};

use crate::labels::{Labels, object_of};
use crate::state::State;
use block_names::Hash160;
use fold_model::ring_folds;
use pond_base::{ClientId, Label, MemberId, OutOfMemory, Version};
use script_laws::{lines_fit_in_turn, setups_join, submits_are_requests};
use script_printing as printing;
use script_terms::{Line, Script};

/// What the line at a place prints.
pub(crate) fn line_text<H: Hash160 + Drop>(
    state: &State<H>,
    labels: &Labels,
    script: &Script,
    at: usize,
) -> Result<String, OutOfMemory>
    requires within { IsWithin script.now }
    requires labels { AreLabels H.naming labels.now.entries (reverse script.now.lines) }
    requires here { at < length script.now.lines }
    requires stands { StandsFor H.naming script.now (lines_before script.now at) state.now.site (skips state.now.site.world) }
    ensures { IfOk result (λ printed. PrintsAt H.naming script.now at (string_bytes printed)) }
{
    let (_, line) = &script.lines.as_slice()[at];
    match line {
        Line::Read { client, label } => read_text(state, labels, script, at, *client, label),
        Line::ShowMember { member } => member_text(state, script, at, *member),
        Line::ShowClient { client } => client_text(state, labels, script, at, *client),
        Line::ShowVersion {
            member,
            label,
            version,
        } => shape_text(state, script, at, *member, label, *version),
        Line::ShowRecent => recent_text(state, script, at),
        _ => Ok(String::new(state.alloc)),
    }
}

// What a read prints: the version of the label that is the client's heart, as the committed list makes
// it.
fn read_text<H: Hash160 + Drop>(
    state: &State<H>,
    labels: &Labels,
    script: &Script,
    at: usize,
    client: ClientId,
    label: &Label,
) -> Result<String, OutOfMemory>
    requires turn { IsTurn H.naming script.now at (Read client label.now) state.now.site (skips state.now.site.world) }
    requires labels { AreLabels H.naming labels.now.entries (reverse script.now.lines) }
    ensures { IfOk result (λ printed. string_bytes printed ≡ line_text H.naming script.now (lines_before script.now at) (Read client label.now)) }
{
    lines_fit_in_turn();
    setups_join();
    ring_folds();
    let hearts = state.site.client(client).hearts();
    let heart = hearts.newest(object_of(labels, label));
    let objects = state.site.world().committed().objects();
    printing::read_text(state.alloc, objects, label, heart)
}

// What is shown of a client.
fn client_text<H: Hash160 + Drop>(
    state: &State<H>,
    labels: &Labels,
    script: &Script,
    at: usize,
    client: ClientId,
) -> Result<String, OutOfMemory>
    requires turn { IsTurn H.naming script.now at (ShowClient client) state.now.site (skips state.now.site.world) }
    requires labels { AreLabels H.naming labels.now.entries (reverse script.now.lines) }
    ensures { IfOk result (λ printed. string_bytes printed ≡ line_text H.naming script.now (lines_before script.now at) (ShowClient client)) }
{
    lines_fit_in_turn();
    setups_join();
    submits_are_requests();
    let known = state.site.client(client);
    printing::client_text(state.alloc, client, known, labels)
}

// What is shown of a member.
fn member_text<H: Hash160 + Drop>(
    state: &State<H>,
    script: &Script,
    at: usize,
    member: MemberId,
) -> Result<String, OutOfMemory>
    requires { IsTurn H.naming script.now at (ShowMember member) state.now.site (skips state.now.site.world) }
    ensures { IfOk result (λ printed. string_bytes printed ≡ line_text H.naming script.now (lines_before script.now at) (ShowMember member)) }
{
    setups_join();
    ring_folds();
    submits_are_requests();
    lines_fit_in_turn();
    match state.site.world().node(member) {
        Some(node) => printing::member_text(state.alloc, member, node),
        None => printing::faulty_text(state.alloc, member),
    }
}

// What is shown of a version that a member holds.
fn shape_text<H: Hash160 + Drop>(
    state: &State<H>,
    script: &Script,
    at: usize,
    member: MemberId,
    label: &Label,
    version: Version,
) -> Result<String, OutOfMemory>
    requires { IsTurn H.naming script.now at (ShowVersion member label.now version) state.now.site (skips state.now.site.world) }
    ensures { IfOk result (λ printed. string_bytes printed ≡ line_text H.naming script.now (lines_before script.now at) (ShowVersion member label.now version)) }
{
    setups_join();
    ring_folds();
    lines_fit_in_turn();
    match state.site.world().node(member) {
        Some(node) => printing::shape_text(state.alloc, node.objects(), label, version),
        None => printing::faulty_text(state.alloc, member),
    }
}

// What is shown of the last deliveries.
fn recent_text<H: Hash160 + Drop>(
    state: &State<H>,
    script: &Script,
    at: usize,
) -> Result<String, OutOfMemory>
    requires { StandsFor H.naming script.now (lines_before script.now at) state.now.site (skips state.now.site.world) }
    ensures { IfOk result (λ printed. string_bytes printed ≡ line_text H.naming script.now (lines_before script.now at) ShowRecent) }
{
    printing::recent_text(state.alloc, state.site.world().recent())
}
