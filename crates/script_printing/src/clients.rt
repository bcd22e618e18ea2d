// What a client shows.
ghost use Rattle.std.specs.Prelude.{◌≡◌, ℕ, List, length, map, string_bytes, IfOk};
ghost use Rattle.std.specs.List.{flat_map};
ghost use Rattle.std.specs.Option.{option_map, option_copied};
ghost use Rattle.ring_message.specs.Spelling.{outcome_string};
ghost use Rattle.ring_model.specs.Messages.{Ring, Letter};
ghost use Rattle.ring_model.specs.Belief.{believed, replied, heart_of};
ghost use Rattle.object_model.specs.Trees.{object_name};
ghost use Rattle.heartbeat.specs.Joins.{marked};
ghost use Rattle.client_core.specs.Beliefs.{HeartsBelieved};
ghost use Rattle.client_core.specs.Clients.{ClientStands};
ghost use Rattle.text_model.specs.Blocks as model;
ghost use Rattle.script_printing.specs.Clients.{request_line};

use crate::outcomes::outcome_text;
use client_core::Client;
use heartbeat::Votes;
use object_fold::Outcome;
use pond_base::{ClientId, Label, Name, OutOfMemory, Version};
use std::alloc::Global;
use std::collections::BTreeMap;

/// What a client shows: how many requests it submitted, a line for each of them with the outcome that
/// it believes, and a line for each label of which it has a heart, in the order of the labels. Fails
/// only where memory runs out.
pub fn client_text(
    alloc: Global,
    id: ClientId,
    client: &Client,
    labels: &BTreeMap<Label, Name>,
) -> Result<String, OutOfMemory>
    ensures { IfOk result (λ printed. (g : Ring) (c : ℕ) (submits : List (List ℕ)) (got : List Letter) (h : List ℕ → List ℕ) (names : List (List ℕ)) → ClientStands client.now g c submits got
        → labels.now.entries ≡ map (λ label. (label, object_name h label)) names
        → string_bytes printed ≡ model.client_text id (length submits) (λ n. believed g (replied n) got) names (λ label. heart_of g (object_name h label) got)) }
{
    let number = id.0;
    let count = client.submitted();
    let requests = requests_text(alloc, client)?;
    let hearts = hearts_text(alloc, client.hearts(), labels)?;
    Ok(format!(in alloc; "client {number} requests {count}\n{requests}{hearts}")?)
}

// The lines of a client's requests, the first one first.
fn requests_text(alloc: Global, client: &Client) -> Result<String, OutOfMemory>
    ensures { IfOk result (λ printed. (g : Ring) (c : ℕ) (submits : List (List ℕ)) (got : List Letter) → ClientStands client.now g c submits got
        → string_bytes printed ≡ model.request_lines (λ n. believed g (replied n) got) (length submits)) }
{
    let mut text = String::new(alloc);
    for earlier in 0..client.submitted() {
        let number = earlier + 1;
        let line = request_line(alloc, number, client.outcome(number))?;
        text.push_str(&line)?;
    }
    Ok(text)
}

// The line of a request: its number, and what is believed to have become of it.
fn request_line(
    alloc: Global,
    number: u32,
    outcome: Option<&Outcome>,
) -> Result<String, OutOfMemory>
    ensures { IfOk result (λ printed. string_bytes printed ≡ request_line number (option_map outcome_string (option_copied outcome.entry))) }
{
    let belief = belief_text(alloc, outcome)?;
    Ok(format!(in alloc; "{number} {belief}\n")?)
}

// A believed outcome in words, or that none is believed yet.
fn belief_text(alloc: Global, outcome: Option<&Outcome>) -> Result<String, OutOfMemory>
    ensures { IfOk result (λ printed. string_bytes printed ≡ model.belief_text (option_map outcome_string (option_copied outcome.entry))) }
{
    match outcome {
        Some(outcome) => outcome_text(alloc, outcome),
        None => Ok(String::from_str(alloc, "pending")?),
    }
}

// The lines of the labels of which a client has a heart.
fn hearts_text(
    alloc: Global,
    hearts: &Votes,
    labels: &BTreeMap<Label, Name>,
) -> Result<String, OutOfMemory>
    ensures { IfOk result (λ printed. (g : Ring) (got : List Letter) (h : List ℕ → List ℕ) (names : List (List ℕ)) → HeartsBelieved hearts.now g got
        → labels.now.entries ≡ map (λ label. (label, object_name h label)) names
        → string_bytes printed ≡ flat_map (λ label. model.heart_line label (heart_of g (object_name h label) got)) names) }
{
    let mut text = String::new(alloc);
    for (label, object) in labels.iter() {
        let line = heart_line(alloc, label, hearts.newest(*object))?;
        text.push_str(&line)?;
    }
    Ok(text)
}

// The line of a label with its heart, and nothing where there is none.
fn heart_line(
    alloc: Global,
    label: &Label,
    heart: Option<(Version, Name)>,
) -> Result<String, OutOfMemory>
    ensures { IfOk result (λ printed. (object : List ℕ) → string_bytes printed ≡ model.heart_line label.now (marked object heart)) }
{
    let Some((version, _)) = heart else {
        return Ok(String::new(alloc));
    };
    let label = label_text(label);
    let version = version.0;
    Ok(format!(in alloc; "heart {label} {version}\n")?)
}

// A label's bytes, which are text.
fn label_text(label: &Label) -> &str
    ensures { result.now ≡ label.now }
{
    match std::str::from_utf8(label.bytes()) {
        Ok(text) => text,
        Err(_) => unreachable!(),
    }
}
