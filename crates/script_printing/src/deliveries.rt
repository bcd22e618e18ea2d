// What the last deliveries print.
ghost use Rattle.std.specs.Prelude.{◌≡◌, List, map, string_bytes, IfOk};
ghost use Rattle.message_model.specs.Meaning.{who};
ghost use Rattle.ring_model.specs.Places.{Place};
ghost use Rattle.message_model.specs.Told.{told, counted};
ghost use Rattle.text_model.specs.Blocks as model;
ghost use Rattle.script_printing.specs.Deliveries.{told_line};

use circular_buffer::HeapCircularBuffer;
use pond_base::{ClientId, MemberId, OutOfMemory, Party};
use std::alloc::Global;

/// The last deliveries, the oldest first: how many they are, and a line for each with its sender, its
/// receiver and its place from 1 on. Fails only where memory runs out.
pub fn recent_text(
    alloc: Global,
    recent: &HeapCircularBuffer<(Party, Party, u32)>,
) -> Result<String, OutOfMemory>
    ensures { IfOk result (λ printed. (done : List Place) → map told recent.now.items ≡ map counted done → string_bytes printed ≡ model.recent_text done) }
{
    let count = recent.len();
    let mut text = format!(in alloc; "recent {count}\n")?;
    for delivery in recent.iter() {
        let line = delivery_line(alloc, *delivery)?;
        text.push_str(&line)?;
    }
    Ok(text)
}

// The line of a delivery.
fn delivery_line(alloc: Global, delivery: (Party, Party, u32)) -> Result<String, OutOfMemory>
    ensures { IfOk result (λ printed. string_bytes printed ≡ told_line delivery) }
{
    let (from, to, place) = delivery;
    let from = party_text(alloc, from)?;
    let to = party_text(alloc, to)?;
    Ok(format!(in alloc; "{from} {to} {place}\n")?)
}

// A party: `m` or `c` for member or client, and its number.
fn party_text(alloc: Global, party: Party) -> Result<String, OutOfMemory>
    ensures { IfOk result (λ printed. string_bytes printed ≡ model.party_text (who party)) }
{
    match party {
        Party::Member(MemberId(number)) => Ok(format!(in alloc; "m{number}")?),
        Party::Client(ClientId(number)) => Ok(format!(in alloc; "c{number}")?),
    }
}
