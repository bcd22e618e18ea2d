// From the bytes of a text to a script.
ghost use Rattle.std.specs.Prelude.{◌≡◌, ◌<◌, ◌-◌, ◌^◌, length};
ghost use Rattle.script_grammar.specs.Script.{script_of};
ghost use Rattle.script_text.specs.Refusal.{Reads};

use crate::ParseFault;
use crate::skipping::is_skipped;
use crate::state::State;
use script_terms::{Script, refused};
use script_words::split_line;
use std::alloc::Global;

/// The script that a text is, or the first line with a fault and its cause, exactly as the grammar says.
/// The text has fewer than 2^32 - 1 bytes, so that its lines are counted by a `u32`.
pub fn parse(alloc: Global, text: &[u8]) -> Result<Script, ParseFault>
    requires { length text.now < 2 ^ 32 - 1 }
    ensures { Reads result (script_of text.now) }
{
    let mut state = State::new(alloc);
    let mut number = 1;
    let mut rest = text;
    while !rest.is_empty() {
        let (line, after) = split_line(rest);
        if is_skipped(line) {
            number += 1;
            rest = after;
            continue;
        }
        match state.after(alloc, number, line) {
            Ok(next) => state = next,
            Err(fault) => return Err(ParseFault::at(number, fault)),
        }
        number += 1;
        rest = after;
    }
    if !state.has_heads() {
        return Err(ParseFault::at(number, refused::ORDER));
    }
    let script = state.into_script(alloc)?;
    Ok(script)
}
