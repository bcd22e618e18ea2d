// A run of a script.
ghost use Rattle.std.specs.Prelude.{◌≡◌, ◌∷◌, ◌<◌, ◌+◌, List, ℕ, length, reverse, slice_get, Some, true, IfOk, IfErr, OnOk, string_bytes};
ghost use Rattle.ring_world.specs.Skipping.{skips};
ghost use Rattle.script_laws.specs.Limits.{IsWithin};
ghost use Rattle.script_requests.specs.Holding.{IsClashOf};
ghost use Rattle.text_model.specs.Clashes.{has_clash};
ghost use Rattle.text_model.specs.Named.{named};
ghost use Rattle.text_model.specs.Requests.{Numbered};
ghost use Rattle.text_model.specs.Text as model;
ghost use Rattle.script_run.specs.Ends.{Says, EndsAt, Takes, written_at};
ghost use Rattle.script_run.specs.Labels.{AreLabels};
ghost use Rattle.script_run.specs.States.{IsOutside, StandsFor, StandsNext, lines_before};

use crate::labels::Labels;
use crate::outside::Outside;
use crate::printing::line_text;
use crate::state::State;
use block_names::{Hash160, NameFault};
use bytes::Bytes;
use pond_base::{OutOfMemory, Sink, write_whole};
use script_laws::{beliefs_are_true, lists_are_one, submits_are_requests};
use script_terms::Script;
use std::alloc::Global;
use std::thread::Threads;

/// How a run ends.
#[derive(Debug, Drop)]
pub enum End {
    /// The whole text was taken by the sink, and no two strings clash. What correct members executed
    /// after any of the lines is how one list began, which only grew, and what clients believed is so.
    Done,
    /// A take of the sink failed. A prefix of the text was taken.
    WriteFault,
    /// Up to this line two different strings of one name were named, and before it none. The whole
    /// text was taken, which ends with the line that says so.
    Clash { line: u32, old: Bytes, new: Bytes },
    /// Memory ran out. A prefix of the text was taken.
    Memory,
}

/// Runs a script, and writes its text into a sink. The text of each line is built and then written
/// before the next line is done.
///
/// The condition holds of each script that a text is.
pub fn run<R: Threads, H: Hash160 + Drop, K: Sink>(
    rt: &R,
    alloc: Global,
    script: &Script,
    hash: H,
    sink: &mut K,
) -> End
    requires { IsWithin script.now }
    ensures { Says H.naming script.now (record {
      before = K.taken sink.old;
      after = K.taken sink.new;
      faults_before = K.faults sink.old;
      faults_after = K.faults sink.new;
    }) result }
{
    submits_are_requests();
    lists_are_one();
    beliefs_are_true();
    let (mut state, labels) = match State::new(alloc, script, hash) {
        Ok(first) => first,
        Err(fault) => return end_at(alloc, 0, fault, sink),
    };
    let mut outside = Outside::new(alloc);
    for at in 0..script.lines.len() {
        state = match after_line(rt, state, &mut outside, alloc, &labels, script, at, sink) {
            Ok(state) => state,
            Err(end) => return end,
        };
    }
    End::Done
}

// The state after a line whose text was taken, or how the run ends there.
fn after_line<R: Threads, H: Hash160 + Drop, K: Sink>(
    rt: &R,
    state: State<H>,
    outside: &mut Outside,
    alloc: Global,
    labels: &Labels,
    script: &Script,
    at: usize,
    sink: &mut K,
) -> Result<State<H>, End>
    requires within { IsWithin script.now }
    requires labels { AreLabels H.naming labels.now.entries (reverse script.now.lines) }
    requires here { at < length script.now.lines }
    requires stands { StandsFor H.naming script.now (lines_before script.now at) state.site (skips state.site.world) }
    requires outside { IsOutside H.naming script.now at outside.old }
    ensures stands { IfOk result (λ after. StandsNext H.naming script.now at after.site (skips after.site.world)) }
    ensures outside { OnOk result (IsOutside H.naming script.now (at + 1) outside.new) }
    ensures takes { IfOk result (λ after. (line : Numbered) → slice_get script.now.lines at ≡ Some line → Takes (record {
      before = K.taken sink.old;
      after = K.taken sink.new;
      faults_before = K.faults sink.old;
      faults_after = K.faults sink.new;
    }) (model.line_text H.naming script.now (lines_before script.now at) line.1)) }
    ensures ends { IfErr result (λ end. (line : Numbered) → slice_get script.now.lines at ≡ Some line
        → EndsAt H.naming (named H.naming script.now (line ∷ lines_before script.now at)) line.0 (written_at H.naming script.now (lines_before script.now at) line) (record {
          before = K.taken sink.old;
          after = K.taken sink.new;
          faults_before = K.faults sink.old;
          faults_after = K.faults sink.new;
        }) end) }
{
    let (number, line) = &script.lines.as_slice()[at];
    let Ok(text) = line_text(&state, labels, script, at) else {
        return Err(End::Memory);
    };
    let state = match state.after(rt, labels, script, at) {
        Ok(state) => state,
        Err(fault) => return Err(end_at(alloc, *number, fault, sink)),
    };
    let Ok(()) = outside.change(line) else {
        return Err(End::Memory);
    };
    let Ok(()) = write_whole(sink, text.as_bytes()) else {
        return Err(End::WriteFault);
    };
    Ok(state)
}

// The end of a run at a fault of a line.
fn end_at<K: Sink>(alloc: Global, line: u32, fault: NameFault, sink: &mut K) -> End
    ensures { (h : List ℕ → List ℕ) (strings : List (List ℕ)) (text : List ℕ) → IsClashOf h strings fault → (has_clash h strings ≡ true → text ≡ model.clash_line line)
        → EndsAt h strings line text (record {
          before = K.taken sink.old;
          after = K.taken sink.new;
          faults_before = K.faults sink.old;
          faults_after = K.faults sink.new;
        }) result }
{
    match fault {
        NameFault::Memory => End::Memory,
        NameFault::Clash { old, new } => {
            let Ok(text) = clash_line(alloc, line) else {
                return End::Memory;
            };
            let Ok(()) = write_whole(sink, text.as_bytes()) else {
                return End::WriteFault;
            };
            End::Clash { line, old, new }
        }
    }
}

// The line that ends a run at two strings of one name.
fn clash_line(alloc: Global, line: u32) -> Result<String, OutOfMemory>
    ensures { IfOk result (λ text. string_bytes text ≡ model.clash_line line) }
{
    Ok(format!(in alloc; "clash {line}\n")?)
}
