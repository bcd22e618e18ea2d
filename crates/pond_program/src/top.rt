// The top call.
ghost use Rattle.std.specs.Prelude.{◌≡◌, ◌≤◌, length, map, string_bytes};
ghost use Rattle.pond_program.specs.Exactly.{Answers};
ghost use Rattle.pond_program.specs.Runs.{TextSays};
ghost use Rattle.pond_program.specs.Table.{RunSays, Says, most_bytes};

use crate::status::Status;
use crate::task::{Task, wanted};
use block_names::Sha1Hash;
use pond_base::limits::MOST_SCRIPT_BYTES;
use pond_base::{Sink, Source, Unread, read_whole};
use script_laws::scripts_agree;
use script_run::{End, run};
use script_text::{ParseFault, parse};
use std::alloc::Global;
use std::thread::Threads;

/// Does what the words ask for. Where they are `run` alone, it runs the script that a source gives, and
/// writes its text into a sink; where they are none that the program knows, it touches neither.
///
/// The contract is the table of statuses of the task, in both directions: what each answer says of the
/// source and the sink, and which answers remain where these are as told. Whatever the answer, of the
/// script that was read it says that after each number of its first lines whose named strings do not
/// clash, members have executed one list, and what clients believe is so.
pub fn pond<R: Threads, S: Source, K: Sink>(
    rt: &R,
    alloc: Global,
    words: &[String],
    source: &mut S,
    sink: &mut K,
) -> Status
    ensures { Answers result (record {
      words = map string_bytes words.now;
      source = record {
        before = S.left source.old;
        after = S.left source.new;
        faults_before = S.faults source.old;
        faults_after = S.faults source.new;
      };
      sink = record {
        before = K.taken sink.old;
        after = K.taken sink.new;
        faults_before = K.faults sink.old;
        faults_after = K.faults sink.new;
      };
    }) }
{
    answer(rt, alloc, words, source, sink)
}

fn answer<R: Threads, S: Source, K: Sink>(
    rt: &R,
    alloc: Global,
    words: &[String],
    source: &mut S,
    sink: &mut K,
) -> Status
    ensures { Says result (record {
      words = map string_bytes words.now;
      source = record {
        before = S.left source.old;
        after = S.left source.new;
        faults_before = S.faults source.old;
        faults_after = S.faults source.new;
      };
      sink = record {
        before = K.taken sink.old;
        after = K.taken sink.new;
        faults_before = K.faults sink.old;
        faults_after = K.faults sink.new;
      };
    }) }
{
    match wanted(words) {
        Task::Run => run_source(rt, alloc, source, sink),
        Task::Usage => Status::Usage,
    }
}

// Runs the script that a source gives.
fn run_source<R: Threads, S: Source, K: Sink>(
    rt: &R,
    alloc: Global,
    source: &mut S,
    sink: &mut K,
) -> Status
    ensures { RunSays result (record {
      before = S.left source.old;
      after = S.left source.new;
      faults_before = S.faults source.old;
      faults_after = S.faults source.new;
    }) (record {
      before = K.taken sink.old;
      after = K.taken sink.new;
      faults_before = K.faults sink.old;
      faults_after = K.faults sink.new;
    }) }
{
    match read_whole(alloc, source, MOST_SCRIPT_BYTES) {
        Ok(text) => run_text(rt, alloc, &text, sink),
        Err(Unread::Failed) => Status::ReadFault,
        Err(Unread::TooLarge) => Status::TooLarge,
        Err(Unread::Memory) => Status::Memory,
    }
}

// Runs the script that a text is.
fn run_text<R: Threads, K: Sink>(rt: &R, alloc: Global, text: &[u8], sink: &mut K) -> Status
    requires { length text.now ≤ most_bytes }
    ensures { TextSays result text.now (record {
      before = K.taken sink.old;
      after = K.taken sink.new;
      faults_before = K.faults sink.old;
      faults_after = K.faults sink.new;
    }) }
{
    scripts_agree();
    match parse(alloc, text) {
        Ok(script) => match run(rt, alloc, &script, Sha1Hash, sink) {
            End::Done => Status::Done,
            End::WriteFault => Status::WriteFault,
            End::Clash { line, old, new } => Status::Clash { line, old, new },
            End::Memory => Status::Memory,
        },
        Err(ParseFault::Refused { line, cause }) => Status::Refused { line, cause },
        Err(ParseFault::Memory) => Status::Memory,
    }
}
