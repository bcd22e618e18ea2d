// A source read to its end.
ghost use Rattle.std.specs.Prelude.{◌≤◌, ◌<◌, ◌^◌, ◌+◌, length, IfOk, IfSome, IsErrOf, OnOk};
ghost use Rattle.std.specs.Io.KnownBytes.{Consumes, IsAtEnd};
ghost use Rattle.pond_base.specs.Outside.{CountsReads};

use crate::Source;
use std::alloc::Global;

/// Why a source was not read to its end.
#[derive(Clone, Copy, Debug, PartialEq, Eq)]
pub enum Unread {
    /// A take failed, and no take came after it.
    Failed,
    /// The source gave more bytes than were allowed.
    TooLarge,
    /// Memory ran out.
    Memory,
}

/// All bytes of a source, where they are at most `most`. Reading ends at the first take that fails, which
/// is counted once.
pub fn read_whole<S: Source>(alloc: Global, source: &mut S, most: usize) -> Result<Vec<u8>, Unread>
    requires { most + 1 < 2 ^ 64 }
    ensures whole { IfOk result (λ bytes. Consumes (S.left source.old) (S.left source.new) bytes.items) }
    ensures ended { OnOk result (IsAtEnd (S.left source.new)) }
    ensures small { IfOk result (λ bytes. length bytes.items ≤ most) }
    ensures counted { CountsReads (S.faults source.old) (S.faults source.new) result }

    ensures large { IsErrOf result Unread.TooLarge → IfSome (S.left source.old) (λ bytes. most < length bytes) }
{
    let mut bytes = Vec::new(alloc);

    // Each take gives a byte, but for the last.
    for _turn in 0..most + 1 {
        let mut room = [0; 4096];
        let Ok(count) = source.take(&mut room) else {
            return Err(Unread::Failed);
        };
        if count == 0 {
            return Ok(bytes);
        }
        if count > most - bytes.len() {
            return Err(Unread::TooLarge);
        }
        if bytes.extend_from_slice(&room[..count]).is_err() {
            return Err(Unread::Memory);
        }
    }
    Err(Unread::TooLarge)
}
