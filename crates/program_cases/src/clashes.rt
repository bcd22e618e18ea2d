// Runs that end at two strings of one name, under hashes that make them easy to find.
ghost use Rattle.std.specs.Prelude.{◌≤◌, length};

use block_names::{FoldHash, Hash160};
use pond_base::{MemorySink, Name};
use script_run::{End, run};
use script_text::parse;
use std::alloc::Global;
use std::test::Fail;
use std::thread::Threads;

// A hash that gives twenty zero bytes for every string.
#[derive(Drop)]
struct ZeroHash;

impl Hash160 for ZeroHash {
    ghost use Rattle.std.specs.Prelude.{replicate, refl};

    ghost naming = { λ bytes. replicate 20 0 };

    fn hash(&self, _bytes: &[u8]) -> Name {
        Name::from_bytes([0; 20])
    }

    ghost long = { λ bytes. refl };
}

// How a run of a script under a hash ends: the line of its clash and the two strings, in digits.
fn end_of<R: Threads, H: Hash160 + Drop>(
    rt: &R,
    alloc: Global,
    text: &[u8],
    hash: H,
    sink: &mut MemorySink,
) -> Result<String, Fail>
    requires { length text.now ≤ 1048576 }
{
    let Ok(script) = parse(alloc, text) else {
        return Err(Fail::new("it is a script"));
    };
    told(alloc, run(rt, alloc, &script, hash, sink))
}

fn told(alloc: Global, end: End) -> Result<String, Fail> {
    match end {
        End::Done => Ok(String::from_str(alloc, "done")?),
        End::WriteFault => Ok(String::from_str(alloc, "write fault")?),
        End::Clash { line, old, new } => clash(alloc, line, &old, &new),
        End::Memory => Ok(String::from_str(alloc, "memory")?),
    }
}

fn clash(alloc: Global, line: u32, old: &[u8], new: &[u8]) -> Result<String, Fail> {
    let mut told = format!(in alloc; "{line} ")?;
    told.push_str(hex::encode(alloc, old)?.as_str())?;
    told.push_str(" ")?;
    told.push_str(hex::encode(alloc, new)?.as_str())?;
    Ok(told)
}

// Scripts, the text that is written, and how the run under the folding hash ends.
const FOLDED: &[(&[u8], &[u8], &str)] = &[
    (
        b"pond 1\nring 0\nsubmit 0 a append 61ee\nsubmit 0 b append ee61\nsettle\nread 0 a\n",
        b"clash 5\n",
        "5 0161ee 01ee61",
    ),
    (
        b"pond 1\nring 0\nsubmit 0 a if block 0 61ee then append 61\n\
submit 0 a if block 0 ee61 then append 61\nread 0 a\n",
        b"clash 4\n",
        "4 0161ee 01ee61",
    ),
];

#[test]
fn under_the_folding_hash(rt: HostRuntime) -> Result<(), Fail> {
    let alloc = rt.alloc();
    for (script, text, wanted) in FOLDED {
        if script.len() > 1_048_576 {
            return Err(Fail::new("it is small"));
        }
        let mut sink = MemorySink::new(alloc, 100, 100, Vec::new(alloc))?;
        let ended = end_of(&rt, alloc, script, FoldHash, &mut sink)?;
        assert_eq!(rt; ended.as_str(), *wanted);
        assert_eq!(rt; sink.taken(), *text);
    }
    Ok(())
}

// Scripts and texts under a hash for which all strings clash. The first names one string alone: the
// root of version 0. The other names a label too, before its first line.
#[test]
fn before_the_first_line(rt: HostRuntime) -> Result<(), Fail> {
    let alloc = rt.alloc();
    let mut sink = MemorySink::new(alloc, 100, 100, Vec::new(alloc))?;
    let alone = end_of(&rt, alloc, b"pond 1\nring 0\n", ZeroHash, &mut sink)?;
    assert_eq!(rt; alone.as_str(), "done");
    assert_eq!(rt; sink.taken(), b"".as_slice());
    let labelled = end_of(
        &rt,
        alloc,
        b"pond 1\nring 0\nread 0 a\n",
        ZeroHash,
        &mut sink,
    )?;
    assert_eq!(rt; labelled.as_str(), ROOT_AND_LABEL);
    assert_eq!(rt; sink.taken(), b"clash 0\n".as_slice());
    Ok(())
}

// The root string of version 0 in leaves of 8,192 bytes, 54 bytes, and the string of the label.
const ROOT_AND_LABEL: &str = "0 0300000000000000000000200000000000000000000000000000000000\
00000000000000000000000000000000000000000000000000 0761";
