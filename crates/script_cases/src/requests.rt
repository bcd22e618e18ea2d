// The name of a guard's leaf, by SHA-1 of 01 and the content, as another program computes it.
ghost use Rattle.std.specs.Prelude.{IfOk};
ghost use Rattle.std.specs.List.{AllByRecursion};
ghost use Rattle.script_laws.specs.Limits.{GuardFits};

use block_names::{Book, Sha1Hash};
use bytes::Bytes;
use guarded_update::{Clause, Guard};
use pond_base::{Items, Version};
use script_requests::clauses_of;
use script_terms::{LineClause, LineGuard};
use std::alloc::Global;
use std::test::Fail;

// If size 3, and block 2 is 6869, and version 4.
fn guards(alloc: Global) -> Result<Items<LineGuard>, Fail>
    ensures { IfOk result (λ guards. AllByRecursion GuardFits guards) }
{
    let mut guards = Items::new(alloc);
    guards.push(LineGuard::SizeIs(3))?;
    guards.push(LineGuard::BlockIs {
        place: 2,
        content: Bytes::copy_from_slice(alloc, b"hi")?,
    })?;
    guards.push(LineGuard::VersionIs(Version(4)))?;
    Ok(guards)
}

fn made(alloc: Global) -> Result<Items<Clause>, Fail> {
    let clauses = [LineClause {
        guards: guards(alloc)?,
        actions: Items::new(alloc),
    }];
    let mut book = Book::new(alloc, Sha1Hash);
    Ok(clauses_of(alloc, &mut book, &clauses)?)
}

fn told(alloc: Global, guard: &Guard) -> Result<String, Fail> {
    match guard {
        Guard::VersionIs(version) => Ok(format!(in alloc; "version {} ", version.0)?),
        Guard::SizeIs(size) => Ok(format!(in alloc; "size {size} ")?),
        Guard::BlockIs { place, name } => {
            let digits = hex::encode(alloc, name.bytes().as_slice())?;
            Ok(format!(in alloc; "block {place} {digits} ")?)
        }
    }
}

fn told_all(alloc: Global, clauses: &[Clause]) -> Result<String, Fail> {
    let mut out = String::new(alloc);
    for clause in clauses {
        tell(alloc, clause.guards.as_slice(), &mut out)?;
    }
    Ok(out)
}

fn tell(alloc: Global, guards: &[Guard], out: &mut String) -> Result<(), Fail> {
    for guard in guards {
        out.push_str(told(alloc, guard)?.as_str())?;
    }
    Ok(())
}

#[test]
fn a_guard_names_its_leaf(rt: HostRuntime) -> Result<(), Fail> {
    let made = made(rt.alloc())?;
    let wanted = "size 3 block 2 6574031769079b0b98692c90a08e32a77c7affb6 version 4 ";
    assert_eq!(rt; told_all(rt.alloc(), made.as_slice())?.as_str(), wanted);
    Ok(())
}
