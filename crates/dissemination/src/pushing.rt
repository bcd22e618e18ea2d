// Pushes: a replica takes the newest version of its parent.
ghost use Rattle.std.specs.Prelude.{◌≡◌, ◌<◌, length, Contains, IfOk, IfErr, OnOk, OnErr};
ghost use Rattle.block_names.specs.Growth.{Grew, IsClashIn};
ghost use Rattle.replica_model.specs.Replicas.{IsForest, IsPlaceOf, parents_of, cleared, changed_at, with_last};
ghost use Rattle.replica_model.specs.Pushes.{last_at, taking, pushed};
ghost use Rattle.dissemination.specs.Namings.{Names};

use crate::asking::parent_of;
use crate::parents::Parents;
use crate::replica::Replica;
use crate::walking::walk;
use block_names::{Book, Hash160, NameFault};
use pond_base::{Label, OutOfMemory};
use replica_model::{Last, Place, Push};
use std::alloc::Global;

/// Pushes a label to a replica.
pub(crate) fn push<H: Hash160 + Drop, P: Parents>(
    alloc: Global,
    book: &mut Book<H>,
    parents: &P,
    replicas: &mut [Replica],
    replica: u32,
    label: &Label,
) -> Result<Push, NameFault>
    requires place { replica < length replicas.old }
    requires forest { IsForest (parents_of replicas.old) }
    ensures answer { IfOk result (λ answer. answer ≡ (pushed H.naming (P.answers parents.now) replicas.old replica label.now).answer) }
    ensures replicas { OnOk result (replicas.new ≡ (pushed H.naming (P.answers parents.now) replicas.old replica label.now).replicas) }
    ensures names { OnOk result (Names H.naming (pushed H.naming (P.answers parents.now) replicas.old replica label.now).named book.old.held book.new.held) }
    ensures grew { Grew H.naming book.old.held (Contains (pushed H.naming (P.answers parents.now) replicas.old replica label.now).named) book.new.held }
    ensures fault { IfErr result (IsClashIn H.naming book.new.held (Contains (pushed H.naming (P.answers parents.now) replicas.old replica label.now).named)) }
    ensures parents { parents_of replicas.new ≡ parents_of replicas.old }
    ensures others { OnErr result (cleared replicas.new ≡ cleared replicas.old) }
{
    let parent = parent_of(replicas, replica);
    if parents.is_cut(Place::Replica(replica)) {
        return Ok(Push::Cut);
    }
    if parents.is_cut(parent) {
        return Ok(Push::Cut);
    }
    let mine = last_at(parents, replicas, Place::Replica(replica), label);
    let theirs = last_at(parents, replicas, parent, label);
    if theirs.version.0 <= mine.version.0 {
        return Ok(Push::Behind {
            own: mine.version,
            parent: theirs.version,
        });
    }
    take_version(alloc, book, parents, replicas, replica, label, &theirs)
}

/// Takes a version of a label, and walks its strings.
fn take_version<H: Hash160 + Drop, P: Parents>(
    alloc: Global,
    book: &mut Book<H>,
    parents: &P,
    replicas: &mut [Replica],
    replica: u32,
    label: &Label,
    last: &Last,
) -> Result<Push, NameFault>
    requires place { replica < length replicas.old }
    requires forest { IsForest (parents_of replicas.old) }
    ensures answer { IfOk result (λ answer. answer ≡ (taking H.naming (P.answers parents.now) replicas.old replica label.now last.now).answer) }
    ensures replicas { OnOk result (replicas.new ≡ (taking H.naming (P.answers parents.now) replicas.old replica label.now last.now).replicas) }
    ensures names { OnOk result (Names H.naming (taking H.naming (P.answers parents.now) replicas.old replica label.now last.now).named book.old.held book.new.held) }
    ensures grew { Grew H.naming book.old.held (Contains (taking H.naming (P.answers parents.now) replicas.old replica label.now last.now).named) book.new.held }
    ensures fault { IfErr result (IsClashIn H.naming book.new.held (Contains (taking H.naming (P.answers parents.now) replicas.old replica label.now last.now).named)) }
    ensures parents { parents_of replicas.new ≡ parents_of replicas.old }
    ensures others { OnErr result (cleared replicas.new ≡ cleared replicas.old) }
{
    let counts = match walk(alloc, book, parents, replicas, replica, 5, last.name) {
        Ok(counts) => counts,
        Err(fault) => return Err(fault),
    };
    take_last(replicas, replica, label, last)?;
    Ok(Push::Took {
        version: last.version,
        put: counts.put,
        missing: counts.missing,
    })
}

/// Keeps a version of a label at a replica.
fn take_last(
    replicas: &mut [Replica],
    replica: u32,
    label: &Label,
    last: &Last,
) -> Result<(), OutOfMemory>
    requires { replica < length replicas.old }
    ensures taken { OnOk result (replicas.new ≡ changed_at replicas.old replica (with_last label.now last.now)) }
    ensures parents { parents_of replicas.new ≡ parents_of replicas.old }
    ensures unchanged { OnErr result (replicas.new ≡ replicas.old) }
{
    replicas[replica as usize].take_last(label, last)
}

/// The version that a place has of a label.
fn last_at<P: Parents>(parents: &P, replicas: &[Replica], place: Place, label: &Label) -> Last
    requires { IsPlaceOf replicas.now place }
    ensures { result ≡ last_at (P.answers parents.now) replicas.now place label.now }
{
    match place {
        Place::Member(member) => {
            let (version, name) = parents.member_last(member, label);
            Last { version, name }
        }
        Place::Replica(replica) => replicas[replica as usize].last(label),
    }
}
