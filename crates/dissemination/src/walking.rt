// The walk of a push, over the strings at a name and below it.
ghost use Rattle.std.specs.Prelude.{◌≡◌, ◌≤◌, ◌<◌, ◌+◌, ◌^◌, length, take, drop, slice_index, Contains, IfOk, IfErr, OnOk, if◌then◌else◌};
ghost use Rattle.std.specs.Option.{is_some};
ghost use Rattle.block_names.specs.Growth.{Grew, IsClashIn};
ghost use Rattle.replica_model.specs.Replicas.{IsForest, parents_of, cleared, above};
ghost use Rattle.replica_model.specs.Walks.{cached_at, stepped, in_order, walked, below, names_in_inner, top_in_root};
ghost use Rattle.dissemination.specs.Namings.{Names};
ghost use Rattle.dissemination.specs.Counts.{counts_of, IsSum};

use crate::asking::fetch;
use crate::parents::Parents;
use crate::replica::Replica;
use block_names::{Book, Hash160, NameFault};
use bytes::Bytes;
use pond_base::{Items, Name, OutOfMemory};
use std::alloc::Global;
use tree_format::read_inner;

/// How many strings were put, and how many are missing.
#[derive(Clone, Copy, Debug)]
pub(crate) struct Counts {
    pub(crate) put: u32,
    pub(crate) missing: u32,
}

/// A string that a walk came to, if there is one, and what it counts for that.
struct Found {
    string: Option<Bytes>,
    counts: Counts,
}

/// Walks the string of a name and those below it, at most so deep.
#[cycle(walk)]
pub(crate) fn walk<H: Hash160 + Drop, P: Parents>(
    alloc: Global,
    book: &mut Book<H>,
    parents: &P,
    replicas: &mut [Replica],
    replica: u32,
    depth: u8,
    name: Name,
) -> Result<Counts, NameFault>
    requires place { replica < length replicas.old }
    requires forest { IsForest (parents_of replicas.old) }
    requires deep { depth ≤ 5 }
    ensures counts { IfOk result (λ counts. counts ≡ counts_of (walked H.naming (P.answers parents.now) (above replicas.old replica) replica depth name replicas.old)) }
    ensures replicas { OnOk result (replicas.new ≡ (walked H.naming (P.answers parents.now) (above replicas.old replica) replica depth name replicas.old).replicas) }
    ensures names { OnOk result (Names H.naming (walked H.naming (P.answers parents.now) (above replicas.old replica) replica depth name replicas.old).named book.old.held book.new.held) }
    ensures grew { Grew H.naming book.old.held (Contains (walked H.naming (P.answers parents.now) (above replicas.old replica) replica depth name replicas.old).named) book.new.held }
    ensures fault { IfErr result (IsClashIn H.naming book.new.held (Contains (walked H.naming (P.answers parents.now) (above replicas.old replica) replica depth name replicas.old).named)) }
    ensures others { cleared replicas.new ≡ cleared replicas.old }
{
    if depth == 0 {
        return Ok(Counts { put: 0, missing: 0 });
    }
    let Found { string, counts } = match step(book, parents, replicas, replica, name) {
        Ok(step) => step,
        Err(fault) => return Err(fault),
    };
    let Some(string) = string else {
        return Ok(counts);
    };
    let names = names_below(alloc, &string)?;
    let more = match walk_all(
        alloc,
        book,
        parents,
        replicas,
        replica,
        depth - 1,
        names.as_slice(),
    ) {
        Ok(more) => more,
        Err(fault) => return Err(fault),
    };
    Ok(sum(counts, more))
}

/// Walks the strings of some names and those below them, one name after the other.
#[cycle(walk)]
fn walk_all<H: Hash160 + Drop, P: Parents>(
    alloc: Global,
    book: &mut Book<H>,
    parents: &P,
    replicas: &mut [Replica],
    replica: u32,
    depth: u8,
    names: &[Name],
) -> Result<Counts, NameFault>
    requires place { replica < length replicas.old }
    requires forest { IsForest (parents_of replicas.old) }
    requires deep { depth ≤ 4 }
    requires few { length names.now ≤ 64 }
    ensures counts { IfOk result (λ counts. counts ≡ counts_of (in_order (walked H.naming (P.answers parents.now) (above replicas.old replica) replica depth) names.now replicas.old)) }
    ensures replicas { OnOk result (replicas.new ≡ (in_order (walked H.naming (P.answers parents.now) (above replicas.old replica) replica depth) names.now replicas.old).replicas) }
    ensures names { OnOk result (Names H.naming (in_order (walked H.naming (P.answers parents.now) (above replicas.old replica) replica depth) names.now replicas.old).named book.old.held book.new.held) }
    ensures grew { Grew H.naming book.old.held (Contains (in_order (walked H.naming (P.answers parents.now) (above replicas.old replica) replica depth) names.now replicas.old).named) book.new.held }
    ensures fault { IfErr result (IsClashIn H.naming book.new.held (Contains (in_order (walked H.naming (P.answers parents.now) (above replicas.old replica) replica depth) names.now replicas.old).named)) }
    ensures others { cleared replicas.new ≡ cleared replicas.old }
{
    let [name, rest @ ..] = names else {
        return Ok(Counts { put: 0, missing: 0 });
    };
    let counts = match walk(alloc, book, parents, replicas, replica, depth, *name) {
        Ok(counts) => counts,
        Err(fault) => return Err(fault),
    };
    let more = match walk_all(alloc, book, parents, replicas, replica, depth, rest) {
        Ok(more) => more,
        Err(fault) => return Err(fault),
    };
    Ok(sum(counts, more))
}

/// Both counts together.
fn sum(counts: Counts, more: Counts) -> Counts
    requires put { counts.put + more.put < 2 ^ 32 }
    requires missing { counts.missing + more.missing < 2 ^ 32 }
    ensures { IsSum counts more result }
{
    Counts {
        put: counts.put + more.put,
        missing: counts.missing + more.missing,
    }
}

/// The string that a replica has under a name, where it stands, or else takes in from its parent.
fn step<H: Hash160 + Drop, P: Parents>(
    book: &mut Book<H>,
    parents: &P,
    replicas: &mut [Replica],
    replica: u32,
    name: Name,
) -> Result<Found, NameFault>
    requires place { replica < length replicas.old }
    requires forest { IsForest (parents_of replicas.old) }
    ensures string { IfOk result (λ step. step.string ≡ (stepped H.naming (P.answers parents.now) (above replicas.old replica) replica name replicas.old).string) }
    ensures counts { IfOk result (λ step. step.counts ≡ counts_of (stepped H.naming (P.answers parents.now) (above replicas.old replica) replica name replicas.old).walk) }
    ensures replicas { OnOk result (replicas.new ≡ (stepped H.naming (P.answers parents.now) (above replicas.old replica) replica name replicas.old).walk.replicas) }
    ensures names { OnOk result (Names H.naming (stepped H.naming (P.answers parents.now) (above replicas.old replica) replica name replicas.old).walk.named book.old.held book.new.held) }
    ensures grew { Grew H.naming book.old.held (Contains (stepped H.naming (P.answers parents.now) (above replicas.old replica) replica name replicas.old).walk.named) book.new.held }
    ensures fault { IfErr result (IsClashIn H.naming book.new.held (Contains (stepped H.naming (P.answers parents.now) (above replicas.old replica) replica name replicas.old).walk.named)) }
    ensures others { cleared replicas.new ≡ cleared replicas.old }
{
    if let Some(bytes) = kept(replicas, replica, name)? {
        return Ok(Found {
            string: Some(bytes),
            counts: Counts { put: 0, missing: 0 },
        });
    }
    match fetch(book, parents, replicas, replica, name) {
        Ok(came) => Ok(counted(came)),
        Err(fault) => Err(fault),
    }
}

/// What the cache of a replica has under a name.
fn kept(replicas: &[Replica], replica: u32, name: Name) -> Result<Option<Bytes>, OutOfMemory>
    requires { replica < length replicas.now }
    ensures { IfOk result (λ kept. kept ≡ cached_at replicas.now replica name) }
{
    replicas[replica as usize].kept(name)
}

/// What came for a name, counted.
fn counted(came: Option<Bytes>) -> Found
    ensures string { result.string ≡ came }
    ensures put { result.counts.put ≡ (if is_some came then 1 else 0) }
    ensures missing { result.counts.missing ≡ (if is_some came then 0 else 1) }
{
    let counts = match &came {
        Some(_) => Counts { put: 1, missing: 0 },
        None => Counts { put: 0, missing: 1 },
    };
    Found {
        string: came,
        counts,
    }
}

/// The names of the strings that stand below a string, at most 64.
#[tactic(auto, unfolding(replica_model::specs::Walks::below))]
fn names_below(alloc: Global, string: &[u8]) -> Result<Items<Name>, OutOfMemory>
    ensures { IfOk result (λ names. names ≡ below string.now) }
{
    let kind = kind_of(string);
    if kind == 2 {
        return inner_names(alloc, string);
    }
    if kind == 3 {
        return root_names(alloc, string);
    }
    Ok(Items::new(alloc))
}

/// The first byte of a string.
fn kind_of(string: &[u8]) -> u8
    ensures { result ≡ slice_index string.now 0 }
{
    match string {
        [kind, ..] => *kind,
        [] => 0,
    }
}

/// The names in an inner string.
fn inner_names(alloc: Global, string: &[u8]) -> Result<Items<Name>, OutOfMemory>
    requires { slice_index string.now 0 ≡ 2 }
    ensures { IfOk result (λ names. names ≡ names_in_inner string.now) }
{
    let mut names = Items::new(alloc);
    let Ok(inner) = read_inner(string) else {
        return Ok(names);
    };
    for place in 0..inner.count() {
        names.push(inner.name(place))?;
    }
    Ok(names)
}

/// The name of the top in a root string, unless its version is empty.
fn root_names(alloc: Global, string: &[u8]) -> Result<Items<Name>, OutOfMemory>
    ensures { IfOk result (λ names. names ≡ top_in_root string.now) }
{
    let mut names = Items::new(alloc);
    if string.len() != 54 {
        return Ok(names);
    }
    if string[5..9] == [0, 0, 0, 0] {
        return Ok(names);
    }
    names.push(name_at(string, 14))?;
    Ok(names)
}

/// The name of the twenty bytes from a place on.
fn name_at(string: &[u8], at: usize) -> Name
    requires { at + 20 ≤ length string.now }
    ensures { result ≡ take 20 (drop at string.now) }
{
    let mut name = [0; 20];
    name.copy_from_slice(&string[at..at + 20]);
    Name::from_bytes(name)
}
