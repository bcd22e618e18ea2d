// Offers: what a place gives that is asked for a string by its name.
ghost use Rattle.std.specs.Prelude.{◌≡◌, ◌<◌, ◌∷◌, [], None, Some, slice_get, length, Contains, IfOk, IfErr, IfSome, OnOk, OnErr};
ghost use Rattle.std.specs.Option.{option_copied};
ghost use Rattle.block_names.specs.Growth.{Grew, IsClashIn};
ghost use Rattle.replica_model.specs.Replicas.{IsForest, IsPlaceOf, parents_of, cleared, changed_at, chain, above};
ghost use Rattle.replica_model.specs.Offers.{Offer, given, put_front, taken_in, own_or, offered_up, offered, fetched};
ghost use Rattle.dissemination.specs.Namings.{Names};

use crate::parents::Parents;
use crate::replica::Replica;
use block_names::{Book, Hash160, NameFault};
use bytes::Bytes;
use pond_base::{Name, OutOfMemory};
use replica_model::Place;

/// What replica `replica` offers that is asked for a name.
#[cycle(ask)]
pub(crate) fn offer<H: Hash160 + Drop, P: Parents>(
    book: &mut Book<H>,
    parents: &P,
    replicas: &mut [Replica],
    replica: u32,
    name: Name,
) -> Result<Option<Bytes>, NameFault>
    requires place { replica < length replicas.old }
    requires forest { IsForest (parents_of replicas.old) }
    ensures string { IfOk result (λ string. string ≡ (offered H.naming (P.answers parents.now) replicas.old replica name).string) }
    ensures replicas { OnOk result (replicas.new ≡ (offered H.naming (P.answers parents.now) replicas.old replica name).replicas) }
    ensures names { OnOk result (Names H.naming (offered H.naming (P.answers parents.now) replicas.old replica name).named book.old.held book.new.held) }
    ensures grew { Grew H.naming book.old.held (Contains (offered H.naming (P.answers parents.now) replicas.old replica name).named) book.new.held }
    ensures fault { IfErr result (IsClashIn H.naming book.new.held (Contains (offered H.naming (P.answers parents.now) replicas.old replica name).named)) }
    ensures others { cleared replicas.new ≡ cleared replicas.old }
{
    if let Some(bytes) = own_answer(replicas, replica, name)? {
        return Ok(Some(bytes));
    }
    fetch(book, parents, replicas, replica, name)
}

/// What replica `replica` takes in under a name from its parent, whatever it has itself.
#[cycle(ask)]
pub(crate) fn fetch<H: Hash160 + Drop, P: Parents>(
    book: &mut Book<H>,
    parents: &P,
    replicas: &mut [Replica],
    replica: u32,
    name: Name,
) -> Result<Option<Bytes>, NameFault>
    requires place { replica < length replicas.old }
    requires forest { IsForest (parents_of replicas.old) }
    ensures string { IfOk result (λ string. string ≡ (fetched H.naming (P.answers parents.now) (above replicas.old replica) replica name replicas.old).string) }
    ensures replicas { OnOk result (replicas.new ≡ (fetched H.naming (P.answers parents.now) (above replicas.old replica) replica name replicas.old).replicas) }
    ensures names { OnOk result (Names H.naming (fetched H.naming (P.answers parents.now) (above replicas.old replica) replica name replicas.old).named book.old.held book.new.held) }
    ensures grew { Grew H.naming book.old.held (Contains (fetched H.naming (P.answers parents.now) (above replicas.old replica) replica name replicas.old).named) book.new.held }
    ensures fault { IfErr result (IsClashIn H.naming book.new.held (Contains (fetched H.naming (P.answers parents.now) (above replicas.old replica) replica name replicas.old).named)) }
    ensures others { cleared replicas.new ≡ cleared replicas.old }
{
    let parent = parent_of(replicas, replica);
    if parents.is_cut(parent) {
        return Ok(None);
    }
    let came = match ask(book, parents, replicas, parent, name) {
        Ok(came) => came,
        Err(fault) => return Err(fault),
    };
    take_in(book, replicas, replica, name, came)
}

/// What a place gives that is asked for a name.
#[cycle(ask)]
fn ask<H: Hash160 + Drop, P: Parents>(
    book: &mut Book<H>,
    parents: &P,
    replicas: &mut [Replica],
    place: Place,
    name: Name,
) -> Result<Option<Bytes>, NameFault>
    requires place { IsPlaceOf replicas.old place }
    requires forest { IsForest (parents_of replicas.old) }
    ensures string { IfOk result (λ string. string ≡ (offered_up H.naming (P.answers parents.now) name (chain (parents_of replicas.old) place) replicas.old).string) }
    ensures replicas { OnOk result (replicas.new ≡ (offered_up H.naming (P.answers parents.now) name (chain (parents_of replicas.old) place) replicas.old).replicas) }
    ensures names { OnOk result (Names H.naming (offered_up H.naming (P.answers parents.now) name (chain (parents_of replicas.old) place) replicas.old).named book.old.held book.new.held) }
    ensures grew { Grew H.naming book.old.held (Contains (offered_up H.naming (P.answers parents.now) name (chain (parents_of replicas.old) place) replicas.old).named) book.new.held }
    ensures fault { IfErr result (IsClashIn H.naming book.new.held (Contains (offered_up H.naming (P.answers parents.now) name (chain (parents_of replicas.old) place) replicas.old).named)) }
    ensures others { cleared replicas.new ≡ cleared replicas.old }
{
    match place {
        Place::Member(member) => Ok(shared(parents.member_string(member, name))?),
        Place::Replica(replica) => offer(book, parents, replicas, replica, name),
    }
}

/// The place above a replica.
pub(crate) fn parent_of(replicas: &[Replica], replica: u32) -> Place
    requires { replica < length replicas.now }
    ensures { slice_get (parents_of replicas.now) replica ≡ Some result }
{
    replicas[replica as usize].parent()
}

/// What a replica answers by itself.
fn own_answer(
    replicas: &mut [Replica],
    replica: u32,
    name: Name,
) -> Result<Option<Bytes>, OutOfMemory>
    requires { replica < length replicas.old }
    ensures found { IfOk result (λ found. IfSome found (λ bytes. (otherwise : Offer) → own_or replicas.old name replica otherwise ≡ given (Some bytes) replicas.new)) }
    ensures none { IfOk result (λ found. found ≡ None → (otherwise : Offer) → own_or replicas.old name replica otherwise ≡ otherwise) }
    ensures same { IfOk result (λ found. found ≡ None → replicas.new ≡ replicas.old) }
    ensures others { cleared replicas.new ≡ cleared replicas.old }
{
    replicas[replica as usize].own(name)
}

/// Takes in what came for a name: a string is named, and where the name is right it goes to the front of
/// the cache.
fn take_in<H: Hash160 + Drop>(
    book: &mut Book<H>,
    replicas: &mut [Replica],
    replica: u32,
    name: Name,
    came: Option<Bytes>,
) -> Result<Option<Bytes>, NameFault>
    requires { replica < length replicas.old }
    ensures string { IfOk result (λ string. string ≡ (taken_in H.naming name replica came replicas.old).string) }
    ensures replicas { OnOk result (replicas.new ≡ (taken_in H.naming name replica came replicas.old).replicas) }
    ensures names { OnOk result (Names H.naming (taken_in H.naming name replica came replicas.old).named book.old.held book.new.held) }
    ensures grew { Grew H.naming book.old.held (Contains (taken_in H.naming name replica came replicas.old).named) book.new.held }
    ensures fault { IfErr result (IsClashIn H.naming book.new.held (Contains (taken_in H.naming name replica came replicas.old).named)) }
    ensures others { cleared replicas.new ≡ cleared replicas.old }
{
    match came {
        None => Ok(None),
        Some(bytes) => take_named(book, replicas, replica, name, bytes),
    }
}

/// The same of a string that came.
fn take_named<H: Hash160 + Drop>(
    book: &mut Book<H>,
    replicas: &mut [Replica],
    replica: u32,
    name: Name,
    bytes: Bytes,
) -> Result<Option<Bytes>, NameFault>
    requires { replica < length replicas.old }
    ensures string { IfOk result (λ string. string ≡ (taken_in H.naming name replica (Some bytes) replicas.old).string) }
    ensures replicas { OnOk result (replicas.new ≡ (taken_in H.naming name replica (Some bytes) replicas.old).replicas) }
    ensures names { OnOk result (Names H.naming (bytes ∷ []) book.old.held book.new.held) }
    ensures grew { Grew H.naming book.old.held (Contains (bytes ∷ [])) book.new.held }
    ensures fault { IfErr result (IsClashIn H.naming book.new.held (Contains (bytes ∷ []))) }
    ensures others { cleared replicas.new ≡ cleared replicas.old }
{
    if book.name(&bytes)? != name {
        return Ok(None);
    }
    put_front(replicas, replica, name, bytes.clone()?)?;
    Ok(Some(bytes))
}

/// Puts a string at the front of the cache of a replica.
fn put_front(
    replicas: &mut [Replica],
    replica: u32,
    name: Name,
    bytes: Bytes,
) -> Result<(), OutOfMemory>
    requires { replica < length replicas.old }
    ensures put { OnOk result (replicas.new ≡ changed_at replicas.old replica (put_front name bytes)) }
    ensures others { cleared replicas.new ≡ cleared replicas.old }
{
    replicas[replica as usize].put_front(name, bytes)
}

/// The same string, with its bytes shared.
fn shared(bytes: Option<&Bytes>) -> Result<Option<Bytes>, OutOfMemory>
    ensures { IfOk result (λ same. same ≡ option_copied bytes.entry) }
{
    match bytes {
        Some(bytes) => Ok(Some(bytes.clone()?)),
        None => Ok(None),
    }
}
