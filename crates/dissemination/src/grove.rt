// A forest of replicas.
ghost use Rattle.std.specs.Prelude.{◌≡◌, ◌≤◌, ◌<◌, ◌^◌, ◌++◌, ◌∷◌, [], length, slice_get, Some, Contains, IfOk, IfErr, OnOk, OnErr};
ghost use Rattle.block_names.specs.Clashes.{AreHeld, NoneClash, IsClashAmong};
ghost use Rattle.block_names.specs.Growth.{Grew, IsClashIn, keep_all};
ghost use Rattle.replica_model.specs.declared.places.Place.TheVariants.{Replica as At};
ghost use Rattle.replica_model.specs.Replicas.{IsForest, IsPlaceOf, planted, with_lie, changed_at, kept_last, cleared, parents_of, caches_of, chain};
ghost use Rattle.replica_model.specs.Offers.{offered};
ghost use Rattle.replica_model.specs.Pushes.{pushed};

use crate::asking::{offer, parent_of};
use crate::parents::Parents;
use crate::pushing::push;
use crate::replica::Replica;
use block_names::{Book, Hash160, NameFault};
use bytes::Bytes;
use pond_base::{Items, Label, Name, OutOfMemory, Version};
use replica_cache::Cache;
use replica_model::{Place, Push};
use std::alloc::Global;
use std::marker::Model;

/// Replicas, numbered from 0, each below a member or a replica of lower number. Contracts see the list of
/// replicas, each as its parent, its cache, its lies and the versions that it keeps.
///
/// After a [`NameFault`] the caches may have changed, and strings that were named before the fault stay in
/// the book; parents, sizes of caches, lies and versions are as they were.
#[derive(Drop)]
pub struct Grove {
    alloc: Global,
    replicas: Vec<Replica>,
}

impl Model for Grove {
    ghost use Rattle.std.specs.Prelude.{List};
    ghost use Rattle.std.specs.Coded.{coded_list};
    ghost use Rattle.replica_model.specs.Replicas.{Replica as ReplicaView, coded_replica, parents_of, IsForest};

    ghost Value = { List ReplicaView };

    ghost coded = { coded_list coded_replica };

    ghost view = { λ grove. grove.replicas.items };

    ghost invariant = { λ grove. IsForest (parents_of grove.replicas.items) };
}

impl Grove {
    /// No replicas. Takes no memory.
    pub fn new(alloc: Global) -> Grove
        ensures { result ≡ [] }
    {
        Grove {
            alloc,
            replicas: Vec::new(alloc),
        }
    }

    /// A new replica, with nothing in it, below a member or a replica that was planted before, and with
    /// room for so many strings in its cache, 1 to 4,096. The answer is its number.
    pub fn plant(&mut self, parent: Place, size: u32) -> Result<u32, OutOfMemory>
        requires some { 1 ≤ size }
        requires most { size ≤ 4096 }
        requires room { length self.old < 2 ^ 32 }
        requires parent { IsPlaceOf self.old parent }
        ensures number { IfOk result (λ number. number ≡ length self.old) }
        ensures planted { OnOk result (self.new ≡ self.old ++ planted parent size ∷ []) }
        ensures unchanged { OnErr result (self.new ≡ self.old) }
    {
        let number = self.replicas.len() as u32;
        let replica = Replica::new(self.alloc, parent, size)?;
        self.replicas.push(replica)?;
        Ok(number)
    }

    /// What a replica offers that is asked for a string by its name: the string of its lie for the name;
    /// or else the string in its cache, which moves to the front; or else what its parent gives, if it is
    /// not cut. What comes is named in the book. Where it has the name it goes to the front of the cache
    /// and is offered, and where it does not it is passed over.
    pub fn offer<H: Hash160 + Drop, P: Parents>(
        &mut self,
        book: &mut Book<H>,
        parents: &P,
        replica: u32,
        name: Name,
    ) -> Result<Option<Bytes>, NameFault>
        requires { replica < length self.old }
        ensures string { IfOk result (λ string. string ≡ (offered H.naming (P.answers parents.now) self.old replica name).string) }
        ensures replicas { OnOk result (self.new ≡ (offered H.naming (P.answers parents.now) self.old replica name).replicas) }
        ensures held { OnOk result (book.new.held ≡ keep_all H.naming (offered H.naming (P.answers parents.now) self.old replica name).named book.old.held) }
        ensures all { OnOk result (AreHeld H.naming book.new.held (offered H.naming (P.answers parents.now) self.old replica name).named) }
        ensures apart { OnOk result (NoneClash H.naming book.old.held (Contains (offered H.naming (P.answers parents.now) self.old replica name).named)) }
        ensures grew { Grew H.naming book.old.held (Contains (offered H.naming (P.answers parents.now) self.old replica name).named) book.new.held }
        ensures fault { IfErr result (IsClashIn H.naming book.new.held (Contains (offered H.naming (P.answers parents.now) self.old replica name).named)) }
        ensures clash { IfErr result (IsClashAmong H.naming book.old.held (Contains (offered H.naming (P.answers parents.now) self.old replica name).named)) }
        ensures others { cleared self.new ≡ cleared self.old }
        ensures count { length self.new ≡ length self.old }
    {
        offer(book, parents, &mut self.replicas, replica, name)
    }

    /// Pushes a label to a replica: `Cut` where the replica or its parent is cut; `Behind` where the
    /// version of its parent is no newer; or else it takes the version of its parent, and walks the strings
    /// of that version, each before those below it, from the left. A string that stands in its cache is
    /// used, and stays where it is; any other is taken in from the parent as in an offer, whatever lies
    /// the replica has. Where none comes with the right name it is missing, and nothing below it is
    /// walked.
    pub fn push_from<H: Hash160 + Drop, P: Parents>(
        &mut self,
        book: &mut Book<H>,
        parents: &P,
        replica: u32,
        label: &Label,
    ) -> Result<Push, NameFault>
        requires { replica < length self.old }
        ensures answer { IfOk result (λ answer. answer ≡ (pushed H.naming (P.answers parents.now) self.old replica label.now).answer) }
        ensures replicas { OnOk result (self.new ≡ (pushed H.naming (P.answers parents.now) self.old replica label.now).replicas) }
        ensures held { OnOk result (book.new.held ≡ keep_all H.naming (pushed H.naming (P.answers parents.now) self.old replica label.now).named book.old.held) }
        ensures all { OnOk result (AreHeld H.naming book.new.held (pushed H.naming (P.answers parents.now) self.old replica label.now).named) }
        ensures apart { OnOk result (NoneClash H.naming book.old.held (Contains (pushed H.naming (P.answers parents.now) self.old replica label.now).named)) }
        ensures grew { Grew H.naming book.old.held (Contains (pushed H.naming (P.answers parents.now) self.old replica label.now).named) book.new.held }
        ensures fault { IfErr result (IsClashIn H.naming book.new.held (Contains (pushed H.naming (P.answers parents.now) self.old replica label.now).named)) }
        ensures clash { IfErr result (IsClashAmong H.naming book.old.held (Contains (pushed H.naming (P.answers parents.now) self.old replica label.now).named)) }
        ensures parents { parents_of self.new ≡ parents_of self.old }
        ensures others { OnErr result (cleared self.new ≡ cleared self.old) }
        ensures count { length self.new ≡ length self.old }
    {
        push(
            self.alloc,
            book,
            parents,
            &mut self.replicas,
            replica,
            label,
        )
    }

    /// Tells a replica a lie: from then on it answers the name with this string, in place of any former
    /// lie for the name. Every other replica is as it was.
    pub fn lie(&mut self, replica: u32, name: Name, bytes: Bytes) -> Result<(), OutOfMemory>
        requires { replica < length self.old }
        ensures told { OnOk result (self.new ≡ changed_at self.old replica (with_lie name bytes)) }
        ensures unchanged { OnErr result (self.new ≡ self.old) }
        ensures count { length self.new ≡ length self.old }
    {
        tell(&mut self.replicas, replica, name, bytes)
    }

    /// The version of a label that a replica keeps, first 0. Takes no memory.
    pub fn version(&self, replica: u32, label: &Label) -> Version
        requires { replica < length self.now }
        ensures { result ≡ (kept_last self.now replica label.now).version }
    {
        self.replicas[replica as usize].last(label).version
    }

    /// The cache of a replica. Takes no memory.
    pub fn cache(&self, replica: u32) -> &Cache
        requires { replica < length self.now }
        ensures { slice_get (caches_of self.now) replica ≡ Some result.now }
    {
        self.replicas[replica as usize].cache()
    }

    /// A replica, its parent, the parent of that, and so on up to a member.
    pub fn chain(&self, replica: u32) -> Result<Items<Place>, OutOfMemory>
        requires { replica < length self.now }
        ensures places { IfOk result (λ places. places ≡ chain (parents_of self.now) (At replica)) }
        ensures forest { IsForest (parents_of self.now) }
    {
        let replicas = self.replicas.as_slice();
        let mut places = Items::new(self.alloc);
        let mut place = Place::Replica(replica);
        while let Place::Replica(number) = place {
            places.push(place)?;
            place = parent_of(replicas, number);
        }
        places.push(place)?;
        Ok(places)
    }
}

// Tells a replica a lie.
fn tell(replicas: &mut [Replica], replica: u32, name: Name, bytes: Bytes) -> Result<(), OutOfMemory>
    requires { replica < length replicas.old }
    ensures told { OnOk result (replicas.new ≡ changed_at replicas.old replica (with_lie name bytes)) }
    ensures parents { parents_of replicas.new ≡ parents_of replicas.old }
    ensures unchanged { OnErr result (replicas.new ≡ replicas.old) }
{
    replicas[replica as usize].lie(name, bytes)
}
