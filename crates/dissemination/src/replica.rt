// One replica.
ghost use Rattle.std.specs.Prelude.{◌≡◌, ◌≤◌, [], None, Some, IfOk, IfSome, OnOk, OnErr};
ghost use Rattle.std.specs.FinMap as map_of;
ghost use Rattle.replica_model.specs.Caches.{kept_as};
ghost use Rattle.replica_model.specs.Replicas.{planted, with_entries, with_lie, with_last, last_of};
ghost use Rattle.replica_model.specs.Offers.{own, put_front};

use bytes::Bytes;
use pond_base::{Label, Name, OutOfMemory, Version};
use replica_cache::Cache;
use replica_model::{Last, Place};
use std::alloc::Global;
use std::collections::BTreeMap;
use std::marker::Model;

/// A replica: a cache, lies, and for each label a version.
#[derive(Drop)]
pub(crate) struct Replica {
    parent: Place,
    cache: Cache,
    lies: BTreeMap<Name, Bytes>,
    versions: BTreeMap<Label, Last>,
}

impl Model for Replica {
    ghost use Rattle.std.specs.FinMap.{from_entries};
    ghost use Rattle.replica_model.specs.Replicas.{Replica as ReplicaView, coded_replica};

    ghost Value = { ReplicaView };

    ghost coded = { coded_replica };

    ghost view = { λ it. record { parent = it.parent; cache = it.cache; lies = from_entries it.lies.entries; versions = from_entries it.versions.entries } };
}

impl Replica {
    /// A replica with nothing in it and room for so many strings in its cache.
    pub(crate) fn new(alloc: Global, parent: Place, size: u32) -> Result<Replica, OutOfMemory>
        requires some { 1 ≤ size }
        requires most { size ≤ 4096 }
        ensures { IfOk result (λ it. it ≡ planted parent size) }
    {
        Ok(Replica {
            parent,
            cache: Cache::new(alloc, size)?,
            lies: BTreeMap::new(alloc),
            versions: BTreeMap::new(alloc),
        })
    }

    /// The place above the replica.
    pub(crate) fn parent(&self) -> Place
        ensures { result ≡ self.now.parent }
    {
        self.parent
    }

    /// The cache of the replica.
    pub(crate) fn cache(&self) -> &Cache
        ensures { result.now ≡ self.now.cache }
    {
        &self.cache
    }

    /// What the cache has under a name, where it stands.
    pub(crate) fn kept(&self, name: Name) -> Result<Option<Bytes>, OutOfMemory>
        ensures { IfOk result (λ kept. kept ≡ kept_as self.now.cache.entries name) }
    {
        match self.cache.peek(name) {
            Some(bytes) => Ok(Some(bytes.clone()?)),
            None => Ok(None),
        }
    }

    /// What the replica offers by itself: a lie for the name, or else the cached string, which moves to
    /// the front.
    pub(crate) fn own(&mut self, name: Name) -> Result<Option<Bytes>, OutOfMemory>
        ensures found { IfOk result (λ found. IfSome found (λ bytes. own self.old name ≡ Some (bytes, self.new))) }
        ensures none { IfOk result (λ found. found ≡ None → own self.old name ≡ None) }
        ensures same { IfOk result (λ found. found ≡ None → self.new ≡ self.old) }
        ensures unchanged { OnErr result (self.new ≡ self.old) }
        ensures others { with_entries self.new [] ≡ with_entries self.old [] }
    {
        if let Some(lie) = self.lies.get(&name) {
            return Ok(Some(lie.clone()?));
        }
        let found = match self.cache.peek(name) {
            Some(bytes) => bytes.clone()?,
            None => return Ok(None),
        };
        self.cache.touch(name);
        Ok(Some(found))
    }

    /// Puts a string at the front of the cache.
    pub(crate) fn put_front(&mut self, name: Name, bytes: Bytes) -> Result<(), OutOfMemory>
        ensures put { OnOk result (self.new ≡ put_front name bytes self.old) }
        ensures unchanged { OnErr result (self.new ≡ self.old) }
        ensures others { with_entries self.new [] ≡ with_entries self.old [] }
    {
        self.cache.put(name, bytes)
    }

    /// Tells the replica a lie for a name, in place of any former one.
    pub(crate) fn lie(&mut self, name: Name, bytes: Bytes) -> Result<(), OutOfMemory>
        ensures told { OnOk result (self.new ≡ with_lie name bytes self.old) }
        ensures parent { self.new.parent ≡ self.old.parent }
        ensures unchanged { OnErr result (self.new ≡ self.old) }
    {
        self.lies.insert(name, bytes)?;
        Ok(())
    }

    /// The version of a label that the replica keeps, first 0.
    pub(crate) fn last(&self, label: &Label) -> Last
        ensures { result ≡ last_of self.now label.now }
    {
        match self.versions.get(label) {
            Some(last) => *last,
            None => Last {
                version: Version(0),
                name: Name::from_bytes([0; 20]),
            },
        }
    }

    /// Takes a version of a label, in place of any former one.
    pub(crate) fn take_last(&mut self, label: &Label, last: &Last) -> Result<(), OutOfMemory>
        ensures taken { OnOk result (self.new ≡ with_last label.now last.now self.old) }
        ensures parent { self.new.parent ≡ self.old.parent }
        ensures unchanged { OnErr result (self.new ≡ self.old) }
    {
        self.versions.insert(*label, *last)?;
        Ok(())
    }
}
