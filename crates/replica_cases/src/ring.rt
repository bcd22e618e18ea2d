// Two members of a ring: the first is correct, and the other is faulty.
use block_names::{FoldHash, Hash160};
use bytes::Bytes;
use dissemination::{Parents, Place};
use pond_base::{Label, MemberId, Name, OutOfMemory, Version};
use std::alloc::Global;
use std::collections::BTreeMap;

// What the correct member gives, and what is cut: whether the members are, and which replica.
#[derive(Drop)]
pub struct Ring {
    strings: BTreeMap<Name, Bytes>,
    version: u32,
    root: Name,
    members_cut: bool,
    replica_cut: u32,
}

impl Ring {
    // Version 0, and no strings.
    pub fn new(alloc: Global) -> Ring {
        Ring {
            strings: BTreeMap::new(alloc),
            version: 0,
            root: Name::from_bytes([0; 20]),
            members_cut: false,
            replica_cut: u32::MAX,
        }
    }

    pub fn execute(&mut self, version: u32, root: Name) {
        self.version = version;
        self.root = root;
    }

    pub fn give(&mut self, string: Bytes) -> Result<(), OutOfMemory> {
        self.strings.insert(FoldHash.hash(&string), string)?;
        Ok(())
    }

    pub fn withhold(&mut self, name: Name) {
        self.strings.remove(&name);
    }

    pub fn cut_members(&mut self) {
        self.members_cut = true;
    }

    pub fn cut_replica(&mut self, replica: u32) {
        self.replica_cut = replica;
    }

    pub fn mend(&mut self) {
        self.members_cut = false;
        self.replica_cut = u32::MAX;
    }
}

impl Parents for Ring {
    ghost use Rattle.std.specs.Prelude.{◌==◌, None, if◌then◌else◌, replicate};
    ghost use Rattle.std.specs.Ordering.{nat_cmp};
    ghost use Rattle.std.specs.Cmp.Lexicographic.{slice_cmp};
    ghost use Rattle.std.specs.BTreeMap.{is_at};
    ghost use Rattle.std.specs.Map.{lookup};
    ghost use Rattle.replica_model.specs.declared.places.Place.TheVariants.{Member, Replica as At};

    ghost answers = { λ ring. record {
      last = λ member label. if member.0 == 0 then record { version = record { 0 = ring.version }; name = ring.root } else record { version = record { 0 = 0 }; name = replicate 20 0 };
      string = λ member name. if member.0 == 0 then lookup (is_at (slice_cmp nat_cmp name)) ring.strings.entries else None;
      cut = λ place. elim place [ Member member ↦ ring.members_cut | At r ↦ r == ring.replica_cut ];
    } };

    fn member_last(&self, member: MemberId, _label: &Label) -> (Version, Name) {
        if member.0 == 0 {
            return (Version(self.version), self.root);
        }
        (Version(0), Name::from_bytes([0; 20]))
    }

    fn member_string(&self, member: MemberId, name: Name) -> Option<&Bytes> {
        if member.0 == 0 {
            return self.strings.get(&name);
        }
        None
    }

    fn is_cut(&self, place: Place) -> bool {
        match place {
            Place::Member(_) => self.members_cut,
            Place::Replica(replica) => replica == self.replica_cut,
        }
    }
}
