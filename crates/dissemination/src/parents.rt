// What the members of the ring give.
ghost use Rattle.std.specs.Prelude.{◌≡◌};
ghost use Rattle.std.specs.Option.{option_copied};
ghost use Rattle.replica_model.specs.Offers.{Answers};

use bytes::Bytes;
use pond_base::{Label, MemberId, Name, Version};
use replica_model::Place;

/// What the members of the ring give, and which places are cut.
pub trait Parents {
    // What the three calls answer.
    ghost answers: { Self → Answers };

    /// The newest version of the object of a label that a member has, with the name of its root string;
    /// of a faulty member version 0. Takes no memory.
    fn member_last(&self, member: MemberId, label: &Label) -> (Version, Name)
        ensures version { result.0 ≡ ((answers self.now).last member label.now).version }
        ensures name { result.1 ≡ ((answers self.now).last member label.now).name };

    /// The string that a member gives under a name, if it gives one. Takes no memory.
    fn member_string(&self, member: MemberId, name: Name) -> Option<&Bytes>
        ensures { option_copied result ≡ (answers self.now).string member name };

    /// Whether a place is cut, so that it gives nothing. Takes no memory.
    fn is_cut(&self, place: Place) -> bool
        ensures { result ≡ (answers self.now).cut place };
}
