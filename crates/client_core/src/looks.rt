// What a client knows.
ghost use Rattle.std.specs.Prelude.{◌≡◌, ℕ, ◌<◌, ◌+◌, ◌-◌, List, None, length, slice_get};
ghost use Rattle.std.specs.Option.{option_copied, option_map};
ghost use Rattle.ring_model.specs.Messages.{Ring, Letter};
ghost use Rattle.ring_model.specs.Belief.{believed, replied};
ghost use Rattle.ring_message.specs.Spelling.{outcome_string};
ghost use Rattle.client_core.specs.Clients.{ClientStands};
ghost use Rattle.client_core.specs.Beliefs.{HeartsBelieved, SealsBelieved};

use crate::{Client, replies};
use bytes::Bytes;
use heartbeat::{Votes, hearts_join, newest_joins, seals_join};
use ring_message::Outcome;

impl Client {
    /// How many requests were submitted. Takes no memory.
    pub fn submitted(&self) -> u32
        ensures count { result ≡ length self.now.requests.items }
        ensures submits { (g : Ring) (c : ℕ) (submits : List (List ℕ)) (got : List Letter) → ClientStands self.now g c submits got → result ≡ length submits }
    {
        self.requests.len() as u32
    }

    /// The string of the request of this number, and `None` exactly for 0 and for numbers that were not
    /// submitted. Takes no memory.
    pub fn request(&self, number: u32) -> Option<&Bytes>
        ensures zero { number ≡ 0 → option_copied result ≡ None }
        ensures found { (g : Ring) (c : ℕ) (submits : List (List ℕ)) (got : List Letter) → ClientStands self.now g c submits got → 0 < number → option_copied result ≡ slice_get submits (number - 1) }
    {
        if number == 0 {
            return None;
        }
        match self.requests.get(number as usize - 1) {
            Some(asked) => Some(&asked.text),
            None => None,
        }
    }

    /// The believed outcome of the request of this number, and `None` exactly where none is believed.
    /// Takes no memory.
    pub fn outcome(&self, number: u32) -> Option<&Outcome>
        ensures { (g : Ring) (c : ℕ) (submits : List (List ℕ)) (got : List Letter) → ClientStands self.now g c submits got → believed g (replied number) got ≡ option_map outcome_string (option_copied result) }
    {
        replies::accepted(&self.replies, number)
    }

    /// What members told of the versions of objects and of their roots. Takes no memory.
    pub fn hearts(&self) -> &Votes
        ensures { (g : Ring) (c : ℕ) (submits : List (List ℕ)) (got : List Letter) → ClientStands self.now g c submits got → HeartsBelieved result.now g got }
    {
        hearts_join();
        newest_joins();
        &self.hearts
    }

    /// What members told of archived versions and of their manifests. Takes no memory.
    pub fn seals(&self) -> &Votes
        ensures { (g : Ring) (c : ℕ) (submits : List (List ℕ)) (got : List Letter) → ClientStands self.now g c submits got → SealsBelieved result.now g got }
    {
        seals_join();
        &self.seals
    }
}
