// What is offered, and how much there is, after each change of a store.
ghost use Rattle.fragment_store.specs.Statements.{PlacedOffers, PlacedCounts, ReplacedOffers, ReplacedAgain, SpoiledOffers, SpoiledCounts};

/// After a string was placed: what stood under a name stands there still, and where nothing stood, the
/// string stands under its name and nothing under any other.
pub fn placed_offers()
    ensures { PlacedOffers }
{}

/// A string that is placed is one more, where nothing stood under its name.
pub fn placed_counts()
    ensures { PlacedCounts }
{}

/// After a string was put in place of what was there: it stands under its name, and under any other
/// name what stood there.
pub fn replaced_offers()
    ensures { ReplacedOffers }
{}

/// To put a string where it stands already changes nothing, since the names of a store rise.
pub fn replaced_again()
    ensures { ReplacedAgain }
{}

/// After a spoiling: under each name that has a string, that string with its last byte changed.
pub fn spoiled_offers()
    ensures { SpoiledOffers }
{}

/// A spoiling leaves as many strings.
pub fn spoiled_counts()
    ensures { SpoiledCounts }
{}
