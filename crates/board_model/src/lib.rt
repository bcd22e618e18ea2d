//! The board of versions as definitions: one thread publishes a list of versions, and others read it.
//!
//! It stands on the name that a `logbook` has. `Boards` says what an entry is and which one a reader is
//! given of a label, `Rule` what is kept while threads work beside each other: the published list only
//! grows, and goes on from each list that a reader has seen or was told of. The functions below have no
//! code; their contracts are laws of these definitions. The crate `version_board` has the code, and
//! keeps the rule.
#![tactic(auto)]

ghost use Rattle.board_model.specs.Laws as law;

/// The last entry of a label in a list is the one behind which no entry has the label.
pub fn last_entries_are_last()
    ensures { law.LastEntriesAreLast }
{}

/// A list has no last entry of a label exactly where none of its entries has the label.
pub fn no_entry_is_last_of_none()
    ensures { law.NoEntryIsLastOfNone }
{}

/// A step of one who looks or publishes keeps the rule.
pub fn looks_keep_the_rule()
    ensures { law.LooksKeepTheRule }
{}

/// One who comes knows nothing, and the rule is kept.
pub fn newcomers_keep_the_rule()
    ensures { law.NewcomersKeepTheRule }
{}

/// Who is told what another one knows, in the place of what he knew, keeps the rule.
pub fn telling_keeps_the_rule()
    ensures { law.TellingKeepsTheRule }
{}

/// Of the lists that two readers saw last, one goes on from the other.
pub fn readers_see_one_list()
    ensures { law.ReadersSeeOneList }
{}
