//! Objects as definitions: versions, updates, requests one after the other, and the strings of versions.
//!
//! It stands on the values of guarded_update and the strings of tree_format. The versions of an object
//! are a list of byte strings with the newest first, and a list of requests has the newest first too, so
//! that each definition is one recursion. `Updates` says what a guard holds of and what an update makes,
//! `Folds` what a list of requests makes, `Trees` of which strings a version is made, and which are new
//! in it. The functions below have no code; their contracts are laws of the definitions. The layers
//! above prove that trees and objects stand for these lists.
#![tactic(auto)]

ghost use Rattle.object_model.specs.Laws as law;

/// The leaves of a content hold the content, and nothing else.
pub fn pieces_are_the_content()
    ensures { law.PiecesAreTheContent }
{}

/// An update makes no version above the length that versions may have.
pub fn versions_are_short()
    ensures { law.VersionsAreShort }
{}

/// A request makes at most one version of an object, on top of the older ones.
pub fn versions_stay()
    ensures { law.VersionsStay }
{}

/// A request changes no object but that of its label.
pub fn other_objects_stay()
    ensures { law.OtherObjectsStay }
{}

/// A request of a client and number that were executed before changes nothing.
pub fn repeats_make_nothing()
    ensures { law.RepeatsMakeNothing }
{}

/// The root of each version within the limits has a root string.
pub fn roots_are_in_the_grammar()
    ensures { law.RootsAreInTheGrammar }
{}

/// A string that is new in a version is in no older one.
pub fn new_strings_are_new()
    ensures { law.NewStringsAreNew }
{}

/// A string of a version is in an older one or new.
pub fn no_string_is_left_out()
    ensures { law.NoStringIsLeftOut }
{}

/// The strings that are new in a version are listed once.
pub fn new_strings_are_listed_once()
    ensures { law.NewStringsAreListedOnce }
{}

/// Each action on five bytes.
pub fn worked_actions()
    ensures { law.WorkedActions }
{}

/// Updates with guards, with a failing action, and without a clause that holds.
pub fn worked_updates()
    ensures { law.WorkedUpdates }
{}

/// The strings of small contents.
pub fn worked_trees()
    ensures { law.WorkedTrees }
{}
