// What holds of caches, chains, offers and walks.
ghost use Rattle.replica_model.specs.Statements.{KeptStringsAreFound, TouchingFindsTheSame, NoMoreThanTheSize, ChainsGoUp, NamesAreKept, OffersAreNamed, WalksAreShort};
ghost use Rattle.replica_model.specs.Trees.{WalksFollowTheTree};

/// A string that was put into a cache is found there.
pub fn kept_strings_are_found()
    ensures { KeptStringsAreFound }
{}

/// A touch of an entry changes the order of a cache alone.
pub fn touching_finds_the_same()
    ensures { TouchingFindsTheSame }
{}

/// A cache never has more entries than its size.
pub fn no_more_than_the_size()
    ensures { NoMoreThanTheSize }
{}

/// The chain of a replica goes on with that of its parent.
pub fn chains_go_up()
    ensures { ChainsGoUp }
{}

/// A push counts at most 17,043,521 strings, put and missing together.
pub fn walks_are_short()
    ensures { WalksAreShort }
{}

/// Caches in which each string has its name are such after an offer and after a push.
pub fn names_are_kept()
    ensures { NamesAreKept }
{}

/// What a replica offers has the name that it was asked for, unless it is a lie of its own.
pub fn offers_are_named()
    ensures { OffersAreNamed }
{}

/// The walk of a push, which is defined on strings, is at the name of a version the walk of the tree of that
/// version: each string before those below it, from the left.
pub fn walks_follow_the_tree()
    ensures { WalksFollowTheTree }
{}
