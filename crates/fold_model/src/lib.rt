//! The ring whose members fold what they execute, as definitions: the model of objects joined to the
//! model of agreement.
//!
//! It stands on both, on the reading of requests of `message_model`, and on the definitions of
//! `object_fold`. `Folds` says what a list of request strings does: the outcome of its last request, the
//! version that it makes, the strings that are named for it, and the versions that were made. `Rings`
//! has the ring that is made of these functions. The functions below have no code; their contracts are
//! laws, by which what clients believe is what the fold of the one committed list gives. Those of `Laws`
//! speak of an object's name, and of some label that has it; those of `LabelLaws` of a label, where no
//! two labels in question have one name.
#![tactic(auto)]

ghost use Rattle.fold_model.specs.Laws.{SealsStay, RingIsRead, RingFolds, OutcomesAreSpelled, OneBlock, HeartIsVersion, SealIsManifest, ReplyIsOutcome};
ghost use Rattle.fold_model.specs.LabelLaws.{MadeVersionsRise, LastIsTold, HeartIsOfLabel};

/// What was sealed stays sealed.
pub fn seals_stay()
    ensures { SealsStay }
{}

/// The ring of a fold reads requests as the grammar does.
pub fn ring_is_read()
    ensures { RingIsRead }
{}

/// The ring of a fold has the outcomes, the hearts and the namings of the fold.
pub fn ring_folds()
    ensures { RingFolds }
{}

/// The outcome at a place of a list, as it is spelled, is that of the requests up to the place.
pub fn outcomes_are_spelled()
    ensures { OutcomesAreSpelled }
{}

/// A ring folds by one number of bytes for a leaf.
pub fn one_block()
    ensures { OneBlock }
{}

/// A heart that a client believes is the name of that version in the fold of the committed list.
pub fn heart_is_version()
    ensures { HeartIsVersion }
{}

/// A seal that a client believes is the name of the manifest of that version.
pub fn seal_is_manifest()
    ensures { SealIsManifest }
{}

/// A reply that a client believes is the outcome at a slot of the committed list that holds its
/// request, and where it is not that of a repeat at the first of them.
pub fn reply_is_outcome()
    ensures { ReplyIsOutcome }
{}

/// The versions of an object rise along any list of requests whose labels have names of their own.
pub fn made_versions_rise()
    ensures { MadeVersionsRise }
{}

/// Where member 0 is correct and all was delivered, each client's heart of a label is that of its last
/// version, and there is none where no version was made.
pub fn last_is_told()
    ensures { LastIsTold }
{}

/// A heart that a client believes of a label is the name of that label's version in the fold of the
/// committed list.
pub fn heart_is_of_label()
    ensures { HeartIsOfLabel }
{}
