//! Votes on shared words: what a board of them keeps, in every schedule.
//!
//! The members of a board share words, two for each member and slot, and each word is written once:
//! a prepare word by an exchange from 0 to a value, a commit word by one to the value that 2f+1
//! prepare words of the slot have. A seat is what one thread knows of the words. There is no code
//! here: six kinds of step are defined, with the rule that each of them keeps, and each function is
//! a law. That two quorums meet is a law of `ring_model`. The crate `vote_board` shows that its
//! calls are such steps.
#![tactic(auto)]

ghost use Rattle.vote_words_model.specs.Laws.{OpeningIsKept, StepsKeep, WordsStay, CommitsAgree};
ghost use Rattle.vote_words_model.specs.Laws.{ViewsAreSound, DecidesOne, AllDecideOne};
ghost use Rattle.vote_words_model.specs.Schedules.{OneMemberDecides, TwoWordsAreNoQuorum};

use pond_base::Items;
use std::collections::LinkedList;

/// What a board is made with: f of its 3f+1 members, how many slots it has, and for each member of
/// each slot, slot after slot, the one value that it may prepare there, or 0 where it may prepare
/// any.
#[derive(Debug, Drop)]
pub struct Terms {
    pub f: u8,
    pub slots: u32,
    pub may: Items<u32>,
}

/// What a seat knows: words with their values, and which words it has loaded and which it has set,
/// in order. No value of it is made.
pub struct View {
    pub known: LinkedList<(u64, u64)>,
    pub loads: LinkedList<u64>,
    pub sets: LinkedList<u64>,
}

/// The board as it opens keeps the rule.
pub fn opening_is_kept()
    ensures { OpeningIsKept }
{}

/// Each step keeps the rule.
pub fn steps_keep()
    ensures { StepsKeep }
{}

/// A word that is not 0 is the same after each step.
pub fn words_stay()
    ensures { WordsStay }
{}

/// Two commit words of a slot that are not 0 have one value.
pub fn commits_agree()
    ensures { CommitsAgree }
{}

/// No seat knows a word with two values.
pub fn views_are_sound()
    ensures { ViewsAreSound }
{}

/// No seat has decided two values for a slot.
pub fn decides_one()
    ensures { DecidesOne }
{}

/// In every schedule, what two seats have decided for a slot is one value, also where they decided
/// it at different times.
pub fn all_decide_one()
    ensures { AllDecideOne }
{}

// ---- Boards that guard the definitions, which the checker computes

/// The conditions of the steps can be met: a board of one member decides.
pub fn one_member_decides()
    ensures { OneMemberDecides }
{}

/// Two words are no quorum of four, however often one of them is known; four words are.
pub fn two_words_are_no_quorum()
    ensures { TwoWordsAreNoQuorum }
{}
