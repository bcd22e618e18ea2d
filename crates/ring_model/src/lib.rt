//! How a ring of 3f+1 members agrees on one list of requests, with no code in sight.
//!
//! The ring is a model that stands on nothing: its parties, messages and events are plain data, and
//! what a member makes of its letters is defined by recounting the whole list. Each function here is a
//! law: it does nothing, and its contract is a statement about every legal list of events. The layers
//! above show that their code stands for this model and call these functions for what then holds:
//! `agrees` and `grows` of the committed list, `only_submitted` and `chosen_is_held` of what is in it,
//! the laws of belief of what clients are told, and `all_executed`, `all_answered` and `all_told` of a
//! run in which everything was delivered. The last ones are schedules that guard the definitions.
#![tactic(auto)]

ghost use Rattle.ring_model.specs.Laws.{QuorumsMeet, AllOwed, OneName, OnlySubmitted, Agrees, Grows, HeldByMany, ChosenIsHeld, BelievedIsOwed, BelievedHeart, BelievedSeal, BelievedReply, AllExecuted, AllAnswered, AllTold, FewSent, SentDeclared};
ghost use Rattle.ring_model.specs.Schedules.{PrimaryOrdersTwice, PrimaryEquivocates, TwoSendersAreNotThree, MutedMember, PreparedIsNotCommitted, FirstOrderStands, OrderedByNumber, OneHeartIsNotBelieved, FullDelivery};

/// Any two sets of 2f+1 of the 3f+1 members share a correct one, where at most f are faulty.
pub fn quorums_meet()
    ensures { QuorumsMeet }
{}

/// Each message that was sent in a correct party's name is one that it owes: a client sends what it
/// submitted, and a member what follows from its letters. So is each letter that was delivered.
pub fn all_owed()
    ensures { AllOwed }
{}

/// Two requests that are prepared in one slot, at any two members, have one name.
pub fn one_name()
    ensures { OneName }
{}

/// Each request that a member executes was submitted by the client that it names.
pub fn only_submitted()
    ensures { OnlySubmitted }
{}

/// Each correct member's executed list is a prefix of the committed list, unless two submitted
/// requests have one name.
pub fn agrees()
    ensures { Agrees }
{}

/// The committed list only grows: what it is now is a prefix of what it is after more events.
pub fn grows()
    ensures { Grows }
{}

/// A request that some member holds for committed in a slot is prepared in that slot at f+1 correct
/// members.
pub fn held_by_many()
    ensures { HeldByMany }
{}

/// Each request of the committed list is prepared in its slot at f+1 correct members.
pub fn chosen_is_held()
    ensures { ChosenIsHeld }
{}

/// Whatever a client believes, of whatever kind of message, some correct member owes it to that client.
pub fn believed_is_owed()
    ensures { BelievedIsOwed }
{}

/// A heart that a client believes is the root's name of a version that a prefix of the committed list makes.
pub fn believed_heart()
    ensures { BelievedHeart }
{}

/// A seal that a client believes is the manifest's name of a version that the committed list makes.
pub fn believed_seal()
    ensures { BelievedSeal }
{}

/// A reply that a client believes is the outcome at a slot of the committed list that holds its request.
pub fn believed_reply()
    ensures { BelievedReply }
{}

/// Where member 0 is correct and all was delivered, each correct member has executed each submitted request.
pub fn all_executed()
    ensures { AllExecuted }
{}

/// Where member 0 is correct and all was delivered, each client believes the outcome of each of its requests.
pub fn all_answered()
    ensures { AllAnswered }
{}

/// Where member 0 is correct and all was delivered, each client's heart of an object is the last
/// version that the committed list makes of it, where the versions of an object rise along that list.
pub fn all_told()
    ensures { AllTold }
{}

/// However often messages are delivered, no more than this many are ever sent.
pub fn few_sent()
    ensures { FewSent }
{}

/// Each message that was sent goes from a declared party to a declared party.
pub fn sent_declared()
    ensures { SentDeclared }
{}

// ---- Schedules, which the checker computes

/// A primary that is faulty orders one request twice: it is executed in both slots and changes
/// nothing the second time.
pub fn primary_orders_twice()
    ensures { PrimaryOrdersTwice }
{}

/// A primary that is faulty orders two requests in one slot and votes for the second: that one alone
/// is executed.
pub fn primary_equivocates()
    ensures { PrimaryEquivocates }
{}

/// Two senders are not three, however often one of them votes.
pub fn two_senders_are_not_three()
    ensures { TwoSendersAreNotThree }
{}

/// Three of four members execute what the fourth is told nothing of.
pub fn muted_member()
    ensures { MutedMember }
{}

/// A slot that is prepared at a member is not executed there before it is committed.
pub fn prepared_is_not_committed()
    ensures { PreparedIsNotCommitted }
{}

/// Of two orders for one slot the first counts, and only once its request came from its client.
pub fn first_order_stands()
    ensures { FirstOrderStands }
{}

/// The primary orders a client's requests by their numbers, however they come.
pub fn ordered_by_number()
    ensures { OrderedByNumber }
{}

/// A heart from one correct member is not believed, nor one that a faulty member sends twice.
pub fn one_heart_is_not_believed()
    ensures { OneHeartIsNotBelieved }
{}

/// The conditions of the laws of full delivery can be met: by a ring of one member that was given all.
pub fn full_delivery()
    ensures { FullDelivery }
{}
