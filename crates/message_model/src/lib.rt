//! What bytes mean in the model of agreement, whose messages are plain data.
//!
//! It stands on ring_model and on the grammars of requests and messages. `meaning` is one function from
//! bytes to the model's messages: the message that the bytes spell, and `Foreign` where they spell none;
//! `request_read` is the request that bytes spell, if they spell one. Both take the fields where they
//! would stand, and then compare the spelling. The functions have no code; their contracts are the laws
//! by which a program that reads and writes messages speaks the model's language.
#![tactic(auto)]

ghost use Rattle.message_model.specs.Laws.{RequestsAreRead, OnlyRequestsAreRead, MessagesAreMeant, OthersAreForeign};

/// A request is read from its spelling.
pub fn requests_are_read()
    ensures { RequestsAreRead }
{}

/// Whatever is read is a request, and the bytes are its spelling.
pub fn only_requests_are_read()
    ensures { OnlyRequestsAreRead }
{}

/// The spelling of a message means it.
pub fn messages_are_meant()
    ensures { MessagesAreMeant }
{}

/// All other bytes are foreign.
pub fn others_are_foreign()
    ensures { OthersAreForeign }
{}
