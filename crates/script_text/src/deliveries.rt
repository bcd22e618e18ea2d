// The forms of events that deliver, lose and mute.
ghost use Rattle.script_terms.specs.declared.cause.Cause.TheVariants as causes;
ghost use Rattle.script_terms.specs.declared.verb.Verb.TheVariants as verbs;
ghost use Rattle.script_grammar.specs.Forms.{said};
ghost use Rattle.script_grammar.specs.Results.{Gives, where_holds};
ghost use Rattle.script_grammar.specs.Asks.{is_party};
ghost use Rattle.script_words.specs.Parties.{party_of_number};
ghost use Rattle.script_checks.specs.Next.{checked};
ghost use Rattle.script_text.specs.Shared.{delivery, loss};
ghost use Rattle.script_text.specs.Texts.{texts};

use pond_base::Party;
use script_checks::Known;
use script_terms::{Item, Line, LineFault, refused};
use script_words::{PartyNumber, number, party};

/// `deliver P Q K`
pub(crate) fn deliver(known: &Known, words: &[&[u8]]) -> Result<Item, LineFault>
    ensures { Gives (λ x. x) result (checked known.now (said verbs.Deliver (texts words.now))) }
{
    let (from, to, place) = message(known, words)?;
    Ok(Item::Event(Line::Deliver { from, to, place }))
}

/// `lose P Q K`
pub(crate) fn lose(known: &Known, words: &[&[u8]]) -> Result<Item, LineFault>
    ensures { Gives (λ x. x) result (checked known.now (said verbs.Lose (texts words.now))) }
{
    let (from, to, place) = message(known, words)?;
    Ok(Item::Event(Line::Lose { from, to, place }))
}

// The message that words name: who sends it to whom, and its place among those.
fn message(known: &Known, words: &[&[u8]]) -> Result<(Party, Party, u32), LineFault>
    ensures deliver { Gives delivery result (checked known.now (said verbs.Deliver (texts words.now))) }
    ensures lose { Gives loss result (checked known.now (said verbs.Lose (texts words.now))) }
{
    let [from, to, place] = words else {
        return Err(refused::WORDS);
    };
    let from = party(from)?;
    let to = party(to)?;
    let place = number(place)?;
    let from = declared(known, from)?;
    let to = declared(known, to)?;
    if place < 1 {
        return Err(refused::RANGE);
    }
    Ok((from, to, place))
}

/// `mute P`
pub(crate) fn mute(known: &Known, words: &[&[u8]]) -> Result<Item, LineFault>
    ensures { Gives (λ x. x) result (checked known.now (said verbs.Mute (texts words.now))) }
{
    let [who] = words else {
        return Err(refused::WORDS);
    };
    let who = party(who)?;
    let party = declared(known, who)?;
    Ok(Item::Event(Line::Mute { party }))
}

/// `unmute P`
pub(crate) fn unmute(known: &Known, words: &[&[u8]]) -> Result<Item, LineFault>
    ensures { Gives (λ x. x) result (checked known.now (said verbs.Unmute (texts words.now))) }
{
    let [who] = words else {
        return Err(refused::WORDS);
    };
    let who = party(who)?;
    let party = declared(known, who)?;
    Ok(Item::Event(Line::Unmute { party }))
}

/// The party of a number, which is out of range where it is not declared.
pub(crate) fn declared(known: &Known, party: PartyNumber) -> Result<Party, LineFault>
    ensures { Gives (λ x. x) result (where_holds (is_party known.now (party_of_number party)) causes.Range (party_of_number party)) }
{
    match party {
        PartyNumber::Member(number) => Ok(Party::Member(known.member(number)?)),
        PartyNumber::Client(number) => Ok(Party::Client(known.client(number)?)),
    }
}
