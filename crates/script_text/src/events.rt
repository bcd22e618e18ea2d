// The forms of events that settle, read, show and send again.
ghost use Rattle.std.specs.Prelude.{◌≡◌, ◌∷◌, [], codes};
ghost use Rattle.script_terms.specs.declared.verb.Verb.TheVariants as verbs;
ghost use Rattle.script_grammar.specs.Forms.{said};
ghost use Rattle.script_grammar.specs.Known as spec;
ghost use Rattle.script_grammar.specs.Results.{Gives};
ghost use Rattle.script_checks.specs.Next.{checked};
ghost use Rattle.script_text.specs.Texts.{texts};

use pond_base::Version;
use script_checks::Known;
use script_terms::{Item, Line, LineFault, refused};
use script_words::{label, number};

/// `settle`
pub(crate) fn settle(words: &[&[u8]]) -> Result<Item, LineFault>
    ensures { (k : spec.Known) → Gives (λ x. x) result (checked k (said verbs.Settle (texts words.now))) }
{
    if words.is_empty() {
        Ok(Item::Event(Line::Settle))
    } else {
        Err(refused::WORDS)
    }
}

/// `resubmit C N`
pub(crate) fn resubmit(known: &Known, words: &[&[u8]]) -> Result<Item, LineFault>
    ensures { Gives (λ x. x) result (checked known.now (said verbs.Resubmit (texts words.now))) }
{
    let [sender, request] = words else {
        return Err(refused::WORDS);
    };
    let sender = number(sender)?;
    let request = number(request)?;
    let client = known.client(sender)?;
    let number = known.request(client, request)?;
    Ok(Item::Event(Line::Resubmit { client, number }))
}

/// `read C LABEL`
pub(crate) fn read(known: &Known, words: &[&[u8]]) -> Result<Item, LineFault>
    ensures { Gives (λ x. x) result (checked known.now (said verbs.Read (texts words.now))) }
{
    let [client, object] = words else {
        return Err(refused::WORDS);
    };
    let client = number(client)?;
    let label = label(object)?;
    let client = known.client(client)?;
    Ok(Item::Event(Line::Read { client, label }))
}

/// `show member I`, `show client C`, `show version I LABEL V`, `show recent`
pub(crate) fn show(known: &Known, words: &[&[u8]]) -> Result<Item, LineFault>
    ensures { Gives (λ x. x) result (checked known.now (said verbs.Show (texts words.now))) }
{
    match words {
        [what] => show_recent(what),
        [what, number] => show_party(known, what, number),
        [what, member, object, version] => show_version(known, what, member, object, version),
        _ => Err(refused::WORDS),
    }
}

fn show_recent(what: &[u8]) -> Result<Item, LineFault>
    ensures { (k : spec.Known) → Gives (λ x. x) result (checked k (said verbs.Show (what.now ∷ []))) }
{
    if what != b"recent".as_slice() {
        return Err(refused::WORDS);
    }
    Ok(Item::Event(Line::ShowRecent))
}

fn show_party(known: &Known, what: &[u8], number: &[u8]) -> Result<Item, LineFault>
    ensures { Gives (λ x. x) result (checked known.now (said verbs.Show (what.now ∷ number.now ∷ []))) }
{
    if what == b"member".as_slice() {
        return show_member(known, number);
    }
    if what == b"client".as_slice() {
        return show_client(known, number);
    }
    Err(refused::WORDS)
}

fn show_member(known: &Known, member: &[u8]) -> Result<Item, LineFault>
    ensures { Gives (λ x. x) result (checked known.now (said verbs.Show (codes "member" ∷ member.now ∷ []))) }
{
    let member = number(member)?;
    let member = known.member(member)?;
    Ok(Item::Event(Line::ShowMember { member }))
}

fn show_client(known: &Known, client: &[u8]) -> Result<Item, LineFault>
    ensures { Gives (λ x. x) result (checked known.now (said verbs.Show (codes "client" ∷ client.now ∷ []))) }
{
    let number = number(client)?;
    let client = known.client(number)?;
    Ok(Item::Event(Line::ShowClient { client }))
}

fn show_version(
    known: &Known,
    what: &[u8],
    member: &[u8],
    object: &[u8],
    version: &[u8],
) -> Result<Item, LineFault>
    ensures { Gives (λ x. x) result (checked known.now (said verbs.Show (what.now ∷ member.now ∷ object.now ∷ version.now ∷ []))) }
{
    if what != b"version".as_slice() {
        return Err(refused::WORDS);
    }
    let member = number(member)?;
    let label = label(object)?;
    let version = number(version)?;
    let member = known.member(member)?;
    if version < 1 {
        return Err(refused::RANGE);
    }
    Ok(Item::Event(Line::ShowVersion {
        member,
        label,
        version: Version(version),
    }))
}
