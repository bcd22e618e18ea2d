// The forms of `forge`.
ghost use Rattle.std.specs.Prelude.{◌≡◌, ◌∷◌, [], codes};
ghost use Rattle.script_terms.specs.declared.verb.Verb.TheVariants as verbs;
ghost use Rattle.script_grammar.specs.Forms.{said};
ghost use Rattle.script_grammar.specs.Results.{Gives};
ghost use Rattle.script_checks.specs.Next.{checked};
ghost use Rattle.script_text.specs.Shared.{order, prepare, commit};
ghost use Rattle.script_text.specs.Texts.{texts};

use crate::deliveries::declared;
use pond_base::{ClientId, MemberId, Party, Seq, Version};
use script_checks::{Known, slot};
use script_terms::{Item, Line, LineFault, refused};
use script_words::{data, label, name, number, party};
use std::alloc::Global;

/// What a faulty member sends to a party for a slot: a client's request, or its name.
#[derive(Clone, Copy, Debug)]
pub(crate) struct Forgery {
    pub(crate) member: MemberId,
    pub(crate) to: Party,
    pub(crate) seq: Seq,
    pub(crate) client: ClientId,
    pub(crate) number: u32,
}

/// `forge I Q KIND S C N` for an order, a prepare or a commit, `forge I Q heart LABEL V NAME`, and
/// `forge I Q raw DATA`
pub(crate) fn forge(alloc: Global, known: &Known, words: &[&[u8]]) -> Result<Item, LineFault>
    ensures { Gives (λ x. x) result (checked known.now (said verbs.Forge (texts words.now))) }
{
    match words {
        [member, to, kind, content] => forge_raw(alloc, known, member, to, kind, content),
        [member, to, kind, first, second, third] => {
            forge_by_kind(known, member, to, kind, first, second, third)
        }
        _ => Err(refused::WORDS),
    }
}

fn forge_raw(
    alloc: Global,
    known: &Known,
    member: &[u8],
    to: &[u8],
    kind: &[u8],
    content: &[u8],
) -> Result<Item, LineFault>
    ensures { Gives (λ x. x) result (checked known.now (said verbs.Forge (member.now ∷ to.now ∷ kind.now ∷ content.now ∷ []))) }
{
    if kind != b"raw".as_slice() {
        return Err(refused::WORDS);
    }
    let member = number(member)?;
    let to = party(to)?;
    let bytes = data(alloc, content)?;
    let member = known.faulty(member)?;
    let to = declared(known, to)?;
    Ok(Item::Event(Line::ForgeRaw { member, to, bytes }))
}

// The forms of six words, of which the kind says what the last three are.
fn forge_by_kind(
    known: &Known,
    member: &[u8],
    to: &[u8],
    kind: &[u8],
    first: &[u8],
    second: &[u8],
    third: &[u8],
) -> Result<Item, LineFault>
    ensures { Gives (λ x. x) result (checked known.now (said verbs.Forge (member.now ∷ to.now ∷ kind.now ∷ first.now ∷ second.now ∷ third.now ∷ []))) }
{
    if kind == b"order".as_slice() {
        let it = slot_forgery(known, member, to, first, second, third)?;
        return Ok(order(it));
    }
    if kind == b"prepare".as_slice() {
        let it = slot_forgery(known, member, to, first, second, third)?;
        return Ok(prepare(it));
    }
    if kind == b"commit".as_slice() {
        let it = slot_forgery(known, member, to, first, second, third)?;
        return Ok(commit(it));
    }
    if kind == b"heart".as_slice() {
        return forge_heart(known, member, to, first, second, third);
    }
    Err(refused::WORDS)
}

fn forge_heart(
    known: &Known,
    member: &[u8],
    to: &[u8],
    object: &[u8],
    version: &[u8],
    root: &[u8],
) -> Result<Item, LineFault>
    ensures { Gives (λ x. x) result (checked known.now (said verbs.Forge (member.now ∷ to.now ∷ codes "heart" ∷ object.now ∷ version.now ∷ root.now ∷ []))) }
{
    let member = number(member)?;
    let to = party(to)?;
    let label = label(object)?;
    let version = number(version)?;
    let name = name(root)?;
    let member = known.faulty(member)?;
    let to = declared(known, to)?;
    if version < 1 {
        return Err(refused::RANGE);
    }
    Ok(Item::Event(Line::ForgeHeart {
        member,
        to,
        label,
        version: Version(version),
        name,
    }))
}

// What the words of a forgery for a slot say, whichever of the three kinds it has.
fn slot_forgery(
    known: &Known,
    member: &[u8],
    to: &[u8],
    seq: &[u8],
    client: &[u8],
    request: &[u8],
) -> Result<Forgery, LineFault>
    ensures order { Gives order result (checked known.now (said verbs.Forge (member.now ∷ to.now ∷ codes "order" ∷ seq.now ∷ client.now ∷ request.now ∷ []))) }
    ensures prepare { Gives prepare result (checked known.now (said verbs.Forge (member.now ∷ to.now ∷ codes "prepare" ∷ seq.now ∷ client.now ∷ request.now ∷ []))) }
    ensures commit { Gives commit result (checked known.now (said verbs.Forge (member.now ∷ to.now ∷ codes "commit" ∷ seq.now ∷ client.now ∷ request.now ∷ []))) }
{
    let forger = number(member)?;
    let to = party(to)?;
    let seq = number(seq)?;
    let client = number(client)?;
    let request = number(request)?;
    let member = known.faulty(forger)?;
    let to = declared(known, to)?;
    let seq = slot(seq)?;
    let client = known.client(client)?;
    let number = known.request(client, request)?;
    Ok(Forgery {
        member,
        to,
        seq,
        client,
        number,
    })
}

fn order(it: Forgery) -> Item
    ensures { result ≡ order it }
{
    let Forgery {
        member,
        to,
        seq,
        client,
        number,
    } = it;
    Item::Event(Line::ForgeOrder {
        member,
        to,
        seq,
        client,
        number,
    })
}

fn prepare(it: Forgery) -> Item
    ensures { result ≡ prepare it }
{
    let Forgery {
        member,
        to,
        seq,
        client,
        number,
    } = it;
    Item::Event(Line::ForgePrepare {
        member,
        to,
        seq,
        client,
        number,
    })
}

fn commit(it: Forgery) -> Item
    ensures { result ≡ commit it }
{
    let Forgery {
        member,
        to,
        seq,
        client,
        number,
    } = it;
    Item::Event(Line::ForgeCommit {
        member,
        to,
        seq,
        client,
        number,
    })
}
