// The forms of declarations.
ghost use Rattle.std.specs.Prelude.{◌≡◌, ◌∷◌, []};
ghost use Rattle.script_terms.specs.declared.verb.Verb.TheVariants as verbs;
ghost use Rattle.script_grammar.specs.Forms.{said};
ghost use Rattle.script_grammar.specs.Known as spec;
ghost use Rattle.script_grammar.specs.Results.{Gives};
ghost use Rattle.script_checks.specs.Next.{checked};
ghost use Rattle.script_text.specs.Texts.{texts};

use pond_base::limits::{LEAST_BLOCK, MOST_BLOCK, MOST_CLIENTS, MOST_FAULTY};
use script_checks::Known;
use script_terms::{Declaration, Item, LineFault, refused};
use script_words::number;

/// `pond 1`
pub(crate) fn pond(words: &[&[u8]]) -> Result<Item, LineFault>
    ensures { (k : spec.Known) → Gives (λ x. x) result (checked k (said verbs.Pond (texts words.now))) }
{
    match words {
        [version] => pond_one(version),
        _ => Err(refused::WORDS),
    }
}

fn pond_one(version: &[u8]) -> Result<Item, LineFault>
    ensures { (k : spec.Known) → Gives (λ x. x) result (checked k (said verbs.Pond (version.now ∷ []))) }
{
    if version == b"1".as_slice() {
        Ok(Item::Declared(Declaration::Pond))
    } else {
        Err(refused::WORDS)
    }
}

/// `ring F`
pub(crate) fn ring(words: &[&[u8]]) -> Result<Item, LineFault>
    ensures { (k : spec.Known) → Gives (λ x. x) result (checked k (said verbs.Ring (texts words.now))) }
{
    let [f] = words else {
        return Err(refused::WORDS);
    };
    let f = number(f)?;
    if f > u32::from(MOST_FAULTY) {
        return Err(refused::RANGE);
    }
    Ok(Item::Declared(Declaration::Ring { f: f as u8 }))
}

/// `faulty I`
pub(crate) fn faulty(known: &Known, words: &[&[u8]]) -> Result<Item, LineFault>
    ensures { Gives (λ x. x) result (checked known.now (said verbs.Faulty (texts words.now))) }
{
    let [member] = words else {
        return Err(refused::WORDS);
    };
    let member = number(member)?;
    let member = known.member(member)?;
    if known.is_faulty(member) {
        return Err(refused::RANGE);
    }
    Ok(Item::Declared(Declaration::Faulty { member }))
}

/// `block B`
pub(crate) fn block(words: &[&[u8]]) -> Result<Item, LineFault>
    ensures { (k : spec.Known) → Gives (λ x. x) result (checked k (said verbs.Block (texts words.now))) }
{
    let [size] = words else {
        return Err(refused::WORDS);
    };
    let size = number(size)?;
    if size < LEAST_BLOCK || size > MOST_BLOCK {
        return Err(refused::RANGE);
    }
    Ok(Item::Declared(Declaration::Block { size }))
}

/// `clients K`
pub(crate) fn clients(words: &[&[u8]]) -> Result<Item, LineFault>
    ensures { (k : spec.Known) → Gives (λ x. x) result (checked k (said verbs.Clients (texts words.now))) }
{
    let [count] = words else {
        return Err(refused::WORDS);
    };
    let count = number(count)?;
    if count < 1 || count > u32::from(MOST_CLIENTS) {
        return Err(refused::RANGE);
    }
    Ok(Item::Declared(Declaration::Clients { count: count as u8 }))
}

/// `home C member I`
pub(crate) fn home(known: &Known, words: &[&[u8]]) -> Result<Item, LineFault>
    ensures { Gives (λ x. x) result (checked known.now (said verbs.Home (texts words.now))) }
{
    match words {
        [client, what, member] => home_at(known, client, what, member),
        _ => Err(refused::WORDS),
    }
}

fn home_at(known: &Known, client: &[u8], what: &[u8], member: &[u8]) -> Result<Item, LineFault>
    ensures { Gives (λ x. x) result (checked known.now (said verbs.Home (client.now ∷ what.now ∷ member.now ∷ []))) }
{
    if what != b"member".as_slice() {
        return Err(refused::WORDS);
    }
    let client = number(client)?;
    let member = number(member)?;
    let client = known.client(client)?;
    let member = known.member(member)?;
    if known.has_home(client) {
        return Err(refused::RANGE);
    }
    Ok(Item::Declared(Declaration::Home { client, member }))
}
