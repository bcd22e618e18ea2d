// Submits.
ghost use Rattle.std.specs.Prelude.{◌≡◌, ◌∷◌};
ghost use Rattle.script_terms.specs.declared.verb.Verb.TheVariants as verbs;
ghost use Rattle.script_grammar.specs.Forms.{said};
ghost use Rattle.script_grammar.specs.Results.{Gives};
ghost use Rattle.script_checks.specs.Next.{checked};
ghost use Rattle.script_text.specs.Texts.{texts};

use script_checks::{Known, changing, in_size};
use script_terms::{Item, Line, LineFault, refused};
use script_words::{clauses, groups, label, number};
use std::alloc::Global;

/// `submit C LABEL UPDATE`
pub(crate) fn submit(alloc: Global, known: &Known, words: &[&[u8]]) -> Result<Item, LineFault>
    ensures { Gives (λ x. x) result (checked known.now (said verbs.Submit (texts words.now))) }
{
    match words {
        [client, object, update @ ..] => submit_of(alloc, known, client, object, update),
        _ => Err(refused::WORDS),
    }
}

fn submit_of(
    alloc: Global,
    known: &Known,
    client: &[u8],
    object: &[u8],
    update: &[&[u8]],
) -> Result<Item, LineFault>
    ensures { Gives (λ x. x) result (checked known.now (said verbs.Submit (client.now ∷ object.now ∷ texts update.now))) }
{
    let groups = groups(alloc, update)?;
    let client = number(client)?;
    let label = label(object)?;
    let clauses = clauses(alloc, &groups)?;
    let client = known.client(client)?;
    let clauses = changing(clauses)?;
    let clauses = in_size(clauses)?;
    Ok(Item::Event(Line::Submit {
        client,
        label,
        clauses,
    }))
}
