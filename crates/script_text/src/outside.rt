// The forms of events outside the ring.
ghost use Rattle.std.specs.Prelude.{◌≡◌, ◌∷◌, []};
ghost use Rattle.script_terms.specs.declared.verb.Verb.TheVariants as verbs;
ghost use Rattle.script_grammar.specs.Forms.{said};
ghost use Rattle.script_grammar.specs.Results.{Gives};
ghost use Rattle.script_checks.specs.Next.{checked};
ghost use Rattle.script_text.specs.Shared.{cutting, mending};
ghost use Rattle.script_text.specs.Texts.{texts};

use script_checks::Known;
use script_terms::{Item, Line, LineFault, Spot, refused};
use script_words::number;

/// `cut member I`
pub(crate) fn cut(known: &Known, words: &[&[u8]]) -> Result<Item, LineFault>
    ensures { Gives (λ x. x) result (checked known.now (said verbs.Cut (texts words.now))) }
{
    let [what, number] = words else {
        return Err(refused::WORDS);
    };
    let spot = spot(known, what, number)?;
    Ok(Item::Event(Line::Cut { spot }))
}

/// `mend member I`
pub(crate) fn mend(known: &Known, words: &[&[u8]]) -> Result<Item, LineFault>
    ensures { Gives (λ x. x) result (checked known.now (said verbs.Mend (texts words.now))) }
{
    let [what, number] = words else {
        return Err(refused::WORDS);
    };
    let spot = spot(known, what, number)?;
    Ok(Item::Event(Line::Mend { spot }))
}

// The place that two words name.
fn spot(known: &Known, what: &[u8], place: &[u8]) -> Result<Spot, LineFault>
    ensures cut { Gives cutting result (checked known.now (said verbs.Cut (what.now ∷ place.now ∷ []))) }
    ensures mend { Gives mending result (checked known.now (said verbs.Mend (what.now ∷ place.now ∷ []))) }
{
    if what != b"member".as_slice() {
        return Err(refused::WORDS);
    }
    let member = number(place)?;
    let member = known.member(member)?;
    Ok(Spot::Member(member))
}
