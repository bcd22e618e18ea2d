// The lines so far, and what is known of them.
ghost use Rattle.std.specs.Prelude.{◌≡◌, ◌∷◌, nat_le, [], IfOk};
ghost use Rattle.std.specs.List.{flat_map};
ghost use Rattle.script_grammar.specs.Known as known;
ghost use Rattle.script_grammar.specs.Script.{items, line_after, event_in, script_by};
ghost use Rattle.script_grammar.specs.Steps.{item_of, Fits};
ghost use Rattle.script_grammar.specs.Results.{Gives};
ghost use Rattle.script_text.specs.Texts.{texts};
ghost use Rattle.script_text.specs.Lines.{said_after, placed_after};

use crate::verbs::{rank, said, verb};
use pond_base::{Items, OutOfMemory};
use script_checks::{Known, Load};
use script_terms::{Item, Line, LineFault, Placed, Script, refused};
use script_words::{is_comment, is_plain_line, words};
use std::alloc::Global;
use std::marker::Model;

/// The lines so far, of which none has a fault, with what is known of them. Contracts see the list of
/// what they say, the newest first.
#[derive(Drop)]
pub(crate) struct State {
    known: Known,
    load: Load,
    placed: Vec<Placed>,
}

impl Model for State {
    ghost use Rattle.std.specs.Prelude.{List, reverse};
    ghost use Rattle.script_terms.specs.declared.item.Placed.{Placed};
    ghost use Rattle.script_text.specs.Stands.{StandsFor};

    ghost Value = { List Placed };

    ghost view = { λ s. reverse s.placed.items };

    ghost invariant = { λ s. StandsFor s.known s.load (reverse s.placed.items) };
}

impl State {
    /// No line.
    pub(crate) fn new(alloc: Global) -> State
        ensures { result ≡ [] }
    {
        State {
            known: Known::new(alloc),
            load: Load::new(alloc),
            placed: Vec::new(alloc),
        }
    }

    /// The script of the lines.
    pub(crate) fn into_script(self, alloc: Global) -> Result<Script, OutOfMemory>
        ensures { IfOk result (λ script. script ≡ script_by self) }
    {
        let State { known, placed, .. } = self;
        let homes = known.homes(alloc)?;
        let lines = events(alloc, placed)?;
        Ok(Script {
            setup: known.into_setup(),
            replicas: Items::new(alloc),
            homes,
            lines,
        })
    }

    /// Whether the two lines that stand first have come.
    pub(crate) fn has_heads(&self) -> bool
        ensures { result ≡ nat_le 2 (known.known (items self.now)).last }
    {
        self.known.has_heads()
    }

    /// The lines with one more: step 1 first.
    pub(crate) fn after(self, alloc: Global, number: u32, line: &[u8]) -> Result<State, LineFault>
        ensures { Gives (λ s. s) result (line_after number self line.now) }
    {
        if !is_plain_line(line) {
            return Err(refused::BYTE);
        }
        let words = words(alloc, line)?;
        self.after_words(alloc, number, &words)
    }

    fn after_words(self, alloc: Global, number: u32, words: &[&[u8]]) -> Result<State, LineFault>
        ensures { Gives (λ s. s) result (said_after number self (texts words.now)) }
    {
        match words {
            [] => Ok(self),
            [word, rest @ ..] => self.after_verb(alloc, number, word, rest),
        }
    }

    fn after_verb(
        self,
        alloc: Global,
        number: u32,
        word: &[u8],
        words: &[&[u8]],
    ) -> Result<State, LineFault>
        ensures { Gives (λ s. s) result (said_after number self (word.now ∷ texts words.now)) }
    {
        if is_comment(word) {
            return Ok(self);
        }
        let item = self.item(alloc, word, words)?;
        self.with(alloc, number, item)
    }

    // What a line says: steps 2 to 7.
    fn item(&self, alloc: Global, word: &[u8], words: &[&[u8]]) -> Result<Item, LineFault>
        ensures { Gives (λ x. x) result (item_of (items self.now) word.now (texts words.now)) }
    {
        let Some(verb) = verb(word) else {
            return Err(refused::VERB);
        };
        if !self.known.is_in_order(rank(verb)) {
            return Err(refused::ORDER);
        }
        said(alloc, &self.known, verb, words)
    }

    // The lines with what one more says, where no counted limit is passed: step 8.
    fn with(self, alloc: Global, number: u32, item: Item) -> Result<State, LineFault>
        requires { Fits (items self) item }
        ensures { Gives (λ s. s) result (placed_after number self item) }
    {
        let State {
            mut known,
            mut load,
            mut placed,
        } = self;
        known.add(&item)?;
        let block = known.block();
        load.add_item(block, &item)?;
        if !known.has_room() {
            return Err(refused::FULL);
        }
        if !load.is_borne(block) {
            return Err(refused::FULL);
        }
        placed.push(Placed { line: number, item })?;
        Ok(State {
            known,
            load,
            placed,
        })
    }
}

// The events among lines, each with the number of its line.
fn events(alloc: Global, placed: Vec<Placed>) -> Result<Items<(u32, Line)>, OutOfMemory>
    ensures { IfOk result (λ lines. lines ≡ flat_map event_in placed.items) }
{
    let mut lines = Items::new(alloc);
    for one in placed {
        let Placed { line: number, item } = one;
        if let Item::Event(line) = item {
            lines.push((number, line))?;
        }
    }
    Ok(lines)
}
