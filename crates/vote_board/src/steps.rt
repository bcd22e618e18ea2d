// The rule of a board's words, and what each step on them tells a seat.
use atomic_table::{Join, Play, Split, TableRule};
use vote_words_model::{Terms, View};

// The rule: what seats know stands, and commit words are backed by prepare words.
pub struct Keeping;

impl TableRule<(), View, Terms> for Keeping {
    ghost use Rattle.vote_words_model.specs.Views.{blank};
    ghost use Rattle.vote_board.specs.Telling.{Holds};

    ghost holds = { Holds };

    ghost first = { λ _. blank };
}

// A load of a word.
pub struct Loading;

impl Play<(), View> for Loading {
    ghost use Rattle.vote_board.specs.Telling.{TellsLoad};

    ghost then = { TellsLoad };
}

// An exchange of a prepare word.
pub struct Preparing;

impl Play<(), View> for Preparing {
    ghost use Rattle.vote_board.specs.Telling.{TellsExchange};

    ghost then = { TellsExchange };
}

// An exchange of a commit word.
pub struct Committing;

impl Play<(), View> for Committing {
    ghost use Rattle.vote_board.specs.Telling.{TellsCommit};

    ghost then = { TellsCommit };
}

// A load of word 0, which adds nothing to what is known.
pub struct Comparing;

impl Play<(), View> for Comparing {
    ghost use Rattle.vote_board.specs.Telling.{TellsNothing};

    ghost then = { TellsNothing };
}

// A copy of what a seat knows.
pub struct Copying;

impl Split<View> for Copying {
    ghost left = { λ v. v };

    ghost right = { λ v. v };
}

// What two seats know, in one of them.
pub struct Joining;

impl Join<View> for Joining {
    ghost use Rattle.vote_words_model.specs.Views.{blank, joined};

    ghost both = { joined };

    ghost spent = { blank };
}
