//! The text that a script prints, as definitions.
//!
//! `Requests` says which requests the lines of a script submit, from the list of all lines before and
//! with no state; `Events` which events of the ring they are, `Outside` what they change outside it, and
//! `State` puts all parts that lines leave into one record. `Executed` and `Believed` say what members and
//! clients make of the events; `Named` which strings each line names, `Clashes` where two of them have one
//! name; `Blocks` what each form prints, and `Text` what a script prints, up to the first clash. They
//! stand on the grammar's scripts, on the versions of object_model and on the model of agreement. The functions
//! below have no code; their contracts are worked scripts, computed by the definitions. The crates above
//! prove that the program writes exactly this text.
#![tactic(auto)]

ghost use Rattle.std.specs.Prelude.{[], ◌∷◌, codes};
ghost use Rattle.text_model.specs.Worked.{Prints, Leaves, itself, folded, one_name};

/// What is appended and not settled is not there yet.
pub fn append_and_read_back()
    ensures unsettled { Prints itself (codes "pond 1" ∷ codes "ring 0" ∷ codes "submit 0 a append 6869" ∷ codes "read 0 a" ∷ [])
        (codes "no heart" ∷ []) }
    ensures nothing { Prints itself (codes "pond 1" ∷ codes "ring 0" ∷ []) [] }
{}

/// A client that was told nothing believes no outcome and has no heart.
pub fn nothing_told()
    ensures { Prints itself (codes "pond 1" ∷ codes "ring 0" ∷ codes "clients 2" ∷ codes "submit 1 a append 6869" ∷ codes "show client 1" ∷ codes "show client 0" ∷ [])
        (codes "client 1 requests 1" ∷ codes "1 pending" ∷ codes "client 0 requests 0" ∷ []) }
{}

/// A place that is cut is one that was cut and not mended since, however often each came.
pub fn cut_places()
    ensures two { Leaves (codes "pond 1" ∷ codes "ring 1" ∷ codes "cut member 2" ∷ codes "cut member 0" ∷ codes "cut member 2" ∷ []) (2 ∷ 0 ∷ []) }
    ensures one { Leaves (codes "pond 1" ∷ codes "ring 1" ∷ codes "cut member 2" ∷ codes "cut member 0" ∷ codes "mend member 2" ∷ codes "mend member 1" ∷ []) (0 ∷ []) }
{}

/// A run ends at the first line up to which two different strings have one name.
pub fn clash_at_execution()
    ensures guard { Prints folded
        (codes "pond 1" ∷ codes "ring 0" ∷ codes "read 0 a" ∷ codes "submit 0 a if block 0 61ee and block 1 ee61 then append 61" ∷ [])
        (codes "no heart" ∷ codes "clash 4" ∷ []) }
    ensures start { Prints one_name (codes "pond 1" ∷ codes "ring 0" ∷ codes "read 0 a" ∷ []) (codes "clash 0" ∷ []) }
{}
