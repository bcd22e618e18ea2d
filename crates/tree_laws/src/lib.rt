//! Laws of the definition of trees that rest on what is proved of them in `cow_tree`.
//!
//! The function below has no code; its contract is the law.
#![tactic(auto)]

ghost use Rattle.tree_laws.specs.Laws as law;

/// The rows of a content of at least one byte end in a row of one string, whose name the root gives.
pub fn rows_end_in_one_string()
    ensures { law.RowsEndInOneString }
{}
