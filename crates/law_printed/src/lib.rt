//! What is printed of a scenario that may be run, in clauses that reach few definitions: those of `top` say more, and reach the
//! whole grammar of texts and all that a node does.
#![tactic(auto)]

mod printed;

pub use printed::a_run_is_printed;
