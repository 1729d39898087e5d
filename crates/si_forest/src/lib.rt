//! The two substitution trees of an index: one of the literals of clauses, and one of their
//! subterms.
#![tactic(auto)]

mod location;
mod notes;
mod pair;
mod trees;

pub use si_descend::SearchMemory;
pub use trees::Trees;
