//! Takes postings out of substitution trees. A leaf that is then without a posting goes, and where
//! its parent is left with one child, both are joined to one node, with their bindings composed.
//! `Pruning.antt` says what that does.
#![tactic(auto)]

mod composing;
mod finding;
mod removing;

pub use composing::compose;
pub use removing::{remove, try_remove};
