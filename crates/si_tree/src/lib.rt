//! Substitution trees (Graf 1996) that are always legal: `Legal.antt` of si_legal says which are.
#![tactic(auto)]

mod count;
mod dropping;
mod fork;
mod hashed;
mod heads;
mod node;
mod numbers;
mod places;
mod postings;
mod renumber;
mod rights;
mod tree;

pub use node::{Counts, Head, NodeId};
pub use postings::Postings;
pub use rights::head_of;
pub use si_legal::Posting;
pub use tree::Tree;
