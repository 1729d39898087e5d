//! The clauses that are kept, and what is asked of them.
#![tactic(auto)]

mod engine;
mod explain;
mod found;
mod gather;
mod holding;
mod index;
mod name_keys;
mod names;
mod register;
mod search;
mod subsuming;
mod variables;
mod wanted;

pub use engine::Engine;
pub use explain::Explained;
pub use found::{Found, Hit, Lent, Shown};
pub use index::{Index, Stats, TreeCounts};
pub use si_defs::Relation;
pub use si_flat::LitMap;
pub use si_forest::{SearchMemory, Trees};
pub use si_tree::{Counts, Posting};
pub use subsuming::{Mapped, Mappeds};
