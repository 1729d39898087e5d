//! The entries of a clause, one after the other: each with its place, or each as a flat term.
#![tactic(auto)]

mod flat;
mod numbers;
mod walk;

pub use flat::FlatEntries;
pub use walk::Entries;
