//! Worked examples of the definitions of substitution trees: what holds by them, and what does not.
//! Each is a clause of a function with no code, so that a check proves it. The statements stand in
//! `specs/`, one file a subject.
#![tactic(auto)]

mod changes;
mod descents;
mod insertions;
mod kept;
mod numbers;
mod open_nodes;
mod removals;
mod splits;
mod trees;

pub use changes::changed_trees;
pub use descents::answered_postings;
pub use insertions::inserted_terms;
pub use kept::{changed_clauses, kept_clauses};
pub use numbers::renumbered_trees;
pub use open_nodes::{counted_nodes, nodes_of_each_tree, open_paths};
pub use removals::{joined_nodes, removed_postings};
pub use splits::{split_bindings, wrong_splits};
pub use trees::{illegal_contents, illegal_links, illegal_trees, legal_trees};
