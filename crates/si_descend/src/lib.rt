//! The descent of a substitution tree (Graf 1996): which of its terms stand in a relation to a
//! query.
//!
//! It goes from a node to its children and makes their bindings fit, over a trail on which the
//! bindings of all nodes above are solved. Below a node whose bindings don't fit nothing is looked
//! at. Where a node's open indicators can be anything, all below it is walked and not solved. The
//! nodes that are still to be visited stand in a list, so no depth of a tree is too much.
#![tactic(auto)]

mod attempts;
mod counting;
mod descent;
mod ends;
mod heads;
mod memory;
mod pending;
mod rights;
mod search;
mod subtrees;
mod taken;
mod variants;

pub use counting::Counted;
pub use descent::{count, descend, descend_with, retrieve, slots_for};
pub use memory::SearchMemory;
pub use pending::Pending;
pub use rights::longest_right;
pub use si_flat::Kind;
pub use taken::Taken;
