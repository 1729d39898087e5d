//! Clause subsumption: the least map from the literals of one clause to those of another.
//!
//! Literals that share no variable are searched apart. A search goes through the literals of its
//! part in order, and for each through the targets with its head, as they rise. A trail holds the
//! bindings of the literals that have a target, and undoes those of the last one where no target is
//! left. No term is copied.
#![tactic(auto)]

mod apart;
mod chains;
mod cut;
mod flat;
mod heads;
mod literals;
mod parts;
mod search;
mod variables;

pub use flat::least_map_of;
pub use literals::least_map;
pub use si_flat::LitMap;
