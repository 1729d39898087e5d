//! Puts postings into a substitution tree.
#![tactic(auto)]

mod fit;
mod inserting;
mod open;
mod parting;
mod pass;

pub use inserting::{insert, insert_cells};
pub use open::Openings;
