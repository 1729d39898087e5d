//! Loads: the clauses of a file and of the files that it includes, added to a store.
//!
//! [`expand`] reads files that it fetches from a library, [`take_text`] one text of clauses alone.
//! A load that is refused leaves the store as it was.
#![tactic(auto)]

mod faults;
mod files;
mod loading;
mod names;
mod reading;
mod store;
mod texts;

pub use faults::{HarvestFault, HarvestLimits, Loaded};
pub use loading::expand;
pub use store::roll_back;
pub use texts::take_text;
