//! The plainest engine: a look at each entry that is kept.
#![tactic(auto)]

mod question;
mod scan;

pub use scan::Scan;
