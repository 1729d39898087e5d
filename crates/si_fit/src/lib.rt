//! Bindings that are made to fit those of a trail.
#![tactic(auto)]

mod ends;
mod filling;
mod fitting;
mod meeting;
mod occurring;
mod walking;

pub use ends::end_of;
pub use fitting::fit;
