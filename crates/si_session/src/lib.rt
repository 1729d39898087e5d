//! Commands: one line of input, its reply, and the clauses that are then kept.
#![tactic(auto)]

mod adding;
mod answer;
mod command;
mod explaining;
mod number;
mod refusals;
mod reply;
mod sample;
mod separator;
mod session;
mod short_reply;
mod stepped;
mod subsumption;
mod trees;
mod word;

pub use session::Session;
pub use si_steps::Limits;
pub use stepped::Stepped;
