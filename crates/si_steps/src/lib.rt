//! The definitions of what a command, a reply, a step and a run are. They stand in `specs/`, and
//! `docs/DEFINITIONS.md` leads through them. The words of commands and the limits of a session,
//! which the code shares with them, are declared here.
#![tactic(auto)]

mod limits;
mod word;

pub use limits::Limits;
pub use word::Word;
