//! The definitions of what a list of clauses accepts, and what it answers. They stand in `specs/`,
//! and `docs/DEFINITIONS.md` leads through them. The bounds of a sample, which the code shares with
//! them, are declared here.
#![tactic(auto)]

/// The greatest start that a sample may be asked for with.
pub const GREATEST_START: u32 = 2_147_483_647;

/// A sample may be asked for with no more clauses than this.
pub const MOST_DRAWN: u32 = 10_000;
