//! The definitions of substitution trees: what they hold, and what they answer. They stand in
//! `specs/`, and `docs/DEFINITIONS.md` leads through them. The plain values that the code shares
//! with them are declared here.
#![tactic(auto)]

/// Where an entry is kept: the key of its clause, and its number from 0 among the clause's
/// entries.
#[derive(Clone, Copy, Debug, PartialEq, Eq)]
pub struct Posting {
    /// The key of the clause.
    pub clause: usize,
    /// The number of the entry.
    pub entry: u32,
}
