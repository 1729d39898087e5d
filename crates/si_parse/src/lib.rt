//! Reading: from bytes to items, patterns, formulas and names.
//!
//! [`grammar`] reads tokens by the grammar; [`item`], [`pattern`] and [`text`] read texts, and the
//! tokens of lines.
#![tactic(auto)]

pub mod grammar;
pub mod item;
pub mod pattern;
pub mod text;
