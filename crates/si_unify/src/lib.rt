//! Solving equations between flat terms.
//!
//! Two terms are made equal place by place ([`solve`]). A variable is bound to the slice that
//! stands against it, and nothing is copied. Circles through bound variables are looked for once,
//! when no two places are left to compare.
#![tactic(auto)]

mod arguments;
mod circles;
mod equations;
mod heights;
mod scratch;
mod slots;
mod solver;
mod spots;
mod states;
mod symbols;
mod unbound;
mod unifier;

pub use scratch::Scratch;
pub use slots::Slots;
pub use solver::{solve, solve_with};
pub use symbols::{have_same_symbol, is_same_variable};
pub use unbound::are_unbound;
