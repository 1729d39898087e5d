//! Examples of use: what a program calls to read clauses and patterns, to make them flat, to solve
//! them and to print the lists of what it finds.
//!
//! Each function is one step, and its contract says what the step gives. `docs/LIBRARY.md` shows
//! them in this order.
#![tactic(auto)]

mod finding;
mod flattening;
mod printing;
mod reading;
mod solving;

pub use finding::{first_shown, keep};
pub use flattening::{FlatPair, flatten_both};
pub use printing::print_shown;
pub use reading::{read_clause, read_literal};
pub use solving::{canonical_list, have_common};
