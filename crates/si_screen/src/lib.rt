//! What tells most pairs of clauses apart, before any substitution is sought.
//!
//! Rows say by bits which symbols occur in a clause. A clause that subsumes another one has no bit
//! that the other one lacks; `specs/ClauseRows.antt` says which bits a clause has. Then signs and
//! symbols of literals are compared (`specs/Likeness.antt`).
#![tactic(auto)]

mod examples;
mod extra;
mod laws;
mod likeness;
mod rows;
mod targets;

pub use examples::{likeness_of_terms, rows_of_clauses};
pub use extra::Extra;
pub use laws::rows_follow_maps;
pub use rows::literals_row;
pub use targets::may_have_map;
