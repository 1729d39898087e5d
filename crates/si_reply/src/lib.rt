//! Printed texts, written to a sink piece by piece: bytes, numbers, names, names of files, symbols,
//! terms, places, maps and solution lists. No call takes memory.
#![tactic(auto)]

mod names;
mod printing;
mod solution;

pub use names::NameList;
pub use printing::{
    put_bytes, put_file, put_map, put_name, put_number, put_place, put_quoted, put_symbol, put_term,
};
pub use solution::{Naming, put_solution};
