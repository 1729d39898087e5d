//! Terms, literals, clauses and patterns as the program keeps them, the entries of a clause, and
//! the bytes of words.
//!
//! Contracts see a [`Text`] as a list of bytes and each list type as a list. `specs/Meaning.antt`
//! says which term, literal, clause or pattern of the definitions a value stands for.
#![tactic(auto)]

mod bytes;
pub mod clause;
mod copies;
mod entries;
mod heads;
pub mod list;
pub mod path;
pub mod table;
pub mod term;
pub mod text;

pub use bytes::is_word_byte;
pub use clause::{Clause, Entry, Literal, Name, Pattern, Place};
pub use copies::{copy_texts, to_pattern};
pub use entries::{entry_at, entry_count, place_at, vars_of};
pub use heads::{head_at, symbols_of};
pub use list::{Literals, Names, Syms, Texts};
pub use path::Path;
pub use si_defs::{NameKind, Side, SymKind};
pub use table::SymTable;
pub use term::{Sym, Term, Terms};
pub use text::Text;
