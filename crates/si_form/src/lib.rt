//! Canonical solution lists: which term each variable of a query and an entry stands for.
//!
//! A term matches another where some substitution on its variables takes it to the other. Both are
//! read once, from left to right; a variable stands for a slice of the other term, and the slices
//! are copied only where the whole matches.
//!
//! Two terms can be unified where some substitution makes them equal. They are solved, and terms
//! that become equal get one number, so that no term is ever expanded. Of the variables with one
//! number the first leads; the others are bound to it, and it is bound to a term of theirs in which
//! each part that has a leader is written as that. The bindings are sorted by what they use. Where
//! no value holds another or a bound variable, all this is read off the bindings.
#![tactic(auto)]

mod classes;
mod direct;
mod folding;
mod laws;
mod leaders;
mod matching;
mod order;
mod query;
mod relations;
mod solution;
mod unifying;
mod uses;
mod variables;

pub use laws::{
    canonical_lists_are_unique, numbers_keep_answers, numbers_keep_relations,
    numbers_tell_symbols_apart, solutions_are_of_their_terms,
};
pub use query::CountedQuery;
pub use relations::{canonical, canonical_counted};
pub use si_flat::{Kind, Owner};
pub use si_unify::Scratch;
pub use solution::{Binding, Solution};
