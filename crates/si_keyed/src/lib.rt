//! A list whose items go by keys and by positions, and from which any item can be taken.
#![tactic(auto)]

mod keyed;
mod places;
mod ranks;

pub use keyed::{KeyedItems, KeyedList};
pub use places::Places;
