//! Symbols that are in use, each with one side and arity, and the trait by which clauses are kept.
//!
//! Contracts see a [`Signature`] as a finite map from kind and text to what is known of the symbol,
//! and a [`ClauseStore`] as its list of clauses and its rules of acceptance.
#![tactic(auto)]

pub mod faults;
pub mod hashed;
mod keys;
mod kinds;
mod names;
mod plain;
mod recent;
mod short;
pub mod signature;
pub mod store;
pub mod texts;
mod uses;
mod walk;

pub use faults::{AddFault, Clash, Rejected, Shape, TakeFault};
pub use hashed::HashedKeys;
pub use names::is_same_name;
pub use plain::PlainStore;
pub use short::ShortStore;
pub use signature::Signature;
pub use store::ClauseStore;
pub use texts::TextKeys;
