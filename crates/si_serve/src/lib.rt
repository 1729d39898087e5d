//! A run: `serve`, from the words of the program's call and the whole input to what is written and
//! a status, and `decline`, for words that couldn't be gathered.
#![tactic(auto)]

mod lines;
pub mod serve;
mod status;
mod words;

pub use status::Status;
