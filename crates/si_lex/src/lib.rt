//! From bytes to tokens, by TPTP's token grammar.
#![tactic(auto)]

mod annotations;
mod blanks;
mod brackets;
mod bytes;
mod lexeme;
mod lexing;
mod scans;
mod spellings;
mod token;

pub use lexeme::Lexeme;
pub use lexing::{Lexing, TokensEnd, lex, lex_item};
pub use token::{Lexed, Token, next_token};
