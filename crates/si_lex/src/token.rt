// One token with its text.
ghost use Rattle.std.specs.Prelude.{◌≤◌, length, IfOk, OnErr};
ghost use Rattle.si_lex.specs.Places.{IsNext, TokenStands};

use crate::blanks::skip_blanks;
use crate::spellings::lexeme_at;
use si_defs::TokenKind;
use si_term::Text;
use std::alloc::{AllocError, Global};

/// A token of TPTP's token grammar, and where it stands in the bytes.
#[derive(Drop)]
pub struct Token {
    /// What it is.
    pub kind: TokenKind,
    /// The place of its first byte, in bytes from their start.
    pub start: usize,
    /// The place after its last byte.
    pub end: usize,
    /// Its spelling, but for quotes and escapes.
    pub text: Text,
}

/// What stands after the blanks from a place on.
#[derive(Drop)]
pub enum Lexed {
    /// A token, with its place.
    Token(Token),
    /// Nothing: the bytes end.
    End,
    /// No token, and not the end. This is the place, the first after the blanks.
    Bad(usize),
}

/// The longest token after the longest blanks from a place on.
///
/// `at` and all places count bytes from the start of `bytes`. Blanks are white space and closed
/// comments; a comment that isn't closed is bad at its first byte.
///
/// # Errors
///
/// `AllocError` where a token stands, and there is no memory for its text.
pub fn next_token(alloc: Global, bytes: &[u8], at: usize) -> Result<Lexed, AllocError>
    requires { at ≤ length bytes.now }
    ensures next { IfOk result (IsNext bytes.now at) }
    ensures refused { OnErr result (TokenStands bytes.now at) }
{
    let start = skip_blanks(bytes, at);
    if start >= bytes.len() {
        return Ok(Lexed::End);
    }
    match lexeme_at(bytes, start) {
        None => Ok(Lexed::Bad(start)),
        Some(lexeme) => {
            let text = lexeme.text(alloc)?;
            Ok(Lexed::Token(Token {
                kind: lexeme.kind,
                start,
                end: start + lexeme.spelling.len(),
                text,
            }))
        }
    }
}
