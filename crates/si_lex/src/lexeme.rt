// Tokens as they stand in the bytes.
ghost use Rattle.std.specs.Prelude.{◌≡◌, ◌↔◌, IsTrue, IfOk};
ghost use Rattle.si_defs.specs.Tokens.{lower, mark};
ghost use Rattle.si_lex.specs.Lexemes.{token_of};
ghost use Rattle.si_lex.specs.Texts.{between_ends, unescaped};

use si_defs::TokenKind;
use si_term::Text;
use std::alloc::{AllocError, Global};

/// A token that stands in the bytes: what it is, and its spelling with its quotes and escapes.
#[derive(Clone, Copy)]
pub struct Lexeme<'a> {
    /// What it is.
    pub kind: TokenKind,
    /// The bytes that spell it.
    pub spelling: &'a [u8],
}

impl<'a> Lexeme<'a> {
    /// Whether this is the mark.
    pub fn is_mark(&self, c: u8) -> bool
        ensures { IsTrue result ↔ (token_of self.now ≡ mark c) }
    {
        match self.kind {
            TokenKind::Mark => matches!(self.spelling, [b] if *b == c),
            _ => false,
        }
    }

    /// Whether this is the lower word.
    pub fn is_lower(&self, word: &[u8]) -> bool
        ensures { IsTrue result ↔ (token_of self.now ≡ lower word.now) }
    {
        match self.kind {
            TokenKind::Lower => self.spelling == word,
            _ => false,
        }
    }

    /// Its text: the spelling, but for quotes and escapes.
    ///
    /// # Errors
    ///
    /// `AllocError` where there is no memory for it.
    #[inline(always)]
    pub fn text(&self, alloc: Global) -> Result<Text, AllocError>
        ensures { IfOk result (λ text. text ≡ (token_of self.now).text) }
    {
        match self.kind {
            TokenKind::Single | TokenKind::Double => unquoted(alloc, self.spelling),
            _ => Text::from_bytes(alloc, self.spelling),
        }
    }
}

// The text of a spelling in quotes. Without a backslash it is copied in one piece.
#[inline(never)]
fn unquoted(alloc: Global, spelling: &[u8]) -> Result<Text, AllocError>
    ensures { IfOk result (λ text. text ≡ unescaped (between_ends spelling.now)) }
{
    match spelling {
        [_, inner @ .., _] if inner.contains(&b'\\') => without_escapes(alloc, inner),
        [_, inner @ .., _] => Text::from_bytes(alloc, inner),
        _ => Text::from_bytes(alloc, b""),
    }
}

// The bytes without the backslashes that stand before a character.
fn without_escapes(alloc: Global, inner: &[u8]) -> Result<Text, AllocError>
    ensures { IfOk result (λ text. text ≡ unescaped inner.now) }
{
    let mut text = Vec::with_capacity(alloc, inner.len())?;
    let mut backslash = false;
    for &byte in inner {
        if byte == b'\\' && !backslash {
            backslash = true;
        } else {
            text.push(byte)?;
            backslash = false;
        }
    }
    Text::from_bytes(alloc, &text)
}
