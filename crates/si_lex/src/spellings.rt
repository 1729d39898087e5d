// The token at a place, by its first byte: how far it goes.
ghost use Rattle.std.specs.Prelude.{◌≡◌, ◌⊎◌, ◌<◌, length, drop, slice_index, MatchOption};
ghost use Rattle.si_lex.specs.Places.{IsLexemeAt, IsTokenTo, NoTokenAt};

use crate::bytes::{First, first_of, stands_at};
use crate::lexeme::Lexeme;
use crate::scans::{decimal_end, lower_end, quoted_end, word_end};
use si_defs::TokenKind;

/// The token at a place, if one stands there. A comment that isn't closed is none.
#[inline(always)]
pub fn lexeme_at<'a>(bytes: &'a [u8], at: usize) -> Option<Lexeme<'a>>
    requires { at < length bytes.now }
    ensures { MatchOption result (NoTokenAt (drop at bytes.now)) (IsLexemeAt bytes.now at) }
{
    match token_end(bytes, at) {
        Some((kind, end)) => Some(Lexeme {
            kind,
            spelling: &bytes[at..end],
        }),
        None => None,
    }
}

// The kind of the token at a place, and the place after it.
#[inline(always)]
fn token_end(bytes: &[u8], at: usize) -> Option<(TokenKind, usize)>
    requires { at < length bytes.now }
    ensures { MatchOption result (NoTokenAt (drop at bytes.now))
        (λ p. IsTokenTo bytes.now at p.0 p.1) }
{
    match first_of(bytes[at]) {
        First::Small => Some((TokenKind::Lower, word_end(bytes, at + 1))),
        First::Capital => Some((TokenKind::Upper, word_end(bytes, at + 1))),
        First::Digit => Some((TokenKind::Int, decimal_end(bytes, at))),
        First::Sign => Some(signed_end(bytes, at)),
        First::Dollar => dollar_end(bytes, at),
        First::SingleQuote => single_end(bytes, at),
        First::DoubleQuote => double_end(bytes, at),
        First::Exclamation => Some(exclamation_end(bytes, at)),
        First::Slash => slash_end(bytes, at),
        First::Opening => Some((TokenKind::Mark, at + 1)),
        First::Closing => Some((TokenKind::Mark, at + 1)),
        First::LoneMark => Some((TokenKind::Mark, at + 1)),
        First::White => None,
        First::Percent => None,
        First::Underscore => None,
        First::Nothing => None,
    }
}

// A sign, or an integer after it.
fn signed_end(bytes: &[u8], at: usize) -> (TokenKind, usize)
    requires within { at < length bytes.now }
    requires sign { (slice_index bytes.now at ≡ 43) ⊎ (slice_index bytes.now at ≡ 45) }
    ensures { IsTokenTo bytes.now at result.0 result.1 }
{
    let end = decimal_end(bytes, at + 1);
    if end > at + 1 {
        (TokenKind::Int, end)
    } else {
        (TokenKind::Mark, end)
    }
}

// A word after one dollar sign or two.
fn dollar_end(bytes: &[u8], at: usize) -> Option<(TokenKind, usize)>
    requires within { at < length bytes.now }
    requires dollar { slice_index bytes.now at ≡ 36 }
    ensures { MatchOption result (NoTokenAt (drop at bytes.now))
        (λ p. IsTokenTo bytes.now at p.0 p.1) }
{
    if stands_at(bytes, at + 1, b'$') {
        let end = lower_end(bytes, at + 2);
        if end > at + 2 {
            return Some((TokenKind::Dollar, end));
        }
        return None;
    }
    let end = lower_end(bytes, at + 1);
    if end > at + 1 {
        return Some((TokenKind::Dollar, end));
    }
    None
}

// `!=`, or the mark alone.
fn exclamation_end(bytes: &[u8], at: usize) -> (TokenKind, usize)
    requires within { at < length bytes.now }
    requires exclamation { slice_index bytes.now at ≡ 33 }
    ensures { IsTokenTo bytes.now at result.0 result.1 }
{
    if stands_at(bytes, at + 1, b'=') {
        (TokenKind::NotEqual, at + 2)
    } else {
        (TokenKind::Mark, at + 1)
    }
}

// A slash, if it opens no comment.
fn slash_end(bytes: &[u8], at: usize) -> Option<(TokenKind, usize)>
    requires within { at < length bytes.now }
    requires slash { slice_index bytes.now at ≡ 47 }
    ensures { MatchOption result (NoTokenAt (drop at bytes.now))
        (λ p. IsTokenTo bytes.now at p.0 p.1) }
{
    if stands_at(bytes, at + 1, b'*') {
        None
    } else {
        Some((TokenKind::Mark, at + 1))
    }
}

// One or more characters in single quotes.
fn single_end(bytes: &[u8], at: usize) -> Option<(TokenKind, usize)>
    requires within { at < length bytes.now }
    requires quote { slice_index bytes.now at ≡ 39 }
    ensures { MatchOption result (NoTokenAt (drop at bytes.now))
        (λ p. IsTokenTo bytes.now at p.0 p.1) }
{
    match quoted_end(bytes, at + 1, b'\'') {
        Some(end) if end > at + 2 => Some((TokenKind::Single, end)),
        Some(_) | None => None,
    }
}

// Characters in double quotes.
fn double_end(bytes: &[u8], at: usize) -> Option<(TokenKind, usize)>
    requires within { at < length bytes.now }
    requires quote { slice_index bytes.now at ≡ 34 }
    ensures { MatchOption result (NoTokenAt (drop at bytes.now))
        (λ p. IsTokenTo bytes.now at p.0 p.1) }
{
    match quoted_end(bytes, at + 1, b'"') {
        Some(end) => Some((TokenKind::Double, end)),
        None => None,
    }
}
