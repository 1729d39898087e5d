// Numbers as they are written: in decimal, without a sign and without a zero before other digits.
ghost use Rattle.std.specs.Prelude.{◌≡◌, ◌≤◌, ℕ, IfSome, IfNone, decimal};
ghost use Rattle.si_lex.specs.Lexemes.{token_of};
ghost use Rattle.si_steps.specs.Commands.{numeral};

use itoa::Buffer;
use si_defs::TokenKind;
use si_lex::Lexeme;
use std::str::from_utf8;

/// The number that a token is, if that is at most `most`.
pub fn numeral_of(token: &Lexeme<'_>, most: u32) -> Option<u32>
    ensures found { IfSome result (λ n. (n ≤ most) × (token_of token.now ≡ numeral n)) }
    ensures none { IfNone result
        ((n : ℕ) → n ≤ most → token_of token.now ≡ numeral n → ⊥) }
{
    match token.kind {
        TokenKind::Int => number_of(token.spelling, most),
        _ => None,
    }
}

/// The number with this text, if that is at most `most`.
fn number_of(text: &[u8], most: u32) -> Option<u32>
    ensures found { IfSome result (λ n. (n ≤ most) × (text.now ≡ decimal n)) }
    ensures none { IfNone result ((n : ℕ) → n ≤ most → text.now ≡ decimal n → ⊥) }
{
    let Ok(digits) = from_utf8(text) else {
        return None;
    };
    let Ok(number) = digits.parse::<u32>() else {
        return None;
    };
    let mut buffer = Buffer::new();
    if number <= most && buffer.format(number).as_bytes() == text {
        Some(number)
    } else {
        None
    }
}
