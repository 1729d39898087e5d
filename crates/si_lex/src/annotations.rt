// Annotations, passed by their brackets. Nothing of them is kept.
ghost use Rattle.std.specs.Prelude.{◌≤◌, ◌↔◌, length, IfSome, IsTrue};
ghost use Rattle.si_lex.specs.Annotations.{BeginsClause, IsComma, IsPastAnnotations};
ghost use Rattle.si_lex.specs.Lexemes.{token_of, tokens_of};

use crate::blanks::skip_blanks;
use crate::brackets::OpenBrackets;
use crate::lexeme::Lexeme;
use crate::spellings::lexeme_at;

/// The bracket that closes a clause after its annotations, and the place after it. Here begin these
/// annotations, and before them stand these tokens and a comma.
///
/// Nothing where the tokens begin no clause, where no annotations stand there, where their brackets
/// don't match or aren't closed, or where more than 63 are open at once.
pub fn past_annotations<'a>(
    front: &[Lexeme],
    bytes: &'a [u8],
    at: usize,
) -> Option<(Lexeme<'a>, usize)>
    requires { at ≤ length bytes.now }
    ensures { IfSome result (λ found. BeginsClause (tokens_of front.now)
        × IsPastAnnotations bytes.now at found.0 found.1) }
{
    match front {
        [first, ..] if first.is_lower(b"cnf") => skip_annotations(bytes, at),
        _ => None,
    }
}

// The same, whatever the tokens before it.
#[inline(never)]
fn skip_annotations<'a>(bytes: &'a [u8], at: usize) -> Option<(Lexeme<'a>, usize)>
    requires { at ≤ length bytes.now }
    ensures { IfSome result (λ found. IsPastAnnotations bytes.now at found.0 found.1) }
{
    let first = skip_blanks(bytes, at);
    let mut pending = OpenBrackets::none();
    let mut place = first;
    while place < bytes.len() {
        let lexeme = lexeme_at(bytes, place)?;
        let end = place + lexeme.spelling.len();
        if bytes[place] == b')' && pending.is_empty() {
            if place == first {
                return None;
            }
            return Some((lexeme, end));
        }
        pending = pending.after(bytes[place])?;
        place = skip_blanks(bytes, end);
    }
    None
}

/// Whether a token is the comma that ends the formula of a clause, where so many tokens stand
/// before it and this many brackets are open.
#[inline(always)]
pub fn ends_formula(before: usize, depth: usize, lexeme: &Lexeme) -> bool
    ensures { IsTrue result ↔ (6 ≤ before) × IsComma depth (token_of lexeme.now) }
{
    depth == 1 && before > 5 && lexeme.is_mark(b',')
}
