// Patterns of a query.
ghost use Rattle.std.specs.Prelude.{◌≡◌, ◌≤◌, length, IfOk, option_map};
ghost use Rattle.si_lex.specs.Lexemes.{tokens_of};
ghost use Rattle.si_term.specs.Meaning.{pattern_of};
ghost use Rattle.si_defs.specs.declared.TheConstants.{MOST_BYTES};
ghost use Rattle.si_parse.specs.ReadBack.{ReadsBackEntry, ReadsBackTerm};
ghost use Rattle.si_parse.specs.Reading.{ReadsPattern, ReadsWhole};
ghost use Rattle.si_parse.specs.declared.pattern.PatternKind.TheVariants.{Lit, Term};

use crate::grammar::{literal, term};
use si_lex::{Lexeme, TokensEnd, lex};
use si_term::Pattern;
use std::alloc::{AllocError, Global};

/// What a pattern is to be read as.
#[derive(Clone, Copy, Debug, PartialEq, Eq)]
pub enum PatternKind {
    Lit,
    Term,
}

/// The pattern that the whole bytes are, with blanks round it. A printed term without variables is
/// read back.
///
/// # Errors
/// `AllocError` where memory runs out.
pub fn read_pattern(
    alloc: Global,
    bytes: &[u8],
    kind: PatternKind,
) -> Result<Option<Pattern>, AllocError>
    requires { length bytes.now ≤ MOST_BYTES }
    ensures read { IfOk result (ReadsPattern bytes.now kind) }
    ensures back { kind ≡ Term → IfOk result
        (λ read. ReadsBackTerm bytes.now (option_map pattern_of read)) }
    ensures entry_back { kind ≡ Term → IfOk result
        (λ read. ReadsBackEntry bytes.now (option_map pattern_of read)) }
{
    let lexing = lex(alloc, bytes, 0)?;
    match lexing.why {
        TokensEnd::End => whole_pattern(alloc, lexing.tokens.as_slice(), kind),
        _ => Ok(None),
    }
}

/// The pattern that all the tokens spell.
///
/// # Errors
/// `AllocError` where memory runs out.
pub fn whole_pattern(
    alloc: Global,
    tokens: &[Lexeme],
    kind: PatternKind,
) -> Result<Option<Pattern>, AllocError>
    requires { length tokens.now ≤ MOST_BYTES }
    ensures { IfOk result (ReadsWhole (tokens_of tokens.now) kind) }
{
    match kind {
        PatternKind::Lit => whole_literal(alloc, tokens),
        PatternKind::Term => whole_term(alloc, tokens),
    }
}

/// The literal that all the tokens spell.
fn whole_literal(alloc: Global, tokens: &[Lexeme]) -> Result<Option<Pattern>, AllocError>
    requires { length tokens.now ≤ MOST_BYTES }
    ensures { IfOk result (ReadsWhole (tokens_of tokens.now) Lit) }
{
    let Some((literal, rest)) = literal(alloc, tokens)? else {
        return Ok(None);
    };
    if !rest.is_empty() {
        return Ok(None);
    }
    Ok(Some(Pattern::Lit(literal)))
}

/// The term that all the tokens spell.
fn whole_term(alloc: Global, tokens: &[Lexeme]) -> Result<Option<Pattern>, AllocError>
    requires { length tokens.now ≤ MOST_BYTES }
    ensures { IfOk result (ReadsWhole (tokens_of tokens.now) Term) }
{
    let Some((term, rest)) = term(alloc, tokens)? else {
        return Ok(None);
    };
    if !rest.is_empty() {
        return Ok(None);
    }
    Ok(Some(Pattern::Term(term)))
}
