// Items of a file.
ghost use Rattle.std.specs.Prelude.{◌≡◌, ◌≤◌, ◌↔◌, IfOk, IsTrue, length};
ghost use Rattle.si_lex.specs.Lexemes.{token_of, tokens_of};
ghost use Rattle.si_defs.specs.declared.TheConstants.{MOST_BYTES};
ghost use Rattle.si_parse.specs.Reading.{AreForeign, IsFaultAt, IsLanguage, IsNoItem, IsRead};

use crate::grammar::{Selection, clause, include};
use si_defs::TokenKind;
use si_lex::{Lexeme, TokensEnd, lex_item};
use si_term::{Clause, Text};
use std::alloc::{AllocError, Global};

/// What stands at a place of a file (TPTP's `TPTP_file`, the CNF part).
#[derive(Drop)]
pub enum Read {
    /// A clause, and the place after its full stop.
    Cnf(Clause, usize),
    /// The name of a file whose clauses are kept, which of them, and the place after the full
    /// stop.
    Include(Text, Selection, usize),
    /// Nothing but blanks.
    End,
    /// No item, at this place after the blanks.
    Syntax(usize),
    /// A formula of another TPTP language, at this place after the blanks.
    Language(usize),
}

/// The item after the blanks from a place on. The bytes after an item are not looked at.
///
/// # Errors
/// `AllocError` where memory runs out.
pub fn next_item(alloc: Global, bytes: &[u8], at: usize) -> Result<Read, AllocError>
    requires short { length bytes.now ≤ MOST_BYTES }
    requires within { at ≤ length bytes.now }
    ensures { IfOk result (IsRead bytes.now at) }
{
    let lexing = lex_item(alloc, bytes, at)?;
    let (start, end, why) = (lexing.start, lexing.end, lexing.why);
    let tokens = lexing.tokens.as_slice();
    if let Some((clause, _)) = clause(alloc, tokens)? {
        return Ok(Read::Cnf(clause, end));
    }
    if let Some((include, _)) = include(alloc, tokens)? {
        return Ok(Read::Include(include.0, include.1, end));
    }
    Ok(no_item(tokens, start, why))
}

/// What stands where the tokens begin with no item: nothing but blanks, or a fault.
fn no_item(tokens: &[Lexeme], start: usize, why: TokensEnd) -> Read
    ensures { IsNoItem (tokens_of tokens.now) start why result }
{
    match why {
        TokensEnd::End => {
            if tokens.is_empty() {
                Read::End
            } else {
                fault_at(tokens, start)
            }
        }
        _ => fault_at(tokens, start),
    }
}

/// The fault at a place where no item begins, by the tokens after it.
fn fault_at(tokens: &[Lexeme], place: usize) -> Read
    ensures { IsFaultAt (tokens_of tokens.now) place result }
{
    if is_foreign(tokens) {
        Read::Language(place)
    } else {
        Read::Syntax(place)
    }
}

/// Whether the first two tokens are the word of another TPTP language and a bracket.
pub fn is_foreign(tokens: &[Lexeme]) -> bool
    ensures { IsTrue result ↔ AreForeign (tokens_of tokens.now) }
{
    match tokens {
        [first, second, ..] => is_language(first) && second.is_mark(b'('),
        _ => false,
    }
}

/// Whether a token is the word of another TPTP language.
fn is_language(token: &Lexeme) -> bool
    ensures { IsTrue result ↔ IsLanguage (token_of token.now) }
{
    match token.kind {
        TokenKind::Lower => {
            let word = token.spelling;
            word == b"fof".as_slice()
                || word == b"tff".as_slice()
                || word == b"thf".as_slice()
                || word == b"tcf".as_slice()
                || word == b"tpi".as_slice()
        }
        _ => false,
    }
}
