// From tokens to meanings: TPTP's cnf_annotated and include, cut to this project's profile.
//
// Each reader answers what it read at the front of some tokens, and the tokens after it. Terms are
// read by recursion, as deep as their brackets nest; the lexer bounds that. What may be long, as
// arguments, literals, names and annotations, is read by loops.
ghost use Rattle.std.specs.Prelude.{◌↔◌, IsFalse};
ghost use Rattle.si_lex.specs.Lexemes.{tokens_of};
ghost use Rattle.si_parse.specs.GrammarRules.{IsMark, IsOpening};
ghost use Rattle.si_parse.specs.Parsing.{NoBracket, PassesTokens};

use si_lex::Lexeme;

mod annotations;
mod clauses;
mod formulas;
mod includes;
mod literals;
mod names;
mod terms;

pub use clauses::clause;
pub use formulas::formula;
pub use includes::{Selection, include};
pub use literals::{equation_sign, literal};
pub use names::{file, name};
pub use terms::term;

/// What was read at the front of some tokens, and the tokens after it. Nothing where the tokens
/// begin with no such thing.
pub type Parsed<'t, 'b, T> = Option<(T, &'t [Lexeme<'b>])>;

/// The tokens after a mark, if it stands in front of them.
pub fn mark_at<'t, 'b>(tokens: &'t [Lexeme<'b>], c: u8) -> Option<&'t [Lexeme<'b>]>
    ensures { PassesTokens (IsMark c) tokens.now result }
{
    match tokens {
        [first, rest @ ..] if first.is_mark(c) => Some(rest),
        _ => None,
    }
}

/// Whether an opening round bracket stands in front, so that a word before it has arguments.
fn bracket_follows(tokens: &[Lexeme]) -> bool
    ensures { IsFalse result ↔ NoBracket (tokens_of tokens.now) }
{
    mark_at(tokens, b'(').is_some()
}

/// The tokens after a word and a bracket, as items begin.
fn opening<'t, 'b>(tokens: &'t [Lexeme<'b>], word: &[u8]) -> Option<&'t [Lexeme<'b>]>
    ensures { PassesTokens (IsOpening word.now) tokens.now result }
{
    match tokens {
        [first, rest @ ..] if first.is_lower(word) => mark_at(rest, b'('),
        _ => None,
    }
}
