// Annotations: tokens in which round and square brackets match. They are skipped.
ghost use Rattle.std.specs.Prelude.{◌≡◌, IfOk};
ghost use Rattle.si_lex.specs.Lexemes.{token_of};
ghost use Rattle.si_parse.specs.Brackets.{IsEdge, IsTurn, pending_of};
ghost use Rattle.si_parse.specs.GrammarRules.{AreAnnotations};
ghost use Rattle.si_parse.specs.Parsing.{PassesTokens};

use si_defs::TokenKind;
use si_lex::Lexeme;
use std::alloc::{AllocError, Global};

/// A kind of bracket.
#[derive(Clone, Copy)]
enum Bracket {
    Round,
    Square,
}

/// What a token does as a bracket.
#[derive(Clone, Copy)]
enum Edge {
    Opens(Bracket),
    Closes(Bracket),
}

/// What a token does to the brackets that are open.
#[derive(Clone, Copy)]
enum Turn {
    /// The annotations go on after it.
    GoesOn,
    /// It is the round bracket that closes more than was opened.
    Ends,
    /// It closes another bracket than the last one that is open.
    Fails,
}

/// The tokens after annotations and the bracket that ends them: the round one that closes more
/// than was opened.
pub(crate) fn annotations<'t, 'b>(
    alloc: Global,
    tokens: &'t [Lexeme<'b>],
) -> Result<Option<&'t [Lexeme<'b>]>, AllocError>
    ensures { IfOk result (PassesTokens AreAnnotations tokens.now) }
{
    let mut pending: Vec<Bracket> = Vec::new(alloc);
    for (n, token) in tokens.iter().enumerate() {
        match step_over(&mut pending, token)? {
            Turn::GoesOn => {}
            Turn::Ends => {
                return Ok(if n == 0 { None } else { Some(&tokens[n + 1..]) });
            }
            Turn::Fails => return Ok(None),
        }
    }
    Ok(None)
}

/// Goes past a token: keeps what it opens, and lets go what it closes.
fn step_over(pending: &mut Vec<Bracket>, token: &Lexeme) -> Result<Turn, AllocError>
    ensures { IfOk result (IsTurn (token_of token.now) (pending_of pending.old.items)
        (pending_of pending.new.items)) }
{
    match edge_of(token) {
        Some(Edge::Opens(bracket)) => {
            pending.push(bracket)?;
            Ok(Turn::GoesOn)
        }
        Some(Edge::Closes(bracket)) => match pending.pop() {
            Some(last) => match (last, bracket) {
                (Bracket::Round, Bracket::Round) => Ok(Turn::GoesOn),
                (Bracket::Square, Bracket::Square) => Ok(Turn::GoesOn),
                _ => Ok(Turn::Fails),
            },
            None => match bracket {
                Bracket::Round => Ok(Turn::Ends),
                Bracket::Square => Ok(Turn::Fails),
            },
        },
        None => Ok(Turn::GoesOn),
    }
}

/// The bracket that a token is.
fn edge_of(token: &Lexeme) -> Option<Edge>
    ensures { IsEdge (token_of token.now) result }
{
    match token.kind {
        TokenKind::Mark => match token.spelling {
            [b'('] => Some(Edge::Opens(Bracket::Round)),
            [b')'] => Some(Edge::Closes(Bracket::Round)),
            [b'['] => Some(Edge::Opens(Bracket::Square)),
            [b']'] => Some(Edge::Closes(Bracket::Square)),
            _ => None,
        },
        _ => None,
    }
}
