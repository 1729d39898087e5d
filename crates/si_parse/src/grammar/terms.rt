// Terms. They are read by recursion, as deep as their brackets nest.
ghost use Rattle.std.specs.Prelude.{◌≡◌, ◌≤◌, [], ◌∷◌, IfOk, length};
ghost use Rattle.si_defs.specs.Clauses.{IsSoundPattern, term_pattern};
ghost use Rattle.si_defs.specs.Grammar.{IsTerm};
ghost use Rattle.si_defs.specs.Terms as terms;
ghost use Rattle.si_lex.specs.Lexemes.{token_of};
ghost use Rattle.si_parse.specs.GrammarRules.{AreTerms, IsApplied, function_symbol};
ghost use Rattle.si_parse.specs.Parsing.{IfFound, IfLeft, NoBracket, NoTerm, Reads};
ghost use Rattle.si_defs.specs.declared.TheConstants.{MOST_BYTES};
ghost use Rattle.si_term.specs.Terms.{symbol_of, term_of};

use crate::grammar::{Parsed, bracket_follows, mark_at};
use si_defs::{Side, SymKind, TokenKind};
use si_lex::Lexeme;
use si_term::{Sym, Term, Terms, Text};
use std::alloc::{AllocError, Global};

/// The term at the front: a variable, a number, a distinct object, or a word with its arguments if
/// a bracket opens after it. No bracket opens after a term that is found.
///
/// # Errors
/// `AllocError` where memory runs out.
pub fn term<'t, 'b>(
    alloc: Global,
    tokens: &'t [Lexeme<'b>],
) -> Result<Parsed<'t, 'b, Term>, AllocError>
    requires { length tokens.now ≤ MOST_BYTES }
    ensures read { IfOk result (Reads term_of IsTerm NoBracket tokens.now) }
    ensures ends { IfOk result (IfLeft NoBracket) }
    ensures sound { IfOk result (IfFound (λ t. IsSoundPattern (term_pattern (term_of t)))) }
{
    let Some((term, rest)) = front_term(alloc, tokens)? else {
        return Ok(None);
    };
    if bracket_follows(rest) {
        return Ok(None);
    }
    Ok(Some((term, rest)))
}

/// The same, whatever stands after it. What it answers is large, and in its place costs less than a
/// call.
#[cycle(reading)]
#[inline(always)]
pub(crate) fn front_term<'t, 'b>(
    alloc: Global,
    tokens: &'t [Lexeme<'b>],
) -> Result<Parsed<'t, 'b, Term>, AllocError>
    requires { length tokens.now ≤ MOST_BYTES }
    ensures { IfOk result (Reads term_of IsTerm NoBracket tokens.now) }
{
    match tokens {
        [first, rest @ ..] => match first.kind {
            TokenKind::Upper => Ok(Some((Term::Var(first.text(alloc)?), rest))),
            TokenKind::Int => {
                let text = first.text(alloc)?;
                Ok(Some((constant(alloc, SymKind::Number, text), rest)))
            }
            TokenKind::Double => {
                let text = first.text(alloc)?;
                Ok(Some((constant(alloc, SymKind::Distinct, text), rest)))
            }
            TokenKind::Lower => application(alloc, SymKind::Word, first, rest),
            TokenKind::Single => application(alloc, SymKind::Word, first, rest),
            TokenKind::Dollar => application(alloc, SymKind::Dollar, first, rest),
            TokenKind::NotEqual => Ok(None),
            TokenKind::Mark => Ok(None),
        },
        [] => Ok(None),
    }
}

/// A head with the arguments that stand after it, if any do.
#[cycle(reading)]
fn application<'t, 'b>(
    alloc: Global,
    kind: SymKind,
    head: &Lexeme<'b>,
    tokens: &'t [Lexeme<'b>],
) -> Result<Parsed<'t, 'b, Term>, AllocError>
    requires { length tokens.now ≤ MOST_BYTES }
    ensures { IfOk result (Reads term_of (IsApplied kind (token_of head.now).text) NoBracket
        tokens.now) }
{
    let text = head.text(alloc)?;
    let Some(inside) = mark_at(tokens, b'(') else {
        return Ok(Some((constant(alloc, kind, text), tokens)));
    };
    let Some((args, behind)) = arguments(alloc, inside)? else {
        return Ok(None);
    };
    match mark_at(behind, b')') {
        Some(rest) => {
            let arity = args.len() as u32;
            Ok(Some((Term::App(function(kind, text, arity), args), rest)))
        }
        None => Ok(None),
    }
}

/// Terms with commas between them. Up to three, as most functions have, are kept without a list
/// that grows, so that they take one block, and no room that no term stands in.
#[cycle(reading)]
fn arguments<'t, 'b>(
    alloc: Global,
    tokens: &'t [Lexeme<'b>],
) -> Result<Parsed<'t, 'b, Terms>, AllocError>
    requires { length tokens.now ≤ MOST_BYTES }
    ensures { IfOk result (Reads (λ ts. ts) AreTerms NoTerm tokens.now) }
{
    let Some((first, behind)) = front_term(alloc, tokens)? else {
        return Ok(None);
    };
    let Some(rest) = mark_at(behind, b',') else {
        return Ok(Some((Terms::one(alloc, first)?, behind)));
    };
    let Some((second, behind)) = front_term(alloc, rest)? else {
        return Ok(None);
    };
    let Some(rest) = mark_at(behind, b',') else {
        return Ok(Some((Terms::pair(alloc, first, second)?, behind)));
    };
    let Some((third, behind)) = front_term(alloc, rest)? else {
        return Ok(None);
    };
    let Some(_) = mark_at(behind, b',') else {
        return Ok(Some((Terms::three(alloc, first, second, third)?, behind)));
    };
    let mut args = growing(alloc, first, second, third)?;
    let mut left = behind;
    while let Some(rest) = mark_at(left, b',') {
        let Some((next, behind)) = front_term(alloc, rest)? else {
            return Ok(None);
        };
        args.push(next)?;
        left = behind;
    }
    args.shrink();
    Ok(Some((args, left)))
}

/// Three terms, with room for more. Few functions have so many arguments, so this isn't inlined.
#[inline(never)]
fn growing(alloc: Global, first: Term, second: Term, third: Term) -> Result<Terms, AllocError>
    ensures { IfOk result (λ ts. ts ≡ term_of first ∷ term_of second ∷ term_of third ∷ []) }
{
    let mut args = Terms::new(alloc);
    args.push(first)?;
    args.push(second)?;
    args.push(third)?;
    Ok(args)
}

/// A function without arguments.
fn constant(alloc: Global, kind: SymKind, text: Text) -> Term
    ensures { term_of result ≡ terms.app (function_symbol kind text 0) terms.none }
{
    Term::App(function(kind, text, 0), Terms::new(alloc))
}

/// The symbol of a function.
fn function(kind: SymKind, text: Text, arity: u32) -> Sym
    ensures { symbol_of result ≡ function_symbol kind text arity }
{
    Sym {
        text,
        arity,
        kind,
        side: Side::Function,
    }
}
