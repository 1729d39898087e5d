// Formulas: disjunctions of literals, in any number of round brackets.
ghost use Rattle.std.specs.Prelude.{◌≡◌, ◌≤◌, [], ◌∷◌, ◌++◌, IfOk, length, replicate};
ghost use Rattle.si_defs.specs.Clauses.{AreSoundLiterals};
ghost use Rattle.si_defs.specs.Grammar.{IsFormula, left_bracket};
ghost use Rattle.si_lex.specs.Lexemes.{tokens_of};
ghost use Rattle.si_parse.specs.GrammarRules.{AreClosing, AreLiterals};
ghost use Rattle.si_parse.specs.Meaning.{literals_of};
ghost use Rattle.si_parse.specs.Parsing.{IfFound, NoBracket, NoLiteral, PassesTokens, Reads};
ghost use Rattle.si_defs.specs.declared.TheConstants.{MOST_BYTES};

use crate::grammar::literals::front_literal;
use crate::grammar::{Parsed, mark_at};
use si_lex::Lexeme;
use si_term::{Literal, Literals};
use std::alloc::{AllocError, Global};

/// The formula at the front: literals with bars between them, in any number of round brackets.
///
/// # Errors
/// `AllocError` where memory runs out.
pub fn formula<'t, 'b>(
    alloc: Global,
    tokens: &'t [Lexeme<'b>],
) -> Result<Parsed<'t, 'b, Literals>, AllocError>
    requires { length tokens.now ≤ MOST_BYTES }
    ensures read { IfOk result (Reads literals_of IsFormula NoLiteral tokens.now) }
    ensures sound { IfOk result (IfFound (λ ls. AreSoundLiterals (literals_of ls))) }
{
    let (depth, inner) = opening_brackets(tokens);
    let Some((literals, behind)) = disjunction(alloc, inner)? else {
        return Ok(None);
    };
    match closing_brackets(behind, depth) {
        Some(rest) => Ok(Some((literals, rest))),
        None => Ok(None),
    }
}

/// Literals with bars between them. Up to three are kept without a list that grows, so that they
/// take one block, and no room that no literal stands in.
fn disjunction<'t, 'b>(
    alloc: Global,
    tokens: &'t [Lexeme<'b>],
) -> Result<Parsed<'t, 'b, Literals>, AllocError>
    requires { length tokens.now ≤ MOST_BYTES }
    ensures { IfOk result (Reads literals_of AreLiterals NoLiteral tokens.now) }
{
    let Some((first, behind)) = front_literal(alloc, tokens)? else {
        return Ok(None);
    };
    let Some(rest) = mark_at(behind, b'|') else {
        return Ok(Some((Literals::one(alloc, first)?, behind)));
    };
    let Some((second, behind)) = front_literal(alloc, rest)? else {
        return Ok(None);
    };
    let Some(rest) = mark_at(behind, b'|') else {
        return Ok(Some((Literals::pair(alloc, first, second)?, behind)));
    };
    let Some((third, behind)) = front_literal(alloc, rest)? else {
        return Ok(None);
    };
    let Some(_) = mark_at(behind, b'|') else {
        return Ok(Some((Literals::three(alloc, first, second, third)?, behind)));
    };
    let mut literals = growing(alloc, first, second, third)?;
    let mut left = behind;
    while let Some(rest) = mark_at(left, b'|') {
        let Some((next, behind)) = front_literal(alloc, rest)? else {
            return Ok(None);
        };
        literals.push(next)?;
        left = behind;
    }
    literals.shrink();
    Ok(Some((literals, left)))
}

/// Three literals, with room for more.
fn growing(
    alloc: Global,
    first: Literal,
    second: Literal,
    third: Literal,
) -> Result<Literals, AllocError>
    ensures { IfOk result (λ ls. ls ≡ first ∷ second ∷ third ∷ []) }
{
    let mut literals = Literals::new(alloc);
    literals.push(first)?;
    literals.push(second)?;
    literals.push(third)?;
    Ok(literals)
}

/// The number of opening round brackets at the front, and the tokens after them.
fn opening_brackets<'t, 'b>(tokens: &'t [Lexeme<'b>]) -> (usize, &'t [Lexeme<'b>])
    ensures front { tokens_of tokens.now ≡ replicate result.0 left_bracket ++ tokens_of
        result.1.now }
    ensures bare { NoBracket (tokens_of result.1.now) }
{
    let mut depth: usize = 0;
    let mut inner = tokens;
    while let [first, rest @ ..] = inner {
        if !first.is_mark(b'(') {
            return (depth, inner);
        }
        depth += 1;
        inner = rest;
    }
    (depth, inner)
}

/// The tokens after so many closing round brackets.
fn closing_brackets<'t, 'b>(tokens: &'t [Lexeme<'b>], count: usize) -> Option<&'t [Lexeme<'b>]>
    ensures { PassesTokens (AreClosing count) tokens.now result }
{
    let mut left = tokens;
    for n in 0..count {
        let [first, rest @ ..] = left else {
            return None;
        };
        if !first.is_mark(b')') {
            return None;
        }
        left = rest;
    }
    Some(left)
}
