// Literals and atoms.
ghost use Rattle.std.specs.Prelude.{◌≡◌, ◌≤◌, ◌↔◌, IfOk, IsFalse, IsTrue, length, option_map};
ghost use Rattle.si_defs.specs.Clauses.{IsSoundPattern, literal_pattern};
ghost use Rattle.si_defs.specs.Grammar.{IsAtom, IsLiteral, not_equal};
ghost use Rattle.si_defs.specs.declared.Side.TheVariants.{Predicate};
ghost use Rattle.si_lex.specs.Lexemes.{token_of, tokens_of};
ghost use Rattle.si_parse.specs.GrammarRules.{IsNegated, IsEquationSign, IsStatement, as_atom, equation};
ghost use Rattle.si_parse.specs.Parsing.{Anything, IfFound, IfLeft, NoEquation, Reads};
ghost use Rattle.si_defs.specs.declared.TheConstants.{MOST_BYTES};
ghost use Rattle.si_term.specs.Meaning.{literal_of};
ghost use Rattle.si_term.specs.Terms.{term_of};

use crate::grammar::terms::front_term;
use crate::grammar::{Parsed, bracket_follows, mark_at};
use si_defs::{Side, SymKind, TokenKind};
use si_lex::Lexeme;
use si_term::{Literal, Sym, Term, Terms, Text};
use std::alloc::{AllocError, Global};

/// The literal at the front: an atom, one after a tilde, or two terms with `!=` between them. No
/// bracket opens after a literal that is found, and neither `=` nor `!=` stands there.
///
/// # Errors
/// `AllocError` where memory runs out.
pub fn literal<'t, 'b>(
    alloc: Global,
    tokens: &'t [Lexeme<'b>],
) -> Result<Parsed<'t, 'b, Literal>, AllocError>
    requires { length tokens.now ≤ MOST_BYTES }
    ensures read { IfOk result (Reads literal_of IsLiteral NoEquation tokens.now) }
    ensures ends { IfOk result (IfLeft NoEquation) }
    ensures sound { IfOk result (IfFound (λ l. IsSoundPattern (literal_pattern (literal_of l)))) }
{
    let Some((literal, rest)) = front_literal(alloc, tokens)? else {
        return Ok(None);
    };
    if equation_follows(rest) {
        return Ok(None);
    }
    Ok(Some((literal, rest)))
}

/// The same, whatever stands after it.
pub(crate) fn front_literal<'t, 'b>(
    alloc: Global,
    tokens: &'t [Lexeme<'b>],
) -> Result<Parsed<'t, 'b, Literal>, AllocError>
    requires { length tokens.now ≤ MOST_BYTES }
    ensures { IfOk result (Reads literal_of IsLiteral NoEquation tokens.now) }
{
    let Some(behind) = mark_at(tokens, b'~') else {
        return statement(alloc, tokens);
    };
    match negated(alloc, behind)? {
        Some((atom, rest)) => Ok(Some((
            Literal {
                positive: false,
                atom,
            },
            rest,
        ))),
        None => Ok(None),
    }
}

/// The atom after a tilde, bare or in round brackets.
fn negated<'t, 'b>(
    alloc: Global,
    tokens: &'t [Lexeme<'b>],
) -> Result<Parsed<'t, 'b, Term>, AllocError>
    requires { length tokens.now ≤ MOST_BYTES }
    ensures { IfOk result (Reads term_of IsNegated NoEquation tokens.now) }
{
    let Some(inside) = mark_at(tokens, b'(') else {
        return atom(alloc, tokens);
    };
    let Some((atom, behind)) = atom(alloc, inside)? else {
        return Ok(None);
    };
    match mark_at(behind, b')') {
        Some(rest) => Ok(Some((atom, rest))),
        None => Ok(None),
    }
}

/// The atom at the front: a predicate with its arguments, or two terms with `=` between them.
fn atom<'t, 'b>(alloc: Global, tokens: &'t [Lexeme<'b>]) -> Result<Parsed<'t, 'b, Term>, AllocError>
    requires { length tokens.now ≤ MOST_BYTES }
    ensures { IfOk result (Reads term_of IsAtom NoEquation tokens.now) }
{
    let Some((literal, rest)) = statement(alloc, tokens)? else {
        return Ok(None);
    };
    if literal.positive {
        Ok(Some((literal.into_atom(), rest)))
    } else {
        Ok(None)
    }
}

/// The literal without a tilde at the front: one term that is an atom, or two with a sign between
/// them. The first term is read once, and what stands after it decides.
fn statement<'t, 'b>(
    alloc: Global,
    tokens: &'t [Lexeme<'b>],
) -> Result<Parsed<'t, 'b, Literal>, AllocError>
    requires { length tokens.now ≤ MOST_BYTES }
    ensures { IfOk result (Reads literal_of IsStatement NoEquation tokens.now) }
{
    let Some((left, behind)) = front_term(alloc, tokens)? else {
        return Ok(None);
    };
    let Some((positive, next)) = equation_sign(behind) else {
        return match predicate(left) {
            Some(atom) => Ok(Some((
                Literal {
                    positive: true,
                    atom,
                },
                behind,
            ))),
            None => Ok(None),
        };
    };
    let Some((right, rest)) = front_term(alloc, next)? else {
        return Ok(None);
    };
    let atom = equality(alloc, left, right)?;
    Ok(Some((Literal { positive, atom }, rest)))
}

/// Whether a bracket or the sign of an equation stands in front, so that a literal before it goes
/// on.
fn equation_follows(tokens: &[Lexeme]) -> bool
    ensures { IsFalse result ↔ NoEquation (tokens_of tokens.now) }
{
    bracket_follows(tokens) || equation_sign(tokens).is_some()
}

/// The sign of an equation at the front: `=`, or `!=` for its negation.
pub fn equation_sign<'t, 'b>(tokens: &'t [Lexeme<'b>]) -> Parsed<'t, 'b, bool>
    ensures { Reads (λ b. b) IsEquationSign Anything tokens.now result }
{
    match tokens {
        [first, rest @ ..] if first.is_mark(b'=') => Some((true, rest)),
        [first, rest @ ..] if is_not_equal(first) => Some((false, rest)),
        _ => None,
    }
}

/// Whether a token is `!=`.
fn is_not_equal(token: &Lexeme) -> bool
    ensures { IsTrue result ↔ (token_of token.now ≡ not_equal) }
{
    token.kind == TokenKind::NotEqual && token.spelling == b"!=".as_slice()
}

/// The atom of a term that was read as one, if its head is a word: the head stands for a predicate.
fn predicate(term: Term) -> Option<Term>
    ensures { option_map term_of result ≡ as_atom (term_of term) }
{
    match term {
        Term::Var(_) => None,
        Term::App(head, args) => match head.kind {
            SymKind::Word => Some(Term::App(on_predicate_side(head), args)),
            SymKind::Dollar => Some(Term::App(on_predicate_side(head), args)),
            SymKind::Number => None,
            SymKind::Distinct => None,
            SymKind::Equal => None,
        },
    }
}

/// The same symbol as a predicate.
fn on_predicate_side(symbol: Sym) -> Sym
    ensures kind { result.kind ≡ symbol.kind }
    ensures text { result.text ≡ symbol.text }
    ensures side { result.side ≡ Predicate }
    ensures arity { result.arity ≡ symbol.arity }
{
    Sym {
        text: symbol.text,
        arity: symbol.arity,
        kind: symbol.kind,
        side: Side::Predicate,
    }
}

/// Two terms as the sides of an equation.
fn equality(alloc: Global, left: Term, right: Term) -> Result<Term, AllocError>
    ensures { IfOk result (λ t. term_of t ≡ equation (term_of left) (term_of right)) }
{
    let text = Text::from_bytes(alloc, b"=".as_slice())?;
    let sides = Terms::pair(alloc, left, right)?;
    let symbol = Sym {
        text,
        arity: 2,
        kind: SymKind::Equal,
        side: Side::Predicate,
    };
    Ok(Term::App(symbol, sides))
}
