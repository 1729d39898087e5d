// Literals at the front of tokens, whose cells are written as they are read.
ghost use Rattle.std.specs.Prelude.{◌≡◌, ◌↔◌, ◌&&◌, IfOk, IfSome, IsFalse, IsTrue, not, true};
ghost use Rattle.si_lex.specs.Lexemes.{token_of};
ghost use Rattle.si_query.specs.Reading.{HasNoEquationSign, HasNumbersFor, MayBeEquationSign, ReadsAtom, ReadsLiteral, ReadsNegated, ReadsStatement};

use crate::terms::{applied, head_kind, term};
use si_defs::{Side, SymKind, TokenKind};
use si_flat::QueryWriter;
use si_lex::Lexeme;
use si_parse::grammar::{equation_sign, mark_at};
use si_term::{Sym, SymTable, Text};
use std::alloc::{AllocError, Global};

/// The tokens after the literal at the front, whose cells are written.
pub(crate) fn literal<'t, 'b, T: SymTable>(
    alloc: Global,
    table: &T,
    tokens: &'t [Lexeme<'b>],
    writer: &mut QueryWriter<'b>,
) -> Result<Option<&'t [Lexeme<'b>]>, AllocError>
    requires { HasNumbersFor 1 tokens.now writer.old }
    ensures { IfOk result (λ read. IfSome read (λ rest. ReadsLiteral (T.pairs table.now) tokens.now
        writer.old writer.new rest.now)) }
{
    match mark_at(tokens, b'~') {
        Some(after) => negated(alloc, table, after, writer),
        None => match statement(alloc, table, false, tokens, writer)? {
            Some((_, rest)) => Ok(Some(rest)),
            None => Ok(None),
        },
    }
}

/// The tokens after the atom that stands after a tilde, bare or in round brackets.
fn negated<'t, 'b, T: SymTable>(
    alloc: Global,
    table: &T,
    tokens: &'t [Lexeme<'b>],
    writer: &mut QueryWriter<'b>,
) -> Result<Option<&'t [Lexeme<'b>]>, AllocError>
    requires { HasNumbersFor 1 tokens.now writer.old }
    ensures { IfOk result (λ read. IfSome read (λ rest. ReadsNegated (T.pairs table.now) tokens.now
        writer.old writer.new rest.now)) }
{
    let Some(inside) = mark_at(tokens, b'(') else {
        return atom(alloc, table, tokens, writer);
    };
    match atom(alloc, table, inside, writer)? {
        Some(after) => Ok(mark_at(after, b')')),
        None => Ok(None),
    }
}

/// The tokens after the atom of a negative literal: a predicate, or two terms with `=` between
/// them.
fn atom<'t, 'b, T: SymTable>(
    alloc: Global,
    table: &T,
    tokens: &'t [Lexeme<'b>],
    writer: &mut QueryWriter<'b>,
) -> Result<Option<&'t [Lexeme<'b>]>, AllocError>
    requires { HasNumbersFor 1 tokens.now writer.old }
    ensures { IfOk result (λ read. IfSome read (λ rest. ReadsAtom (T.pairs table.now) tokens.now
        writer.old writer.new rest.now)) }
{
    let Some((equal, rest)) = statement(alloc, table, true, tokens, writer)? else {
        return Ok(None);
    };
    if equal { Ok(Some(rest)) } else { Ok(None) }
}

/// The literal without a tilde at the front: whether it is no inequality, and the tokens after it.
/// The sign of an equation stands in no term. So where one comes, this is an equation or an
/// inequality, and else a predicate.
fn statement<'t, 'b, T: SymTable>(
    alloc: Global,
    table: &T,
    denied: bool,
    tokens: &'t [Lexeme<'b>],
    writer: &mut QueryWriter<'b>,
) -> Result<Option<(bool, &'t [Lexeme<'b>])>, AllocError>
    requires { HasNumbersFor 1 tokens.now writer.old }
    ensures { IfOk result (λ read. IfSome read (λ r. ReadsStatement (T.pairs table.now) r.0
        (r.0 && not denied) tokens.now writer.old writer.new r.1.now)) }
{
    if has_equation_sign(tokens) {
        return equation(alloc, table, denied, tokens, writer);
    }
    match predicate(alloc, table, !denied, tokens, writer)? {
        Some(rest) => Ok(Some((true, rest))),
        None => Ok(None),
    }
}

/// Whether one of these tokens is the sign of an equation, or of its negation.
fn has_equation_sign(tokens: &[Lexeme<'_>]) -> bool
    ensures { IsFalse result ↔ HasNoEquationSign tokens.now }
{
    tokens.iter().any(|token| may_be_equation_sign(token))
}

/// Whether a token is `=`, or of the kind of `!=`.
fn may_be_equation_sign(token: &Lexeme<'_>) -> bool
    ensures { IsTrue result ↔ MayBeEquationSign (token_of token.now) }
{
    token.kind == TokenKind::NotEqual || token.is_mark(b'=')
}

/// Two terms with a sign between them, and the tokens after them.
fn equation<'t, 'b, T: SymTable>(
    alloc: Global,
    table: &T,
    denied: bool,
    tokens: &'t [Lexeme<'b>],
    writer: &mut QueryWriter<'b>,
) -> Result<Option<(bool, &'t [Lexeme<'b>])>, AllocError>
    requires { HasNumbersFor 1 tokens.now writer.old }
    ensures { IfOk result (λ read. IfSome read (λ r. ReadsStatement (T.pairs table.now) r.0
        (r.0 && not denied) tokens.now writer.old writer.new r.1.now)) }
{
    let gap = writer.open()?;
    let Some(after) = term(alloc, table, tokens, writer)? else {
        return Ok(None);
    };
    let Some((equal, next)) = equation_sign(after) else {
        return Ok(None);
    };
    let Some(rest) = term(alloc, table, next, writer)? else {
        return Ok(None);
    };
    let symbol = Sym {
        text: Text::from_bytes(alloc, b"=".as_slice())?,
        arity: 2,
        kind: SymKind::Equal,
        side: Side::Predicate,
    };
    let Some(()) = writer.close(table, gap, &symbol, is_positive(equal, denied)) else {
        return Ok(None);
    };
    Ok(Some((equal, rest)))
}

/// Whether a literal is positive: it is no inequality, and it isn't denied.
fn is_positive(equal: bool, denied: bool) -> bool
    ensures { result ≡ (equal && not denied) }
{
    equal && !denied
}

/// A predicate with its arguments, and the tokens after it, if no sign of an equation stands there.
fn predicate<'t, 'b, T: SymTable>(
    alloc: Global,
    table: &T,
    positive: bool,
    tokens: &'t [Lexeme<'b>],
    writer: &mut QueryWriter<'b>,
) -> Result<Option<&'t [Lexeme<'b>]>, AllocError>
    requires { HasNumbersFor 1 tokens.now writer.old }
    ensures { IfOk result (λ read. IfSome read (λ rest. ReadsStatement (T.pairs table.now) true
        positive tokens.now writer.old writer.new rest.now)) }
{
    let [head, after @ ..] = tokens else {
        return Ok(None);
    };
    let Some(kind) = head_kind(head.kind) else {
        return Ok(None);
    };
    let gap = writer.open()?;
    let Some((arity, rest)) = applied(alloc, table, after, writer)? else {
        return Ok(None);
    };
    if equation_sign(rest).is_some() {
        return Ok(None);
    }
    let symbol = Sym {
        text: head.text(alloc)?,
        arity,
        kind,
        side: Side::Predicate,
    };
    let Some(()) = writer.close(table, gap, &symbol, positive) else {
        return Ok(None);
    };
    Ok(Some(rest))
}
