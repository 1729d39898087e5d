// Terms at the front of tokens, whose cells are written as they are read.
ghost use Rattle.std.specs.Prelude.{◌<◌, ◌-◌, ◌^◌, IfOk, IfSome, length, true};
ghost use Rattle.si_defs.specs.declared.TokenKind.{TokenKind};
ghost use Rattle.si_lex.specs.Lexemes.{token_of};
ghost use Rattle.si_flat.specs.Writing.{PutsSymbol};
ghost use Rattle.si_parse.specs.GrammarRules.{function_symbol};
ghost use Rattle.si_query.specs.Reading.{HasNumbersFor, IsHeadKind, ReadsApplied, ReadsArguments, ReadsHeaded, ReadsTerm, WritesConstant};

use si_defs::{Side, SymKind, TokenKind};
use si_flat::{Gap, QueryWriter};
use si_lex::Lexeme;
use si_parse::grammar::mark_at;
use si_term::{Sym, SymTable};
use std::alloc::{AllocError, Global};

/// The tokens after the term at the front, whatever comes next. The term's cells are written.
#[cycle(reading)]
pub(crate) fn term<'t, 'b, T: SymTable>(
    alloc: Global,
    table: &T,
    tokens: &'t [Lexeme<'b>],
    writer: &mut QueryWriter<'b>,
) -> Result<Option<&'t [Lexeme<'b>]>, AllocError>
    requires { HasNumbersFor 0 tokens.now writer.old }
    ensures { IfOk result (λ read. IfSome read (λ rest.
        ReadsTerm (T.pairs table.now) tokens.now writer.old writer.new rest.now)) }
{
    match tokens {
        [first, rest @ ..] => match first.kind {
            TokenKind::Upper => {
                writer.variable(first.spelling)?;
                Ok(Some(rest))
            }
            TokenKind::Int => constant(alloc, table, SymKind::Number, first, rest, writer),
            TokenKind::Double => constant(alloc, table, SymKind::Distinct, first, rest, writer),
            kind => match head_kind(kind) {
                Some(symbol) => application(alloc, table, symbol, first, rest, writer),
                None => Ok(None),
            },
        },
        [] => Ok(None),
    }
}

/// A number or a distinct object, by its token, and the tokens after it.
fn constant<'t, 'b, T: SymTable>(
    alloc: Global,
    table: &T,
    kind: SymKind,
    token: &Lexeme<'b>,
    rest: &'t [Lexeme<'b>],
    writer: &mut QueryWriter<'b>,
) -> Result<Option<&'t [Lexeme<'b>]>, AllocError>
    requires { HasNumbersFor 1 rest.now writer.old }
    ensures { IfOk result (λ read. IfSome read (λ left. WritesConstant (T.pairs table.now) kind
        (token_of token.now).text rest.now writer.old writer.new left.now)) }
{
    let gap = writer.open()?;
    let Some(()) = close_function(alloc, table, gap, kind, token, 0, writer)? else {
        return Ok(None);
    };
    Ok(Some(rest))
}

/// A head with the arguments that stand after it, if any do.
#[cycle(reading)]
#[inline(always)]
fn application<'t, 'b, T: SymTable>(
    alloc: Global,
    table: &T,
    kind: SymKind,
    head: &Lexeme<'b>,
    tokens: &'t [Lexeme<'b>],
    writer: &mut QueryWriter<'b>,
) -> Result<Option<&'t [Lexeme<'b>]>, AllocError>
    requires { HasNumbersFor 1 tokens.now writer.old }
    ensures { IfOk result (λ read. IfSome read (λ rest. ReadsHeaded (T.pairs table.now) kind
        (token_of head.now).text tokens.now writer.old writer.new rest.now)) }
{
    let gap = writer.open()?;
    let Some((arity, rest)) = applied(alloc, table, tokens, writer)? else {
        return Ok(None);
    };
    let Some(()) = close_function(alloc, table, gap, kind, head, arity, writer)? else {
        return Ok(None);
    };
    Ok(Some(rest))
}

/// Puts the cell of a function, by the token of its head, in the place that was left for it. `None`
/// where the table lacks the symbol.
#[inline(always)]
fn close_function<T: SymTable>(
    alloc: Global,
    table: &T,
    gap: Gap,
    kind: SymKind,
    head: &Lexeme<'_>,
    arity: u32,
    writer: &mut QueryWriter<'_>,
) -> Result<Option<()>, AllocError>
    requires inside { gap < length writer.old.cells }
    requires short { length writer.old.cells - gap < 2 ^ 32 }
    ensures { IfOk result (λ put. IfSome put (λ _. PutsSymbol (T.pairs table.now)
        (function_symbol kind (token_of head.now).text arity) true gap writer.old writer.new)) }
{
    let symbol = Sym {
        text: head.text(alloc)?,
        arity,
        kind,
        side: Side::Function,
    };
    Ok(writer.close(table, gap, &symbol, true))
}

/// How many arguments stand after a head, and the tokens after them. None are there without a
/// bracket.
#[cycle(reading)]
#[inline(always)]
pub(crate) fn applied<'t, 'b, T: SymTable>(
    alloc: Global,
    table: &T,
    tokens: &'t [Lexeme<'b>],
    writer: &mut QueryWriter<'b>,
) -> Result<Option<(u32, &'t [Lexeme<'b>])>, AllocError>
    requires { HasNumbersFor 0 tokens.now writer.old }
    ensures { IfOk result (λ read. IfSome read (λ r. ReadsApplied (T.pairs table.now) tokens.now
        writer.old writer.new r.0 r.1.now)) }
{
    let Some(inside) = mark_at(tokens, b'(') else {
        return Ok(Some((0, tokens)));
    };
    let Some((count, after)) = arguments(alloc, table, inside, writer)? else {
        return Ok(None);
    };
    match mark_at(after, b')') {
        Some(rest) => Ok(Some((count, rest))),
        None => Ok(None),
    }
}

/// How many terms with commas between them stand at the front, and the tokens after them.
#[cycle(reading)]
#[inline(always)]
fn arguments<'t, 'b, T: SymTable>(
    alloc: Global,
    table: &T,
    tokens: &'t [Lexeme<'b>],
    writer: &mut QueryWriter<'b>,
) -> Result<Option<(u32, &'t [Lexeme<'b>])>, AllocError>
    requires { HasNumbersFor 0 tokens.now writer.old }
    ensures { IfOk result (λ read. IfSome read (λ r. ReadsArguments (T.pairs table.now) tokens.now
        writer.old writer.new r.0 r.1.now)) }
{
    let Some(first) = term(alloc, table, tokens, writer)? else {
        return Ok(None);
    };
    let mut left = first;
    let mut count: u32 = 1;
    while let Some(rest) = mark_at(left, b',') {
        let Some(after) = term(alloc, table, rest, writer)? else {
            return Ok(None);
        };
        left = after;
        count += 1;
    }
    Ok(Some((count, left)))
}

/// The kind of the symbol that a token is as a head, before arguments or alone.
#[inline(always)]
pub(crate) fn head_kind(kind: TokenKind) -> Option<SymKind>
    ensures { IfSome result (IsHeadKind kind) }
{
    match kind {
        TokenKind::Lower => Some(SymKind::Word),
        TokenKind::Single => Some(SymKind::Word),
        TokenKind::Dollar => Some(SymKind::Dollar),
        _ => None,
    }
}
