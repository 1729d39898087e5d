//! A query's flat term, read straight from its tokens.
//!
//! No term is made, and no text is kept. What is read is what si_parse reads of the same tokens,
//! and the cells are those that si_flat gives of it. Where the tokens spell no pattern, or have a
//! symbol that the table lacks, nothing is said: a reader that makes the term tells which.
#![tactic(auto)]

ghost use Rattle.std.specs.Prelude.{◌≤◌, IfOk, IfSome, length};
ghost use Rattle.si_defs.specs.declared.TheConstants.{MOST_BYTES};
ghost use Rattle.si_lex.specs.Lexemes.{tokens_of};
ghost use Rattle.si_query.specs.Reading.{HasNumbersFor, ReadsFlat, ReadsByKind};

mod literals;
mod terms;

use crate::literals::literal;
use crate::terms::term;
use si_flat::{FlatQuery, QueryWriter};
use si_lex::Lexeme;
use si_parse::pattern::PatternKind;
use si_term::SymTable;
use std::alloc::{AllocError, Global};

/// The flat term of the pattern that all the tokens spell. `None` says nothing: it comes where they
/// spell none, or where the pattern has a symbol that the table lacks.
///
/// # Errors
///
/// `AllocError` where memory runs out.
pub fn read_flat<T: SymTable>(
    alloc: Global,
    table: &T,
    tokens: &[Lexeme<'_>],
    kind: PatternKind,
) -> Result<Option<FlatQuery>, AllocError>
    requires { length tokens.now ≤ MOST_BYTES }
    ensures { IfOk result (λ read. IfSome read
        (ReadsFlat (T.pairs table.now) (tokens_of tokens.now) kind)) }
{
    let mut writer = QueryWriter::new(alloc)?;
    let Some(rest) = pattern(alloc, table, tokens, kind, &mut writer)? else {
        return Ok(None);
    };
    if !rest.is_empty() {
        return Ok(None);
    }
    Ok(Some(writer.into_query(alloc)?))
}

/// The tokens after the pattern at the front, whose cells are written.
fn pattern<'t, 'b, T: SymTable>(
    alloc: Global,
    table: &T,
    tokens: &'t [Lexeme<'b>],
    kind: PatternKind,
    writer: &mut QueryWriter<'b>,
) -> Result<Option<&'t [Lexeme<'b>]>, AllocError>
    requires { HasNumbersFor 1 tokens.now writer.old }
    ensures { IfOk result (λ read. IfSome read (λ rest. ReadsByKind kind (T.pairs table.now)
        tokens.now writer.old writer.new rest.now)) }
{
    match kind {
        PatternKind::Lit => literal(alloc, table, tokens, writer),
        PatternKind::Term => term(alloc, table, tokens, writer),
    }
}
