// Includes.
ghost use Rattle.std.specs.Prelude.{◌≡◌, IfOk};
ghost use Rattle.si_defs.specs.Grammar.{IsSelection};
ghost use Rattle.si_parse.specs.GrammarRules.{AreChosen, AreLast, IsInclude};
ghost use Rattle.si_parse.specs.Meaning.{include_of, names_of, selection_of};
ghost use Rattle.si_parse.specs.Parsing.{Anything, NoName, PassesTokens, Reads};

use crate::grammar::names::{file, names};
use crate::grammar::{Parsed, mark_at, opening};
use si_lex::Lexeme;
use si_term::{Names, Text};
use std::alloc::{AllocError, Global};

/// The clauses of a file that an include keeps.
#[derive(Drop)]
pub enum Selection {
    /// All of them.
    All,
    /// Those with these names.
    Only(Names),
}

/// The include at the front, up to and with its full stop: `include('file').`, or `include('file',
/// [names]).`. Answers the name of the file, and which of its clauses are kept.
///
/// # Errors
/// `AllocError` where memory runs out.
pub fn include<'t, 'b>(
    alloc: Global,
    tokens: &'t [Lexeme<'b>],
) -> Result<Parsed<'t, 'b, (Text, Selection)>, AllocError>
    ensures { IfOk result (Reads include_of IsInclude Anything tokens.now) }
{
    let Some(rest) = opening(tokens, b"include".as_slice()) else {
        return Ok(None);
    };
    let Some((file, rest)) = file(alloc, rest)? else {
        return Ok(None);
    };
    let Some((selection, rest)) = selected(alloc, rest)? else {
        return Ok(None);
    };
    match last(rest) {
        Some(rest) => Ok(Some(((file, selection), rest))),
        None => Ok(None),
    }
}

/// The tokens after a closing bracket and a full stop.
fn last<'t, 'b>(tokens: &'t [Lexeme<'b>]) -> Option<&'t [Lexeme<'b>]>
    ensures { PassesTokens AreLast tokens.now result }
{
    let Some(rest) = mark_at(tokens, b')') else {
        return None;
    };
    mark_at(rest, b'.')
}

/// What stands after the file: names in square brackets after a comma, or nothing.
fn selected<'t, 'b>(
    alloc: Global,
    tokens: &'t [Lexeme<'b>],
) -> Result<Parsed<'t, 'b, Selection>, AllocError>
    ensures { IfOk result (Reads selection_of IsSelection NoName tokens.now) }
{
    let Some(behind) = mark_at(tokens, b',') else {
        return Ok(Some((Selection::All, tokens)));
    };
    match chosen(alloc, behind)? {
        Some((names, rest)) => Ok(Some((Selection::Only(names), rest))),
        None => Ok(None),
    }
}

/// Names in square brackets.
fn chosen<'t, 'b>(
    alloc: Global,
    tokens: &'t [Lexeme<'b>],
) -> Result<Parsed<'t, 'b, Names>, AllocError>
    ensures { IfOk result (Reads names_of AreChosen Anything tokens.now) }
{
    let Some(inside) = mark_at(tokens, b'[') else {
        return Ok(None);
    };
    let Some((names, behind)) = names(alloc, inside)? else {
        return Ok(None);
    };
    match mark_at(behind, b']') {
        Some(rest) => Ok(Some((names, rest))),
        None => Ok(None),
    }
}
