// Names, roles and files.
ghost use Rattle.std.specs.Prelude.{◌≡◌, IfOk};
ghost use Rattle.si_parse.specs.GrammarRules.{AreNames, IsFileToken, IsNameToken, IsRole};
ghost use Rattle.si_parse.specs.Meaning.{names_of};
ghost use Rattle.si_parse.specs.Parsing.{Anything, NoName, Reads};
ghost use Rattle.si_term.specs.Meaning.{name_of};

use crate::grammar::{Parsed, mark_at};
use si_defs::{NameKind, TokenKind};
use si_lex::Lexeme;
use si_term::{Name, Names, Text};
use std::alloc::{AllocError, Global};

/// The name of a clause at the front: a lower word, a text in single quotes, or an integer.
///
/// # Errors
/// `AllocError` where memory runs out.
pub fn name<'t, 'b>(
    alloc: Global,
    tokens: &'t [Lexeme<'b>],
) -> Result<Parsed<'t, 'b, Name>, AllocError>
    ensures { IfOk result (Reads name_of IsNameToken Anything tokens.now) }
{
    match tokens {
        [first, rest @ ..] => {
            let kind = match first.kind {
                TokenKind::Lower => NameKind::Word,
                TokenKind::Single => NameKind::Word,
                TokenKind::Int => NameKind::Int,
                _ => return Ok(None),
            };
            let text = first.text(alloc)?;
            Ok(Some((Name { kind, text }, rest)))
        }
        [] => Ok(None),
    }
}

/// Names with commas between them.
pub(crate) fn names<'t, 'b>(
    alloc: Global,
    tokens: &'t [Lexeme<'b>],
) -> Result<Parsed<'t, 'b, Names>, AllocError>
    ensures { IfOk result (Reads names_of AreNames NoName tokens.now) }
{
    let Some((first, behind)) = name(alloc, tokens)? else {
        return Ok(None);
    };
    let mut names = Names::new(alloc);
    names.push(first)?;
    let mut left = behind;
    while let Some(rest) = mark_at(left, b',') {
        let Some((next, behind)) = name(alloc, rest)? else {
            return Ok(None);
        };
        names.push(next)?;
        left = behind;
    }
    names.shrink();
    Ok(Some((names, left)))
}

/// The role of a clause at the front: a lower word.
pub(crate) fn role<'t, 'b>(
    alloc: Global,
    tokens: &'t [Lexeme<'b>],
) -> Result<Parsed<'t, 'b, Text>, AllocError>
    ensures { IfOk result (Reads (λ t. t) IsRole Anything tokens.now) }
{
    match tokens {
        [first, rest @ ..] => match first.kind {
            TokenKind::Lower => Ok(Some((first.text(alloc)?, rest))),
            _ => Ok(None),
        },
        [] => Ok(None),
    }
}

/// The name of a file at the front: a text in single quotes.
///
/// # Errors
/// `AllocError` where memory runs out.
pub fn file<'t, 'b>(
    alloc: Global,
    tokens: &'t [Lexeme<'b>],
) -> Result<Parsed<'t, 'b, Text>, AllocError>
    ensures { IfOk result (Reads (λ t. t) IsFileToken Anything tokens.now) }
{
    match tokens {
        [first, rest @ ..] => match first.kind {
            TokenKind::Single => Ok(Some((first.text(alloc)?, rest))),
            _ => Ok(None),
        },
        [] => Ok(None),
    }
}
