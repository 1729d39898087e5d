// Clauses.
ghost use Rattle.std.specs.Prelude.{◌≡◌, ◌≤◌, IfOk, length};
ghost use Rattle.si_defs.specs.Clauses.{IsSoundClause};
ghost use Rattle.si_defs.specs.Grammar.{IsClause};
ghost use Rattle.si_parse.specs.GrammarRules.{IsClosed, IsHeading};
ghost use Rattle.si_parse.specs.Meaning.{heading_of};
ghost use Rattle.si_parse.specs.Parsing.{Anything, IfFound, PassesTokens, Reads};
ghost use Rattle.si_defs.specs.declared.TheConstants.{MOST_BYTES};
ghost use Rattle.si_term.specs.Meaning.{clause_of};

use crate::grammar::annotations::annotations;
use crate::grammar::formulas::formula;
use crate::grammar::names::{name, role};
use crate::grammar::{Parsed, mark_at, opening};
use si_lex::Lexeme;
use si_term::{Clause, Name, Text};
use std::alloc::{AllocError, Global};

/// The clause at the front, up to and with its full stop: `cnf(name, role, formula).`, with
/// annotations after the formula if a comma stands there.
///
/// # Errors
/// `AllocError` where memory runs out.
pub fn clause<'t, 'b>(
    alloc: Global,
    tokens: &'t [Lexeme<'b>],
) -> Result<Parsed<'t, 'b, Clause>, AllocError>
    requires { length tokens.now ≤ MOST_BYTES }
    ensures read { IfOk result (Reads clause_of IsClause Anything tokens.now) }
    ensures sound { IfOk result (IfFound (λ c. IsSoundClause (clause_of c))) }
{
    let Some(rest) = opening(tokens, b"cnf".as_slice()) else {
        return Ok(None);
    };
    let Some((heading, rest)) = heading(alloc, rest)? else {
        return Ok(None);
    };
    let Some((literals, rest)) = formula(alloc, rest)? else {
        return Ok(None);
    };
    let Some(rest) = closed(alloc, rest)? else {
        return Ok(None);
    };
    match mark_at(rest, b'.') {
        Some(rest) => Ok(Some((
            Clause {
                name: heading.0,
                role: heading.1,
                literals,
            },
            rest,
        ))),
        None => Ok(None),
    }
}

/// The name and the role of a clause, each before a comma.
fn heading<'t, 'b>(
    alloc: Global,
    tokens: &'t [Lexeme<'b>],
) -> Result<Parsed<'t, 'b, (Name, Text)>, AllocError>
    ensures { IfOk result (Reads heading_of IsHeading Anything tokens.now) }
{
    let Some((name, rest)) = name(alloc, tokens)? else {
        return Ok(None);
    };
    let Some(rest) = mark_at(rest, b',') else {
        return Ok(None);
    };
    let Some((role, rest)) = role(alloc, rest)? else {
        return Ok(None);
    };
    match mark_at(rest, b',') {
        Some(rest) => Ok(Some(((name, role), rest))),
        None => Ok(None),
    }
}

/// The tokens that are left once a clause is closed: after its formula come a comma and
/// annotations, if any, and the closing bracket.
fn closed<'t, 'b>(
    alloc: Global,
    tokens: &'t [Lexeme<'b>],
) -> Result<Option<&'t [Lexeme<'b>]>, AllocError>
    ensures { IfOk result (PassesTokens IsClosed tokens.now) }
{
    match mark_at(tokens, b',') {
        Some(rest) => annotations(alloc, rest),
        None => Ok(mark_at(tokens, b')')),
    }
}
