// Formulas, names and files as whole texts.
ghost use Rattle.std.specs.Prelude.{◌≤◌, length, IfOk, IfSome, option_map};
ghost use Rattle.si_defs.specs.Clauses.{AreSoundLiterals};
ghost use Rattle.si_defs.specs.Grammar.{IsFormula};
ghost use Rattle.si_lex.specs.Lexemes.{tokens_of};
ghost use Rattle.si_parse.specs.GrammarRules.{IsFileToken, IsNameToken};
ghost use Rattle.si_parse.specs.Meaning.{literals_of};
ghost use Rattle.si_defs.specs.declared.TheConstants.{MOST_BYTES};
ghost use Rattle.si_parse.specs.ReadBack.{ReadsBackFile, ReadsBackName};
ghost use Rattle.si_parse.specs.Reading.{ReadsAll, ReadsText};
ghost use Rattle.si_term.specs.Meaning.{name_of};

use crate::grammar::{file, formula, name};
use si_lex::{Lexeme, TokensEnd, lex};
use si_term::{Literals, Name, Text};
use std::alloc::{AllocError, Global};

/// The formula that the whole bytes are, with blanks round it.
///
/// # Errors
/// `AllocError` where memory runs out.
pub fn read_formula(alloc: Global, bytes: &[u8]) -> Result<Option<Literals>, AllocError>
    requires { length bytes.now ≤ MOST_BYTES }
    ensures read { IfOk result (ReadsText literals_of IsFormula bytes.now) }
    ensures sound { IfOk result
        (λ read. IfSome read (λ ls. AreSoundLiterals (literals_of ls))) }
{
    let lexing = lex(alloc, bytes, 0)?;
    match lexing.why {
        TokensEnd::End => whole_formula(alloc, lexing.tokens.as_slice()),
        _ => Ok(None),
    }
}

/// The name that the whole bytes are, with blanks round it. A printed name is read back.
///
/// # Errors
/// `AllocError` where memory runs out.
pub fn read_name(alloc: Global, bytes: &[u8]) -> Result<Option<Name>, AllocError>
    requires { length bytes.now ≤ MOST_BYTES }
    ensures read { IfOk result (ReadsText name_of IsNameToken bytes.now) }
    ensures back { IfOk result (λ read. ReadsBackName bytes.now (option_map name_of read)) }
{
    let lexing = lex(alloc, bytes, 0)?;
    match lexing.why {
        TokensEnd::End => whole_name(alloc, lexing.tokens.as_slice()),
        _ => Ok(None),
    }
}

/// The name of a file that the whole bytes are, with blanks round it. A printed one is read back.
///
/// # Errors
/// `AllocError` where memory runs out.
pub fn read_file(alloc: Global, bytes: &[u8]) -> Result<Option<Text>, AllocError>
    requires { length bytes.now ≤ MOST_BYTES }
    ensures read { IfOk result (ReadsText (λ t. t) IsFileToken bytes.now) }
    ensures back { IfOk result (ReadsBackFile bytes.now) }
{
    let lexing = lex(alloc, bytes, 0)?;
    match lexing.why {
        TokensEnd::End => whole_file(alloc, lexing.tokens.as_slice()),
        _ => Ok(None),
    }
}

/// The formula that all the tokens spell.
///
/// # Errors
/// `AllocError` where memory runs out.
pub fn whole_formula(alloc: Global, tokens: &[Lexeme]) -> Result<Option<Literals>, AllocError>
    requires { length tokens.now ≤ MOST_BYTES }
    ensures read { IfOk result (ReadsAll literals_of IsFormula (tokens_of tokens.now)) }
    ensures sound { IfOk result
        (λ read. IfSome read (λ ls. AreSoundLiterals (literals_of ls))) }
{
    let Some((literals, rest)) = formula(alloc, tokens)? else {
        return Ok(None);
    };
    if !rest.is_empty() {
        return Ok(None);
    }
    Ok(Some(literals))
}

/// The name that all the tokens spell.
///
/// # Errors
/// `AllocError` where memory runs out.
pub fn whole_name(alloc: Global, tokens: &[Lexeme]) -> Result<Option<Name>, AllocError>
    ensures { IfOk result (ReadsAll name_of IsNameToken (tokens_of tokens.now)) }
{
    let Some((name, rest)) = name(alloc, tokens)? else {
        return Ok(None);
    };
    if !rest.is_empty() {
        return Ok(None);
    }
    Ok(Some(name))
}

/// The name of a file that all the tokens spell.
///
/// # Errors
/// `AllocError` where memory runs out.
pub fn whole_file(alloc: Global, tokens: &[Lexeme]) -> Result<Option<Text>, AllocError>
    ensures { IfOk result (ReadsAll (λ t. t) IsFileToken (tokens_of tokens.now)) }
{
    let Some((file, rest)) = file(alloc, tokens)? else {
        return Ok(None);
    };
    if !rest.is_empty() {
        return Ok(None);
    }
    Ok(Some(file))
}
