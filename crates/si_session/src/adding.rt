// Clauses of lines that are read as those of files.
ghost use Rattle.std.specs.Prelude.{◌≡◌, ◌≤◌, ◌↔◌, IfOk, IfSome, IsTrue, length};
ghost use Rattle.si_defs.specs.Tokens.{lower};
ghost use Rattle.si_defs.specs.declared.TheConstants.{MOST_BYTES};
ghost use Rattle.si_steps.specs.Words.{command_text};
ghost use Rattle.si_steps.specs.declared.word.Word.TheVariants.{Add};
ghost use Rattle.si_session.specs.Commands.{ReadsCommand};
ghost use Rattle.si_session.specs.declared.command.Command.TheVariants as command;

use si_defs::TokenKind;
use si_lex::{Lexed, Token, TokensEnd, lex_item, next_token};
use si_parse::grammar::clause;
use si_term::Clause;
use std::alloc::{AllocError, Global};

/// The clause that a line adds, read as the clauses of files are, so that its annotations are
/// passed. `None` says nothing: the line is then to be read as any other is.
pub fn added_at_once(alloc: Global, line: &[u8]) -> Option<Clause>
    requires { length line.now ≤ MOST_BYTES }
    ensures { IfSome result (λ clause. ReadsCommand line.now (command.Add clause)) }
{
    if !line.starts_with(b"add") {
        return None;
    }
    match added(alloc, line) {
        Ok(found) => found,
        Err(_) => None,
    }
}

/// The same, whatever the line begins with. At an error nothing is said.
///
/// What follows the clause is looked at before the clause is made.
fn added(alloc: Global, line: &[u8]) -> Result<Option<Clause>, AllocError>
    requires { length line.now ≤ MOST_BYTES }
    ensures { IfOk result (λ found. IfSome found
        (λ clause. ReadsCommand line.now (command.Add clause))) }
{
    let Lexed::Token(word) = next_token(alloc, line, 0)? else {
        return Ok(None);
    };
    if !is_add(&word) {
        return Ok(None);
    }
    let item = lex_item(alloc, line, word.end)?;
    let TokensEnd::FullStop = item.why else {
        return Ok(None);
    };
    let Lexed::End = next_token(alloc, line, item.end)? else {
        return Ok(None);
    };
    match clause(alloc, item.tokens.as_slice())? {
        Some((clause, _)) => Ok(Some(clause)),
        None => Ok(None),
    }
}

/// Whether a token is the word `add`.
fn is_add(token: &Token) -> bool
    ensures { IsTrue result ↔ (record { kind = token.now.kind; text = token.now.text }
        ≡ lower (command_text Add)) }
{
    match token.kind {
        TokenKind::Lower => token.text.as_bytes() == b"add".as_slice(),
        _ => false,
    }
}
