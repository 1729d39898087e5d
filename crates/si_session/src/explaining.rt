// Queries that are made flat as their lines are read, to be explained.
ghost use Rattle.std.specs.Prelude.{◌≡◌, ◌≤◌, ◌∷◌, IfOk, IfSome, length};
ghost use Rattle.si_defs.specs.Tokens.{lower};
ghost use Rattle.si_defs.specs.declared.TheConstants.{MOST_BYTES};
ghost use Rattle.si_lex.specs.Lexemes.{tokens_of};
ghost use Rattle.si_steps.specs.Words.{command_text, relation_text};
ghost use Rattle.si_steps.specs.declared.word.Word.TheVariants.{Explain};
ghost use Rattle.si_session.specs.Commands.{kind_word};
ghost use Rattle.si_session.specs.Explained.{AsksForLiterals, IsExplained};

use crate::command::kind_of;
use crate::word::relation_of;
use si_defs::Relation;
use si_index::{Explained, Index, SearchMemory};
use si_lex::{Lexeme, TokensEnd, lex};
use si_parse::pattern::PatternKind;
use si_query::read_flat;
use std::alloc::{AllocError, Global};

/// What the tokens of a line ask to be explained: a relation to a pattern, which isn't read yet.
#[derive(Clone, Copy)]
struct Question<'t, 'b> {
    relation: Relation,
    kind: PatternKind,
    pattern: &'t [Lexeme<'b>],
}

/// What the query of a line passes and answers, if the line is the command to explain one, and its
/// pattern has only symbols of kept clauses. `None` says nothing: the line is to be read as any
/// other is.
pub fn explained_at_once(
    alloc: Global,
    index: &Index,
    memory: &mut SearchMemory,
    line: &[u8],
) -> Option<Explained>
    requires { length line.now ≤ MOST_BYTES }
    ensures { IfSome result (IsExplained index.now line.now) }
{
    if !line.starts_with(b"explain") {
        return None;
    }
    match explained(alloc, index, memory, line) {
        Ok(found) => found,
        Err(_) => None,
    }
}

/// The same, whatever the line begins with. At an error nothing is said.
fn explained(
    alloc: Global,
    index: &Index,
    memory: &mut SearchMemory,
    line: &[u8],
) -> Result<Option<Explained>, AllocError>
    requires { length line.now ≤ MOST_BYTES }
    ensures { IfOk result (λ found. IfSome found (IsExplained index.now line.now)) }
{
    let lexing = lex(alloc, line, 0)?;
    let TokensEnd::End = lexing.why else {
        return Ok(None);
    };
    let Some(question) = question_of(lexing.tokens.as_slice()) else {
        return Ok(None);
    };
    let Some(query) = read_flat(alloc, index.signature(), question.pattern, question.kind)? else {
        return Ok(None);
    };
    let literal = asks_literals(question.kind);
    let found = index.explain_flat(memory, question.relation, literal, &query)?;
    Ok(Some(found))
}

/// The question that these tokens ask, of which the pattern's come last.
fn question_of<'t, 'b>(tokens: &'t [Lexeme<'b>]) -> Option<Question<'t, 'b>>
    ensures { IfSome result (λ q. tokens_of tokens.now
        ≡ lower (command_text Explain) ∷ lower (relation_text q.relation)
        ∷ lower (kind_word q.kind) ∷ tokens_of q.pattern.now) }
{
    let [command, relation, kind, pattern @ ..] = tokens else {
        return None;
    };
    if !command.is_lower(b"explain") {
        return None;
    }
    Some(Question {
        relation: relation_of(relation)?,
        kind: kind_of(kind)?,
        pattern,
    })
}

/// Whether patterns of this kind ask for literals.
fn asks_literals(kind: PatternKind) -> bool
    ensures { AsksForLiterals kind result }
{
    match kind {
        PatternKind::Lit => true,
        PatternKind::Term => false,
    }
}
