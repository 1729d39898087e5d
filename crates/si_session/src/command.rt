// Command lines.
ghost use Rattle.std.specs.Prelude.{◌≡◌, ◌≤◌, ◌∷◌, [], IfSome, IfNone, length, IfOk, OnErr};
ghost use Rattle.si_defs.specs.Tokens.{lower, AreBlanks};
ghost use Rattle.si_lex.specs.Lexemes.{token_of, tokens_of};
ghost use Rattle.si_lex.specs.declared.lexing.TokensEnd.{TokensEnd};
ghost use Rattle.si_lex.specs.declared.lexing.TokensEnd.TheVariants.{End};
ghost use Rattle.si_defs.specs.declared.TheConstants.{MOST_BYTES};
ghost use Rattle.si_parse.specs.declared.pattern.PatternKind.{PatternKind};
ghost use Rattle.si_steps.specs.Words.{command_text};
ghost use Rattle.si_steps.specs.declared.word.Word.{Word};
ghost use Rattle.si_steps.specs.declared.word.Word.TheVariants.{Add, Load, Remove, Ask, Subsumers, Subsumed, Explain, Sample};
ghost use Rattle.si_session.specs.Commands.{Commands, MeansAlone, ReadsCommand, ReadsQuery, kind_word};

use crate::adding::added_at_once;
use crate::number::numeral_of;
use crate::word::{relation_of, word_of};
use si_defs::Relation;
use si_lex::{Lexeme, TokensEnd, lex};
use si_parse::grammar::{clause, name};
use si_parse::item::is_foreign;
use si_parse::pattern::{PatternKind, whole_pattern};
use si_parse::text::{whole_file, whole_formula};
use si_state::{GREATEST_START, MOST_DRAWN};
use si_steps::Word;
use si_term::{Clause, Literals, Name, Pattern, Text};
use std::alloc::{AllocError, Global};

/// What a command line asks for.
#[derive(Drop)]
pub enum Command {
    /// Nothing: only blanks stand there.
    Blank,
    /// That a formula of another language be kept.
    Foreign,
    /// Nothing that is a command.
    Wrong,
    /// That a clause be kept.
    Add(Clause),
    /// That the clauses of the file with this name, and of those that it includes, be kept.
    Load(Text),
    /// That the clause with this name go.
    Remove(Name),
    /// The entries that stand in a relation to a pattern.
    Query(Relation, Pattern),
    /// The clauses that subsume a formula.
    Subsumers(Literals),
    /// The clauses that a formula subsumes.
    Subsumed(Literals),
    /// How much is kept.
    Stats,
    /// How many nodes the trees have.
    Tree,
    /// What a query passes in its tree, and how many answers it has.
    Explain(Relation, Pattern),
    /// So many clauses that are drawn from a start, and how much unifies with them.
    Sample { start: u32, count: u32 },
}

/// The command that a line is.
///
/// # Errors
/// `AllocError` where memory runs out, which never happens at a line of blanks.
pub fn read_command(alloc: Global, line: &[u8]) -> Result<Command, AllocError>
    requires { length line.now ≤ MOST_BYTES }
    ensures read { IfOk result (ReadsCommand line.now) }
    ensures refused { OnErr result (AreBlanks line.now → ⊥) }
{
    if let Some(clause) = added_at_once(alloc, line) {
        return Ok(Command::Add(clause));
    }
    let lexing = lex(alloc, line, 0)?;
    command_of(alloc, lexing.tokens.as_slice(), lexing.why)
}

/// The command that the tokens of a line are, by what stands after them.
fn command_of(alloc: Global, tokens: &[Lexeme<'_>], why: TokensEnd) -> Result<Command, AllocError>
    requires { length tokens.now ≤ MOST_BYTES }
    ensures read { IfOk result (Commands (tokens_of tokens.now) why) }
    ensures refused { OnErr result (tokens_of tokens.now ≡ [] → ⊥) }
{
    if why != TokensEnd::End {
        return Ok(unended_command(tokens));
    }
    let Some((first, rest)) = tokens.split_first() else {
        return Ok(Command::Blank);
    };
    match word_of(first) {
        Some(Word::Add) => add_command(alloc, rest),
        Some(Word::Load) => load_command(alloc, rest),
        Some(Word::Remove) => remove_command(alloc, rest),
        Some(Word::Ask(relation)) => query_command(alloc, relation, rest),
        Some(Word::Subsumers) => subsumers_command(alloc, rest),
        Some(Word::Subsumed) => subsumed_command(alloc, rest),
        Some(Word::Stats) => Ok(lone_command(Command::Stats, rest)),
        Some(Word::Tree) => Ok(lone_command(Command::Tree, rest)),
        Some(Word::Explain) => explain_command(alloc, rest),
        Some(Word::Sample) => Ok(sample_command(rest)),
        None => Ok(Command::Wrong),
    }
}

/// The command that the tokens of a line are where something else than blanks stands after them:
/// none, though they may add a formula of another language.
fn unended_command(tokens: &[Lexeme<'_>]) -> Command
    ensures { (why : TokensEnd) → (why ≡ End → ⊥)
        → Commands (tokens_of tokens.now) why result }
{
    let Some((first, rest)) = tokens.split_first() else {
        return Command::Wrong;
    };
    match word_of(first) {
        Some(Word::Add) if is_foreign(rest) => Command::Foreign,
        Some(_) => Command::Wrong,
        None => Command::Wrong,
    }
}

/// The command that the word `add` begins, by the tokens after it.
fn add_command(alloc: Global, tokens: &[Lexeme<'_>]) -> Result<Command, AllocError>
    requires { length tokens.now ≤ MOST_BYTES }
    ensures { IfOk result (Commands (lower (command_text Add) ∷ tokens_of tokens.now) End) }
{
    match clause(alloc, tokens)? {
        Some((clause, rest)) if rest.is_empty() => Ok(Command::Add(clause)),
        Some(_) => Ok(Command::Wrong),
        None if is_foreign(tokens) => Ok(Command::Foreign),
        None => Ok(Command::Wrong),
    }
}

/// The command that the word `load` begins, by the tokens after it.
fn load_command(alloc: Global, tokens: &[Lexeme<'_>]) -> Result<Command, AllocError>
    ensures { IfOk result (Commands (lower (command_text Load) ∷ tokens_of tokens.now) End) }
{
    match whole_file(alloc, tokens)? {
        Some(file) => Ok(Command::Load(file)),
        None => Ok(Command::Wrong),
    }
}

/// The command that the word `remove` begins, by the tokens after it.
fn remove_command(alloc: Global, tokens: &[Lexeme<'_>]) -> Result<Command, AllocError>
    ensures { IfOk result (Commands (lower (command_text Remove) ∷ tokens_of tokens.now) End) }
{
    match name(alloc, tokens)? {
        Some((name, rest)) if rest.is_empty() => Ok(Command::Remove(name)),
        Some(_) => Ok(Command::Wrong),
        None => Ok(Command::Wrong),
    }
}

/// The command that a word begins which alone is this one, by the tokens after it.
fn lone_command(command: Command, tokens: &[Lexeme<'_>]) -> Command
    ensures { (word : Word) → MeansAlone word command
        → Commands (lower (command_text word) ∷ tokens_of tokens.now) End result }
{
    if tokens.is_empty() {
        command
    } else {
        Command::Wrong
    }
}

/// The command that the word of a relation begins, by the tokens after it.
fn query_command(
    alloc: Global,
    relation: Relation,
    tokens: &[Lexeme<'_>],
) -> Result<Command, AllocError>
    requires { length tokens.now ≤ MOST_BYTES }
    ensures { IfOk result (Commands (lower (command_text (Ask relation)) ∷ tokens_of tokens.now)
        End) }
{
    match asked(alloc, tokens)? {
        Some(pattern) => Ok(Command::Query(relation, pattern)),
        None => Ok(Command::Wrong),
    }
}

/// The command that the word `explain` begins, by the tokens after it.
fn explain_command(alloc: Global, tokens: &[Lexeme<'_>]) -> Result<Command, AllocError>
    requires { length tokens.now ≤ MOST_BYTES }
    ensures { IfOk result (Commands (lower (command_text Explain) ∷ tokens_of tokens.now) End) }
{
    let Some((word, rest)) = tokens.split_first() else {
        return Ok(Command::Wrong);
    };
    let Some(relation) = relation_of(word) else {
        return Ok(Command::Wrong);
    };
    match asked(alloc, rest)? {
        Some(pattern) => Ok(Command::Explain(relation, pattern)),
        None => Ok(Command::Wrong),
    }
}

/// The pattern that is asked for by these tokens, of which the first says its kind.
fn asked(alloc: Global, tokens: &[Lexeme<'_>]) -> Result<Option<Pattern>, AllocError>
    requires { length tokens.now ≤ MOST_BYTES }
    ensures { IfOk result (ReadsQuery (tokens_of tokens.now)) }
{
    let Some((word, rest)) = tokens.split_first() else {
        return Ok(None);
    };
    let Some(kind) = kind_of(word) else {
        return Ok(None);
    };
    whole_pattern(alloc, rest, kind)
}

/// The command that the word `subsumers` begins, by the tokens after it.
fn subsumers_command(alloc: Global, tokens: &[Lexeme<'_>]) -> Result<Command, AllocError>
    requires { length tokens.now ≤ MOST_BYTES }
    ensures { IfOk result (Commands (lower (command_text Subsumers) ∷ tokens_of tokens.now)
        End) }
{
    match whole_formula(alloc, tokens)? {
        Some(formula) => Ok(Command::Subsumers(formula)),
        None => Ok(Command::Wrong),
    }
}

/// The command that the word `subsumed` begins, by the tokens after it.
fn subsumed_command(alloc: Global, tokens: &[Lexeme<'_>]) -> Result<Command, AllocError>
    requires { length tokens.now ≤ MOST_BYTES }
    ensures { IfOk result (Commands (lower (command_text Subsumed) ∷ tokens_of tokens.now) End) }
{
    match whole_formula(alloc, tokens)? {
        Some(formula) => Ok(Command::Subsumed(formula)),
        None => Ok(Command::Wrong),
    }
}

/// The kind of pattern that a word asks for.
pub(crate) fn kind_of(word: &Lexeme<'_>) -> Option<PatternKind>
    ensures found { IfSome result (λ kind. token_of word.now ≡ lower (kind_word kind)) }
    ensures none { IfNone result ((kind : PatternKind)
        → token_of word.now ≡ lower (kind_word kind) → ⊥) }
{
    if word.is_lower(b"lit") {
        Some(PatternKind::Lit)
    } else if word.is_lower(b"term") {
        Some(PatternKind::Term)
    } else {
        None
    }
}

/// The command that the word `sample` begins, by the tokens after it.
fn sample_command(tokens: &[Lexeme<'_>]) -> Command
    ensures { Commands (lower (command_text Sample) ∷ tokens_of tokens.now) End result }
{
    let Some((first, rest)) = tokens.split_first() else {
        return Command::Wrong;
    };
    let Some((second, others)) = rest.split_first() else {
        return Command::Wrong;
    };
    if !others.is_empty() {
        return Command::Wrong;
    }
    let Some(start) = numeral_of(first, GREATEST_START) else {
        return Command::Wrong;
    };
    match numeral_of(second, MOST_DRAWN) {
        Some(count) if count > 0 => Command::Sample { start, count },
        Some(_) => Command::Wrong,
        None => Command::Wrong,
    }
}
