// The words that commands begin with, by their texts.
ghost use Rattle.std.specs.Prelude.{◌≡◌, ◌↔◌, IfSome, IfNone, IsTrue};
ghost use Rattle.si_defs.specs.Tokens.{lower};
ghost use Rattle.si_defs.specs.declared.Relation.{Relation};
ghost use Rattle.si_lex.specs.Lexemes.{token_of};
ghost use Rattle.si_steps.specs.Words.{relation_text, command_text};
ghost use Rattle.si_steps.specs.declared.word.Word.{Word};

use si_defs::{Relation, TokenKind};
use si_lex::Lexeme;
use si_steps::Word;

/// The word of a command that a token is.
pub fn word_of(token: &Lexeme<'_>) -> Option<Word>
    ensures found { IfSome result (λ word. token_of token.now ≡ lower (command_text word)) }
    ensures none { IfNone result
        ((word : Word) → token_of token.now ≡ lower (command_text word) → ⊥) }
{
    match token.kind {
        TokenKind::Lower => word_with(token.spelling),
        _ => None,
    }
}

/// The relation whose word a token is.
pub fn relation_of(token: &Lexeme<'_>) -> Option<Relation>
    ensures found { IfSome result
        (λ relation. token_of token.now ≡ lower (relation_text relation)) }
    ensures none { IfNone result ((relation : Relation)
        → token_of token.now ≡ lower (relation_text relation) → ⊥) }
{
    match token.kind {
        TokenKind::Lower => relation_with(token.spelling),
        _ => None,
    }
}

/// The word with this text.
fn word_with(text: &[u8]) -> Option<Word>
    ensures found { IfSome result (λ word. command_text word ≡ text.now) }
    ensures none { IfNone result ((word : Word) → command_text word ≡ text.now → ⊥) }
{
    if is(text, b"add") {
        return Some(Word::Add);
    }
    if is(text, b"load") {
        return Some(Word::Load);
    }
    if is(text, b"remove") {
        return Some(Word::Remove);
    }
    if is(text, b"subsumers") {
        return Some(Word::Subsumers);
    }
    if is(text, b"subsumed") {
        return Some(Word::Subsumed);
    }
    if is(text, b"stats") {
        return Some(Word::Stats);
    }
    if is(text, b"tree") {
        return Some(Word::Tree);
    }
    if is(text, b"explain") {
        return Some(Word::Explain);
    }
    if is(text, b"sample") {
        return Some(Word::Sample);
    }
    match relation_with(text) {
        Some(relation) => Some(Word::Ask(relation)),
        None => None,
    }
}

/// The relation with this text.
fn relation_with(text: &[u8]) -> Option<Relation>
    ensures found { IfSome result (λ relation. relation_text relation ≡ text.now) }
    ensures none { IfNone result ((relation : Relation)
        → relation_text relation ≡ text.now → ⊥) }
{
    if is(text, b"variants") {
        return Some(Relation::Variants);
    }
    if is(text, b"instances") {
        return Some(Relation::Instances);
    }
    if is(text, b"generalizations") {
        return Some(Relation::Generalizations);
    }
    if is(text, b"unifiable") {
        return Some(Relation::Unifiable);
    }
    None
}

/// Whether two texts are the same.
fn is(text: &[u8], word: &[u8]) -> bool
    ensures { IsTrue result ↔ (word.now ≡ text.now) }
{
    word == text
}
