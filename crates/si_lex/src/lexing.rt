// The tokens of some bytes.
ghost use Rattle.std.specs.Prelude.{◌≡◌, ◌≤◌, ◌<◌, ◌↔◌, length, drop, IfOk, OnErr, IsTrue};
ghost use Rattle.std.specs.Prelude.{MatchOption, []};
ghost use Rattle.si_defs.specs.Tokens.{AreBlanks};
ghost use Rattle.si_defs.specs.declared.TheConstants.{DEEPEST_NESTING};
ghost use Rattle.si_lex.specs.Firsts.{depth_behind};
ghost use Rattle.si_lex.specs.FullStops.{IsFullStop};
ghost use Rattle.si_lex.specs.Lexemes.{token_of};
ghost use Rattle.si_lex.specs.Annotations.{IsBriefLexing, IsBriefUpTo};
ghost use Rattle.si_lex.specs.Lexing.{IsLexing};
ghost use Rattle.si_lex.specs.Places.{IsLexemeWithin, NoTokenWithin};

use crate::annotations::{ends_formula, past_annotations};
use crate::blanks::skip_blanks;
use crate::bytes::{First, first_of};
use crate::lexeme::Lexeme;
use crate::spellings::lexeme_at;
use si_defs::DEEPEST_NESTING;
use std::alloc::{AllocError, Global};

/// Why a list of tokens ends where it does.
#[derive(Clone, Copy, Debug, PartialEq, Eq)]
pub enum TokensEnd {
    /// Nothing but blanks stands after it.
    End,
    /// No token stands after it, or one that nests too deep.
    Bad,
    /// Its last token is a full stop outside brackets, which ends an item.
    FullStop,
}

/// The tokens of some bytes, and why they end.
#[derive(Drop)]
pub struct Lexing<'a> {
    /// The tokens in order.
    pub tokens: Vec<Lexeme<'a>>,
    /// The place after the blanks before the first token, in bytes from their start.
    pub start: usize,
    /// The place after what was read: after a full stop that ends an item, else after the blanks
    /// that follow the last token.
    pub end: usize,
    /// Why there are no more.
    pub why: TokensEnd,
}

impl<'a> Lexing<'a> {
    // These tokens, with where they begin and end, and why they end there.
    #[inline(always)]
    fn new(tokens: Vec<Lexeme<'a>>, start: usize, end: usize, why: TokensEnd) -> Lexing<'a>
        ensures { result
            ≡ record { tokens = tokens.entry; start = start; end = end; why = why } }
    {
        Lexing {
            tokens,
            start,
            end,
            why,
        }
    }
}

/// All tokens from a place on, up to the first place where none stands, or where more than 512
/// round and square brackets would be open at once.
///
/// # Errors
///
/// `AllocError` where there is no memory for the tokens. Where only blanks stand, none is wanted.
#[inline(never)]
pub fn lex<'a>(alloc: Global, bytes: &'a [u8], at: usize) -> Result<Lexing<'a>, AllocError>
    requires { at ≤ length bytes.now }
    ensures read { IfOk result (IsLexing bytes.now at) }
    ensures refused { OnErr result (AreBlanks (drop at bytes.now) → ⊥) }
{
    lex_up_to(alloc, bytes, at, false)
}

/// The tokens of one item from a place on: as [`lex`], but up to the first full stop outside
/// brackets, and without the annotations of a clause and the comma before them.
///
/// After that full stop no byte is looked at. Annotations are kept where their brackets don't
/// match or aren't closed, or where more than 63 are open at once.
///
/// # Errors
///
/// `AllocError` where there is no memory for the tokens. Where only blanks stand, none is wanted.
#[inline(never)]
pub fn lex_item<'a>(alloc: Global, bytes: &'a [u8], at: usize) -> Result<Lexing<'a>, AllocError>
    requires { at ≤ length bytes.now }
    ensures read { IfOk result (IsBriefLexing bytes.now at) }
    ensures refused { OnErr result (AreBlanks (drop at bytes.now) → ⊥) }
{
    lex_up_to(alloc, bytes, at, true)
}

// The tokens from a place on; if `item`, up to a full stop outside brackets, and without
// annotations. These are tried at one comma alone (`tried`), so no byte is lexed more than twice.
// It is compiled once for each, and not into what calls them: its loop wants the registers.
#[inline(always)]
fn lex_up_to<'a>(
    alloc: Global,
    bytes: &'a [u8],
    at: usize,
    item: bool,
) -> Result<Lexing<'a>, AllocError>
    requires { at ≤ length bytes.now }
    ensures read { IfOk result (IsBriefUpTo item bytes.now at) }
    ensures refused { OnErr result (AreBlanks (drop at bytes.now) → ⊥) }
{
    let start = skip_blanks(bytes, at);
    let mut tokens = room(alloc, start < bytes.len(), bytes.len())?;
    let mut depth = 0;
    let mut tried = !item;
    let mut place = start;
    while place < bytes.len() {
        let Some((lexeme, behind)) = lexeme_within(bytes, place, depth) else {
            return Ok(Lexing::new(tokens, start, place, TokensEnd::Bad));
        };
        let end = place + lexeme.spelling.len();
        if !tried && ends_formula(tokens.len(), depth, &lexeme) {
            tried = true;
            if let Some((bracket, after)) = past_annotations(tokens.as_slice(), bytes, end) {
                tokens.push(bracket)?;
                depth = 0;
                place = skip_blanks(bytes, after);
                continue;
            }
        }
        let full_stop = is_full_stop(depth, &lexeme);
        tokens.push(lexeme)?;
        if item && full_stop {
            return Ok(Lexing::new(tokens, start, end, TokensEnd::FullStop));
        }
        depth = behind;
        place = skip_blanks(bytes, end);
    }
    Ok(Lexing::new(tokens, start, place, TokensEnd::End))
}

// The token at a place and the number of brackets that are open after it, where this many are open
// before. Nothing where no token stands, or one that nests too deep.
#[inline(always)]
fn lexeme_within<'a>(bytes: &'a [u8], at: usize, depth: usize) -> Option<(Lexeme<'a>, usize)>
    requires place { at < length bytes.now }
    requires depth { depth ≤ DEEPEST_NESTING }
    ensures { MatchOption result (NoTokenWithin bytes.now at depth)
        (λ found. IsLexemeWithin bytes.now at depth found.0 found.1) }
{
    let lexeme = lexeme_at(bytes, at)?;
    let behind = depth_behind(depth, first_of(bytes[at]))?;
    Some((lexeme, behind))
}

// Room for the tokens of most items, or of a line of so many bytes, if any token can stand. A line
// mostly wants a small block, which the allocator finds fast.
fn room<'a>(alloc: Global, some: bool, bytes: usize) -> Result<Vec<Lexeme<'a>>, AllocError>
    ensures empty { IfOk result (λ tokens. tokens.items ≡ []) }
    ensures refused { OnErr result (IsTrue some) }
{
    if some {
        Vec::with_capacity(alloc, (bytes / 2 + 1).min(128))
    } else {
        Ok(Vec::new(alloc))
    }
}

// Whether a token is a full stop outside brackets, where this many are open before.
fn is_full_stop(depth: usize, lexeme: &Lexeme) -> bool
    ensures { IsTrue result ↔ IsFullStop depth (token_of lexeme.now) }
{
    depth == 0 && lexeme.is_mark(b'.')
}

// The number of brackets that are open after a token, by its first byte, where this many are open
// before. Nothing where they are too many.
fn depth_behind(depth: usize, first: First) -> Option<usize>
    requires { depth ≤ DEEPEST_NESTING }
    ensures { let behind = depth_behind depth first in
        MatchOption result (DEEPEST_NESTING < behind)
        (λ n. (n ≡ behind) × (n ≤ DEEPEST_NESTING)) }
{
    match first {
        First::Opening if depth == DEEPEST_NESTING => None,
        First::Opening => Some(depth + 1),
        First::Closing => Some(depth.saturating_sub(1)),
        _ => Some(depth),
    }
}
