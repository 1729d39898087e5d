// The lexer at texts that were read by hand.
use si_defs::TokenKind;
use si_lex::{Lexed, Lexeme, Lexing, Token, TokensEnd, lex, lex_item, next_token};
use std::alloc::{AllocError, Global};
use std::process::Abort;
use std::test::Fail;

/// Some bytes, and their first token: its kind, places and text.
type Row = (&'static [u8], TokenKind, usize, usize, &'static [u8]);

/// What stands after the blanks: a token, or the place where there is none.
fn seen(lexed: &Lexed) -> (Option<&Token>, Option<usize>) {
    match lexed {
        Lexed::Token(token) => (Some(token), None),
        Lexed::Bad(place) => (None, Some(*place)),
        Lexed::End => (None, None),
    }
}

fn assert_seen(rt: &impl Abort, lexed: &Lexed, row: &Row) {
    let token = seen(lexed).0.expect(rt, "a token");
    let found = (token.kind, token.start, token.end, token.text.as_bytes());
    assert_eq!(rt; found, (row.1, row.2, row.3, row.4));
}

/// The token after the blanks from a place on.
fn assert_token(rt: &impl Abort, alloc: Global, at: usize, row: &Row) -> Result<(), AllocError> {
    if at > row.0.len() {
        return Err(AllocError);
    }
    let lexed = next_token(alloc, row.0, at)?;
    assert_seen(rt, &lexed, row);
    Ok(())
}

fn assert_unseen(rt: &impl Abort, lexed: &Lexed, place: Option<usize>) {
    let (token, bad) = seen(lexed);
    assert!(rt; token.is_none());
    assert_eq!(rt; bad, place);
}

/// The place where no token stands, and none at the end.
fn assert_none(
    rt: &impl Abort,
    alloc: Global,
    text: &[u8],
    place: Option<usize>,
) -> Result<(), AllocError> {
    let lexed = next_token(alloc, text, 0)?;
    assert_unseen(rt, &lexed, place);
    Ok(())
}

const TOKENS: [Row; 26] = [
    (b"01", TokenKind::Int, 0, 1, b"0"),
    (b"1.5", TokenKind::Int, 0, 1, b"1"),
    (b"-", TokenKind::Mark, 0, 1, b"-"),
    (b"-0", TokenKind::Int, 0, 2, b"-0"),
    (b"-01", TokenKind::Int, 0, 2, b"-0"),
    (b"+", TokenKind::Mark, 0, 1, b"+"),
    (b"+120a", TokenKind::Int, 0, 4, b"+120"),
    (b"!", TokenKind::Mark, 0, 1, b"!"),
    (b"! =", TokenKind::Mark, 0, 1, b"!"),
    (b"!=", TokenKind::NotEqual, 0, 2, b"!="),
    (b"/", TokenKind::Mark, 0, 1, b"/"),
    (b"//", TokenKind::Mark, 0, 1, b"/"),
    (b"/**/a", TokenKind::Lower, 4, 5, b"a"),
    (b"/*/*/a", TokenKind::Lower, 5, 6, b"a"),
    (b"% c\na", TokenKind::Lower, 4, 5, b"a"),
    (b"\t\n\x0c\r a_1Z'", TokenKind::Lower, 5, 9, b"a_1Z"),
    (b"$a", TokenKind::Dollar, 0, 2, b"$a"),
    (b"$$a", TokenKind::Dollar, 0, 3, b"$$a"),
    (b"' ~'", TokenKind::Single, 0, 4, b" ~"),
    (b"'\"'", TokenKind::Single, 0, 3, b"\""),
    (b"'a\\'\\\\b'", TokenKind::Single, 0, 8, b"a'\\b"),
    (b"\"\"", TokenKind::Double, 0, 2, b""),
    (b"\"\\\"'\"", TokenKind::Double, 0, 5, b"\"'"),
    (b"~", TokenKind::Mark, 0, 1, b"~"),
    (b"|", TokenKind::Mark, 0, 1, b"|"),
    (b"{", TokenKind::Mark, 0, 1, b"{"),
];

fn assert_tokens(rt: &impl Abort, alloc: Global, rows: &[Row]) -> Result<(), AllocError> {
    for row in rows {
        assert_token(rt, alloc, 0, row)?;
    }
    Ok(())
}

#[test]
fn tokens_at_their_edges(rt: HostRuntime) -> Result<(), Fail> {
    assert_tokens(&rt, rt.alloc(), &TOKENS)?;
    assert_token(&rt, rt.alloc(), 2, &(b" 01", TokenKind::Int, 2, 3, b"1"))?;
    Ok(())
}

/// Texts, and the places where no token stands in them.
const NO_TOKENS: [(&[u8], usize); 28] = [
    (b"''", 0),
    (b"'\\n'", 0),
    (b"'\\\"'", 0),
    (b"'a", 0),
    (b"\"a'", 0),
    (b"'\x1f'", 0),
    (b"'\x7f'", 0),
    (b"'\x80'", 0),
    (b"'\xff'", 0),
    (b"\"\x1f\"", 0),
    (b"\"\x7f\"", 0),
    (b"\"\x80\"", 0),
    (b"\"\xff\"", 0),
    (b"\x1f", 0),
    (b"\x7f", 0),
    (b"\x80", 0),
    (b"\xff", 0),
    (b"\x0b", 0),
    (b"_a", 0),
    (b"$", 0),
    (b"$$", 0),
    (b"$A", 0),
    (b"$$$a", 0),
    (b"/*/", 0),
    (b" /**/ /* c", 6),
    (b"% c\n\x0b", 4),
    (b"\xef\xbb\xbfp", 0),
    (b"\\", 0),
];

/// Texts of blanks.
const BLANK: [&[u8]; 6] = [b"", b" ", b"/**/", b"%", b"% c", b"%\n /* % */"];

fn assert_none_at(
    rt: &impl Abort,
    alloc: Global,
    rows: &[(&[u8], usize)],
) -> Result<(), AllocError> {
    for (text, place) in rows {
        assert_none(rt, alloc, text, Some(*place))?;
    }
    Ok(())
}

fn assert_blank(rt: &impl Abort, alloc: Global, texts: &[&[u8]]) -> Result<(), AllocError> {
    for text in texts {
        assert_none(rt, alloc, text, None)?;
    }
    Ok(())
}

#[test]
fn no_tokens(rt: HostRuntime) -> Result<(), Fail> {
    assert_none_at(&rt, rt.alloc(), &NO_TOKENS)?;
    assert_blank(&rt, rt.alloc(), &BLANK)?;
    Ok(())
}

fn assert_length(rt: &impl Abort, lexing: &Lexing, due: (usize, TokensEnd)) {
    assert_eq!(rt; (lexing.tokens.len(), lexing.why), due);
}

/// How many tokens the list of a whole text has, and where it stops.
fn assert_list(
    rt: &impl Abort,
    alloc: Global,
    text: &[u8],
    due: (usize, TokensEnd),
) -> Result<(), AllocError> {
    let lexing = lex(alloc, text, 0)?;
    assert_length(rt, &lexing, due);
    Ok(())
}

/// How many tokens an item has, where they begin and end, and where its list stops.
type Item = (usize, usize, usize, TokensEnd);

fn assert_places(rt: &impl Abort, item: &Lexing, due: Item) {
    let seen = (item.tokens.len(), item.start, item.end, item.why);
    assert_eq!(rt; seen, due);
}

fn assert_item(rt: &impl Abort, alloc: Global, text: &[u8], due: Item) -> Result<(), AllocError> {
    let item = lex_item(alloc, text, 0)?;
    assert_places(rt, &item, due);
    Ok(())
}

fn assert_items(rt: &impl Abort, alloc: Global, rows: &[(&[u8], Item)]) -> Result<(), AllocError> {
    for (text, due) in rows {
        assert_item(rt, alloc, text, *due)?;
    }
    Ok(())
}

fn assert_bytes(rt: &impl Abort, seen: &[u8], due: &[u8]) {
    assert_eq!(rt; seen, due);
}

fn assert_word(rt: &impl Abort, alloc: Global, word: &Lexeme) -> Result<(), AllocError> {
    assert!(rt; word.is_lower(b"cnf"));
    assert!(rt; !word.is_mark(b'c'));
    let text = word.text(alloc)?;
    assert_bytes(rt, text.as_bytes(), b"cnf");
    Ok(())
}

const ITEMS: [(&[u8], Item); 3] = [
    (b" cnf(a.b). q", (7, 1, 10, TokensEnd::FullStop)),
    (b"cnf(a,b,c,d(e)).", (9, 0, 16, TokensEnd::FullStop)),
    (b"cnf(a,b,c,d(e]).", (14, 0, 16, TokensEnd::FullStop)),
];

const WORD: Lexeme<'static> = Lexeme {
    kind: TokenKind::Lower,
    spelling: b"cnf",
};

#[test]
fn lists_of_tokens(rt: HostRuntime) -> Result<(), Fail> {
    assert_items(&rt, rt.alloc(), &ITEMS)?;
    assert_list(&rt, rt.alloc(), ITEMS[0].0, (8, TokensEnd::End))?;
    assert_word(&rt, rt.alloc(), &WORD)?;
    Ok(())
}

/// A clause whose annotations are so many brackets, one within the other.
fn annotated(alloc: Global, brackets: usize) -> Result<Vec<u8>, AllocError> {
    let mut text = Vec::new(alloc);
    text.extend_from_slice(b"cnf(a,b,c,")?;
    for _ in 0..brackets {
        text.push(b'(')?;
    }
    for _ in 0..brackets {
        text.push(b')')?;
    }
    text.extend_from_slice(b").")?;
    Ok(text)
}

fn assert_annotated(
    rt: &impl Abort,
    alloc: Global,
    brackets: usize,
    due: Item,
) -> Result<(), AllocError> {
    let text = annotated(alloc, brackets)?;
    assert_item(rt, alloc, text.as_slice(), due)
}

// Annotations with 63 open brackets are left out, and those with 64 are kept.
#[test]
fn brackets_of_annotations(rt: HostRuntime) -> Result<(), Fail> {
    assert_annotated(&rt, rt.alloc(), 63, (9, 0, 138, TokensEnd::FullStop))?;
    assert_annotated(&rt, rt.alloc(), 64, (138, 0, 140, TokensEnd::FullStop))?;
    Ok(())
}

/// The tokens of `X!=-3.`
const SIDE_BY_SIDE: [(TokenKind, &[u8]); 4] = [
    (TokenKind::Upper, b"X"),
    (TokenKind::NotEqual, b"!="),
    (TokenKind::Int, b"-3"),
    (TokenKind::Mark, b"."),
];

fn assert_lexemes(rt: &impl Abort, lexemes: &[Lexeme], due: &[(TokenKind, &[u8])]) {
    assert_eq!(rt; lexemes.len(), due.len());
    for (lexeme, (kind, spelling)) in lexemes.iter().zip(due) {
        assert_eq!(rt; (lexeme.kind, lexeme.spelling), (*kind, *spelling));
    }
}

#[test]
fn tokens_side_by_side(rt: HostRuntime) -> Result<(), Fail> {
    let lexing = lex(rt.alloc(), b"X!=-3.", 0)?;
    assert_lexemes(&rt, lexing.tokens.as_slice(), &SIDE_BY_SIDE);
    Ok(())
}

#[test]
fn nesting(rt: HostRuntime) -> Result<(), Fail> {
    assert_list(&rt, rt.alloc(), &[b'['; 512], (512, TokensEnd::End))?;
    let deeper = lex_item(rt.alloc(), &[b'('; 513], 0)?;
    assert_length(&rt, &deeper, (512, TokensEnd::Bad));
    Ok(())
}
