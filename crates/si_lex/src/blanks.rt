// White space and comments.
ghost use Rattle.std.specs.Prelude.{◌≡◌, ◌≤◌, ◌<◌, ◌+◌, length, drop, min, slice_index, MatchOption};
ghost use Rattle.std.specs.List.{prefix_len};
ghost use Rattle.si_lex.specs.Blanks.{IsOneBlank, NothingBlankAt};
ghost use Rattle.si_lex.specs.Places.{IsBehindBlanks};
ghost use Rattle.si_lex.specs.Scans.{before_close, is_in_line};

use crate::bytes::{First, begins_blank, first_of, stands_at};

/// The place after the longest blanks at a place: the end of the bytes, where nothing else stands.
#[inline(always)]
pub fn skip_blanks(bytes: &[u8], at: usize) -> usize
    requires { at ≤ length bytes.now }
    ensures from { at ≤ result }
    ensures behind { IsBehindBlanks bytes.now (drop at bytes.now) result }
{
    let mut place = at;
    while place < bytes.len() {
        match blank_end(bytes, place) {
            Some(end) => place = end,
            None => return place,
        }
    }
    bytes.len()
}

// The place after the white space or the comment at a place, if one stands there. Most bytes begin
// none, so that is asked first, by one comparison.
#[inline(always)]
fn blank_end(bytes: &[u8], at: usize) -> Option<usize>
    requires { at < length bytes.now }
    ensures { MatchOption result (NothingBlankAt (drop at bytes.now)) (IsOneBlank bytes.now at) }
{
    let byte = bytes[at];
    if !begins_blank(byte) {
        return None;
    }
    match first_of(byte) {
        First::White => Some(at + 1),
        First::Percent => Some(line_end(bytes, at + 1)),
        First::Slash => comment_end(bytes, at),
        _ => None,
    }
}

// The place after the line feed that follows, or the end.
fn line_end(bytes: &[u8], at: usize) -> usize
    requires { at ≤ length bytes.now }
    ensures { result
        ≡ min (at + prefix_len is_in_line (drop at bytes.now) + 1) (length bytes.now) }
{
    for i in at..bytes.len() {
        if bytes[i] == b'\n' {
            return i + 1;
        }
    }
    bytes.len()
}

// The place after the comment that a slash at a place begins, if it does and is closed.
fn comment_end(bytes: &[u8], at: usize) -> Option<usize>
    requires within { at < length bytes.now }
    requires slash { slice_index bytes.now at ≡ 47 }
    ensures { MatchOption result (NothingBlankAt (drop at bytes.now)) (IsOneBlank bytes.now at) }
{
    if !stands_at(bytes, at + 1, b'*') {
        return None;
    }
    let close = find_close(bytes, at + 2);
    if close < bytes.len() {
        Some(close + 2)
    } else {
        None
    }
}

// The place of the next `*/`, or the end.
fn find_close(bytes: &[u8], at: usize) -> usize
    requires { at ≤ length bytes.now }
    ensures { result ≡ at + before_close (drop at bytes.now) }
{
    for i in at..bytes.len() {
        if bytes[i] == b'*' && stands_at(bytes, i + 1, b'/') {
            return i;
        }
    }
    bytes.len()
}
