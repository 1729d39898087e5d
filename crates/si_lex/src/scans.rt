// Loops over the bytes of a token.
ghost use Rattle.std.specs.Prelude.{◌≡◌, ◌≢◌, ◌≤◌, ◌<◌, ◌+◌, length, drop, slice_index};
ghost use Rattle.std.specs.Prelude.{false, None, Some, MatchOption};
ghost use Rattle.std.specs.List.{prefix_len};
ghost use Rattle.si_defs.specs.Bytes as classes;
ghost use Rattle.si_lex.specs.Scans.{behind_quote, decimal_len, lower_len};

use crate::bytes::is_printable;
use si_term::is_word_byte;

/// The place after the word bytes at a place.
#[inline(always)]
pub fn word_end(bytes: &[u8], at: usize) -> usize
    requires { at ≤ length bytes.now }
    ensures within { result ≤ length bytes.now }
    ensures run { result ≡ at + prefix_len classes.is_word_byte (drop at bytes.now) }
{
    for i in at..bytes.len() {
        if !is_word_byte(bytes[i]) {
            return i;
        }
    }
    bytes.len()
}

/// The place after the lower word at a place, or the place itself where none stands.
pub fn lower_end(bytes: &[u8], at: usize) -> usize
    requires { at ≤ length bytes.now }
    ensures within { result ≤ length bytes.now }
    ensures run { result ≡ at + lower_len (drop at bytes.now) }
{
    if at < bytes.len() && bytes[at].is_ascii_lowercase() {
        word_end(bytes, at + 1)
    } else {
        at
    }
}

/// The place after the digits at a place.
fn digits_end(bytes: &[u8], at: usize) -> usize
    requires { at ≤ length bytes.now }
    ensures within { result ≤ length bytes.now }
    ensures run { result ≡ at + prefix_len classes.is_digit (drop at bytes.now) }
{
    for i in at..bytes.len() {
        if !bytes[i].is_ascii_digit() {
            return i;
        }
    }
    bytes.len()
}

/// The place after the decimal at a place, or the place itself where none stands.
pub fn decimal_end(bytes: &[u8], at: usize) -> usize
    requires { at ≤ length bytes.now }
    ensures within { result ≤ length bytes.now }
    ensures run { result ≡ at + decimal_len (drop at bytes.now) }
{
    if at >= bytes.len() {
        return at;
    }
    match bytes[at] {
        b'0' => at + 1,
        b'1'..=b'9' => digits_end(bytes, at + 1),
        _ => at,
    }
}

/// The place after the quote that closes the quoted text at a place, if one stands there.
pub fn quoted_end(bytes: &[u8], at: usize, quote: u8) -> Option<usize>
    requires { at ≤ length bytes.now }
    ensures { let inner = drop at bytes.now in
        MatchOption result (behind_quote quote false inner ≡ None)
        (λ end. (at < end) × (end ≤ length bytes.now)
        × (behind_quote quote false inner ≡ Some (drop end bytes.now))) }
{
    let mut place = at;
    while place < bytes.len() {
        if bytes[place] == quote {
            return Some(place + 1);
        }
        match character_end(bytes, place, quote) {
            Some(end) => place = end,
            None => return None,
        }
    }
    None
}

/// The place after the character at a place, with the backslash before it, if one stands there.
fn character_end(bytes: &[u8], at: usize, quote: u8) -> Option<usize>
    requires within { at < length bytes.now }
    requires inner { slice_index bytes.now at ≢ quote }
    ensures { let here = behind_quote quote false (drop at bytes.now) in
        MatchOption result (here ≡ None) (λ end. (at < end) × (end ≤ length bytes.now)
        × (here ≡ behind_quote quote false (drop end bytes.now))) }
{
    if bytes[at] == b'\\' {
        if at + 1 < bytes.len() && (bytes[at + 1] == quote || bytes[at + 1] == b'\\') {
            return Some(at + 2);
        }
        return None;
    }
    if is_printable(bytes[at]) {
        return Some(at + 1);
    }
    None
}
