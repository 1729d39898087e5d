// Classes of bytes.
ghost use Rattle.std.specs.Prelude.{◌≡◌, ◌≤◌, ◌<◌, IsTrue, length, drop};
ghost use Rattle.si_defs.specs.Bytes as classes;
ghost use Rattle.si_defs.specs.Tokens.{begins_with};
ghost use Rattle.si_lex.specs.Firsts.{begins_blank, first_of};

use crate::bytes::First::{
    Capital as CA, Closing as CL, Digit as DI, Dollar as DO, DoubleQuote as DQ, Exclamation as EX,
    LoneMark as MA, Nothing as NO, Opening as OP, Percent as PC, Sign as SI, SingleQuote as SQ,
    Slash as SL, Small as SM, Underscore as US, White as WS,
};

/// What a byte begins. Those that begin blanks are the last three, so that one comparison tells
/// them.
#[derive(Clone, Copy)]
pub enum First {
    /// A lower word.
    Small,
    /// An upper word.
    Capital,
    /// A number.
    Digit,
    /// Nothing, but words go on with it.
    Underscore,
    /// An opening bracket, round or square.
    Opening,
    /// A mark, and nothing else.
    LoneMark,
    /// A closing bracket, round or square.
    Closing,
    /// A number with a sign, or a mark.
    Sign,
    /// A word after dollar signs.
    Dollar,
    /// A text in single quotes.
    SingleQuote,
    /// A text in double quotes.
    DoubleQuote,
    /// `!=`, or a mark.
    Exclamation,
    /// Nothing.
    Nothing,
    /// White space.
    White,
    /// A comment up to the end of its line.
    Percent,
    /// A comment, or a mark.
    Slash,
}

// What each byte begins.
static FIRSTS: [First; 256] = [
    NO, NO, NO, NO, NO, NO, NO, NO, NO, WS, WS, NO, WS, WS, NO, NO, NO, NO, NO, NO, NO, NO, NO, NO,
    NO, NO, NO, NO, NO, NO, NO, NO, WS, EX, DQ, MA, DO, PC, MA, SQ, OP, CL, MA, SI, MA, SI, MA, SL,
    DI, DI, DI, DI, DI, DI, DI, DI, DI, DI, MA, MA, MA, MA, MA, MA, MA, CA, CA, CA, CA, CA, CA, CA,
    CA, CA, CA, CA, CA, CA, CA, CA, CA, CA, CA, CA, CA, CA, CA, CA, CA, CA, CA, OP, NO, CL, MA, US,
    NO, SM, SM, SM, SM, SM, SM, SM, SM, SM, SM, SM, SM, SM, SM, SM, SM, SM, SM, SM, SM, SM, SM, SM,
    SM, SM, SM, MA, MA, MA, MA, NO, NO, NO, NO, NO, NO, NO, NO, NO, NO, NO, NO, NO, NO, NO, NO, NO,
    NO, NO, NO, NO, NO, NO, NO, NO, NO, NO, NO, NO, NO, NO, NO, NO, NO, NO, NO, NO, NO, NO, NO, NO,
    NO, NO, NO, NO, NO, NO, NO, NO, NO, NO, NO, NO, NO, NO, NO, NO, NO, NO, NO, NO, NO, NO, NO, NO,
    NO, NO, NO, NO, NO, NO, NO, NO, NO, NO, NO, NO, NO, NO, NO, NO, NO, NO, NO, NO, NO, NO, NO, NO,
    NO, NO, NO, NO, NO, NO, NO, NO, NO, NO, NO, NO, NO, NO, NO, NO, NO, NO, NO, NO, NO, NO, NO, NO,
    NO, NO, NO, NO, NO, NO, NO, NO, NO, NO, NO, NO, NO, NO, NO, NO,
];

/// What this byte begins.
#[inline(always)]
pub fn first_of(byte: u8) -> First
    ensures { result ≡ first_of byte }
{
    FIRSTS[byte as usize]
}

/// White space, or the first byte of a comment. A slash may be a mark too.
#[inline(always)]
pub fn begins_blank(byte: u8) -> bool
    ensures { result ≡ begins_blank (first_of byte) }
{
    is_blank_first(first_of(byte))
}

// Whether blanks may begin so.
#[inline(always)]
fn is_blank_first(first: First) -> bool
    ensures { result ≡ begins_blank first }
{
    match first {
        First::White => true,
        First::Percent => true,
        First::Slash => true,
        _ => false,
    }
}

/// What may stand between quotes: a space to `~`.
pub fn is_printable(byte: u8) -> bool
    ensures { result ≡ classes.is_printable byte }
{
    32 <= byte && byte <= 126
}

/// Whether this byte stands at a place.
pub fn stands_at(bytes: &[u8], at: usize, byte: u8) -> bool
    requires { at ≤ length bytes.now }
    ensures value { result ≡ begins_with byte (drop at bytes.now) }
    ensures within { IsTrue result → at < length bytes.now }
{
    at < bytes.len() && bytes[at] == byte
}
