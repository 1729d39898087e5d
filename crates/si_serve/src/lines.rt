// Where lines end, and what is held of a line that was begun.
ghost use Rattle.std.specs.Prelude.{◌≡◌, ◌+◌, ◌<◌, ◌≤◌, ◌^◌, ◌==◌, [], ◌++◌, length, take, drop, vec_len, vec_capacity, IfOk};
ghost use Rattle.std.specs.List.{list_any, position, position_or_len};

use std::alloc::{AllocError, Global};

/// So many bytes are looked at at once.
const STEP: usize = 16;

/// The front of the line that was begun: as many of its bytes as a line may have, and one more, by
/// which a line that is too long is known.
#[derive(Drop)]
pub struct Pending {
    buffer: Vec<u8>,
    limit: usize,
    ghost within: { vec_len buffer ≤ limit + 1 },
    ghost reserved: { limit + 1 ≤ vec_capacity buffer },
    ghost fits: { limit + 1 < 2 ^ 64 },
}

impl Pending {
    ghost use Rattle.si_serve.specs.Lines.{held_of, limit_of};

    /// An empty line. It takes all of its memory now.
    pub fn new(alloc: Global, limit: usize) -> Result<Pending, AllocError>
        requires { limit < 2 ^ 32 }
        ensures empty { IfOk result (λ pending. held_of pending ≡ []) }
        ensures limit { IfOk result (λ pending. limit_of pending ≡ limit) }
    {
        let buffer = Vec::with_capacity(alloc, limit + 1)?;
        Ok(Pending { buffer, limit })
    }

    /// What is held of the line.
    pub fn bytes(&self) -> &[u8]
        ensures { result.now ≡ held_of self.now }
    {
        &self.buffer
    }

    /// More bytes of the line, of which those are held that there is room for.
    pub fn push(&mut self, bytes: &[u8])
        ensures held { held_of self.new ≡ take (limit_of self.old + 1)
            (held_of self.old ++ bytes.now) }
        ensures limit { limit_of self.new ≡ limit_of self.old }
    {
        let room = self.limit + 1 - self.buffer.len();
        let count = room.min(bytes.len());
        // The memory was taken when the buffer was made, so this can't be refused.
        self.buffer.extend_from_slice(&bytes[..count]).unwrap();
    }

    /// The line is over.
    pub fn clear(&mut self)
        ensures held { held_of self.new ≡ [] }
        ensures limit { limit_of self.new ≡ limit_of self.old }
    {
        self.buffer.clear();
    }
}

/// The first line feed.
pub fn line_feed(bytes: &[u8]) -> Option<usize>
    ensures { result ≡ position (λ c. c == 10) bytes.now }
{
    let at = first_step(bytes);
    match first_among(&bytes[at..]) {
        Some(place) => Some(at + place),
        None => None,
    }
}

/// Where the first step with a line feed begins, or else the bytes that make no step. A line is
/// mostly longer than a step, so to look at each byte alone costs more.
fn first_step(bytes: &[u8]) -> usize
    ensures within { result ≤ length bytes.now }
    ensures none_before { position_or_len (λ c. c == 10) bytes.now
        ≡ result + position_or_len (λ c. c == 10) (drop result bytes.now) }
{
    let mut at = 0;
    while bytes.len() - at >= STEP {
        if has_line_feed(&bytes[at..at + STEP]) {
            return at;
        }
        at += STEP;
    }
    at
}

/// Whether a line feed is among the bytes of a step. Each is looked at, so that no branch keeps the
/// compiler from comparing all at once.
#[inline(always)]
fn has_line_feed(bytes: &[u8]) -> bool
    requires { length bytes.now ≡ 16 }
    ensures { result ≡ list_any (λ c. c == 10) bytes.now }
{
    let mut step = [0; STEP];
    step.copy_from_slice(bytes);
    let mut found = false;
    for i in 0..STEP {
        if step[i] == b'\n' {
            found = true;
        }
    }
    found
}

/// The first line feed, where the bytes are few.
fn first_among(bytes: &[u8]) -> Option<usize>
    ensures { result ≡ position (λ c. c == 10) bytes.now }
{
    bytes.iter().position(|byte| *byte == b'\n')
}
