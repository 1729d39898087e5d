ghost use Rattle.std.specs.Prelude.{◌≡◌, ◌<◌, ◌≤◌, Some, length, take, drop, min, max, is_err, vec_len, IfOk, OnErr, IsTrue};

use super::plan::is_next_listed;
use crate::{Failed, Source, SourceCounts};

/// A source that has its bytes in memory.
///
/// A call gives as many bytes as fit and as are left, at most the chunk. The calls whose numbers,
/// from 1, are listed fail, and no others do.
#[derive(Drop)]
pub struct MemorySource {
    bytes: Vec<u8>,
    at: usize,
    chunk: usize,
    failing: Vec<u32>,
    counts: SourceCounts,
    ghost within: { at ≤ vec_len bytes },
    ghost gives: { 0 < chunk },
}

impl MemorySource {
    ghost use Rattle.si_io.specs.Counts.{nothing_read};
    ghost use Rattle.si_io.specs.Memory.{source_left, source_chunk, source_failing, source_counts};

    /// A source of these bytes. A call gives at most `chunk` of them, and a `chunk` of 0 is one of
    /// 1. `failing` lists the calls that fail, by their numbers from 1.
    pub fn new(bytes: Vec<u8>, chunk: usize, failing: Vec<u32>) -> MemorySource
        ensures left { source_left result ≡ bytes.items }
        ensures chunk { source_chunk result ≡ max chunk 1 }
        ensures failing { source_failing result ≡ failing.items }
        ensures counts { source_counts result
            ≡ nothing_read }
    {
        MemorySource {
            bytes,
            at: 0,
            chunk: chunk.max(1),
            failing,
            counts: SourceCounts::new(),
        }
    }
}

impl Source for MemorySource {
    ghost use Rattle.std.specs.Io.KnownBytes.{IsAtEnd};
    ghost use Rattle.si_io.specs.Content.{Takes};
    ghost use Rattle.si_io.specs.Counts.{raised, read_counted};
    ghost use Rattle.si_io.specs.Memory.{source_left, source_chunk, source_failing, source_counts, source_may_fail, source_shown, SameSource};
    ghost use Rattle.si_io.specs.Plan.{is_listed};

    ghost shown = { source_shown };

    /// Gives as many bytes as fit and as are left, at most the chunk. Fails exactly where the call
    /// is listed. It writes nothing but these bytes.
    fn read(&mut self, into: &mut [u8]) -> Result<usize, Failed>
        ensures bound { IfOk result (λ n. n ≤ length into.old) }
        ensures taken { IfOk result (λ n. Takes (Some (source_left self.old)) (take n into.new)
            (Some (source_left self.new))) }
        ensures ended { IfOk result (λ n. n ≡ 0 → 0 < length into.old → IsAtEnd
            (Some (source_left self.old))) }
        ensures kept { OnErr result (source_left self.new ≡ source_left self.old) }
        ensures sure { OnErr result (IsTrue (source_may_fail self.old)) }
        ensures counts { source_counts self.new
            ≡ read_counted (length into.old) result (source_counts self.old) }
        ensures behind { IfOk result (λ n. drop n into.new ≡ drop n into.old) }
        ensures untouched { OnErr result (into.new ≡ into.old) }
        ensures count { IfOk result (λ n. n ≡ min (source_chunk self.old)
            (min (length into.old) (length (source_left self.old)))) }
        ensures listed { is_err result ≡ is_listed (source_failing self.old)
            (raised (source_counts self.old).calls) }
        ensures same { SameSource self.old self.new }
    {
        if is_next_listed(&self.failing, self.counts.calls) {
            return self.counts.count(into.len(), Err(Failed));
        }
        let rest = &self.bytes[self.at..];
        let count = self.chunk.min(into.len()).min(rest.len());
        into[..count].copy_from_slice(&rest[..count]);
        self.at += count;
        self.counts.count(into.len(), Ok(count))
    }
}
