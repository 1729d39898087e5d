ghost use Rattle.std.specs.Prelude.{◌≡◌, ◌<◌, ◌≤◌, ◌+◌, ◌||◌, [], length, take, min, max, is_err, nat_lt, vec_len, vec_capacity, IfOk, OnErr};

use super::plan::is_next_listed;
use crate::{Failed, Sink, SinkCounts};
use std::alloc::{AllocError, Global};

/// A sink that keeps what it was given in memory, up to its room, which it takes when it is made.
///
/// A call takes all of its bytes, at most the chunk. It fails where its number, from 1, is listed
/// and where the room is too small for what it is due to take, and nowhere else.
#[derive(Drop)]
pub struct MemorySink {
    buffer: Vec<u8>,
    room: usize,
    chunk: usize,
    failing: Vec<u32>,
    counts: SinkCounts,
    ghost within: { vec_len buffer ≤ room },
    ghost reserved: { room ≤ vec_capacity buffer },
    ghost takes: { 0 < chunk },
}

impl MemorySink {
    ghost use Rattle.si_io.specs.Counts.{nothing_written};
    ghost use Rattle.si_io.specs.Memory.{sink_bytes, sink_room, sink_chunk, sink_failing, sink_counts};

    /// A sink with room for `room` bytes. A call takes at most `chunk` of them, and a `chunk` of 0
    /// is one of 1. `failing` lists the calls that fail, by their numbers from 1.
    ///
    /// `AllocError`: there is no memory for the room.
    pub fn new(
        alloc: Global,
        room: usize,
        chunk: usize,
        failing: Vec<u32>,
    ) -> Result<MemorySink, AllocError>
        ensures empty { IfOk result (λ sink. sink_bytes sink ≡ []) }
        ensures room { IfOk result (λ sink. sink_room sink ≡ room) }
        ensures chunk { IfOk result (λ sink. sink_chunk sink ≡ max chunk 1) }
        ensures failing { IfOk result (λ sink. sink_failing sink ≡ failing.items) }
        ensures counts { IfOk result (λ sink. sink_counts sink
            ≡ nothing_written) }
    {
        let buffer = Vec::with_capacity(alloc, room)?;
        Ok(MemorySink {
            buffer,
            room,
            chunk: chunk.max(1),
            failing,
            counts: SinkCounts::new(),
        })
    }

    /// What was written.
    pub fn bytes(&self) -> &[u8]
        ensures { result.now ≡ sink_bytes self.now }
    {
        &self.buffer
    }
}

impl Sink for MemorySink {
    ghost use Rattle.si_io.specs.Content.{Receives, TakesFitting};
    ghost use Rattle.si_io.specs.Counts.{raised, write_counted};
    ghost use Rattle.si_io.specs.Memory.{sink_told, sink_bytes, sink_room, sink_sure, sink_chunk, sink_failing, sink_counts, sink_shown, SameSink};
    ghost use Rattle.si_io.specs.Plan.{is_listed};

    ghost shown = { sink_shown };

    /// Takes all of its bytes, at most the chunk. Fails exactly where the call is listed or the
    /// room is too small.
    fn write(&mut self, bytes: &[u8]) -> Result<usize, Failed>
        ensures bound { IfOk result (λ n. n ≤ length bytes.now) }
        ensures taken { IfOk result (λ n. Receives (sink_told self.old) (take n bytes.now)
            (sink_told self.new)) }
        ensures kept { OnErr result (sink_told self.new ≡ sink_told self.old) }
        ensures fits { TakesFitting (sink_sure self.old) bytes.now result }
        ensures counts { sink_counts self.new
            ≡ write_counted (length bytes.now) result (sink_counts self.old) }
        ensures count { IfOk result (λ n. n ≡ min (sink_chunk self.old) (length bytes.now)) }
        ensures fails { is_err result ≡ (is_listed (sink_failing self.old)
            (raised (sink_counts self.old).calls) || nat_lt (sink_room self.old)
            (length (sink_bytes self.old) + min (sink_chunk self.old) (length bytes.now))) }
        ensures same { SameSink self.old self.new }
    {
        let count = self.chunk.min(bytes.len());
        if is_next_listed(&self.failing, self.counts.calls) {
            return self.counts.count(bytes.len(), Err(Failed));
        }
        if count > self.room - self.buffer.len() {
            return self.counts.count(bytes.len(), Err(Failed));
        }
        // The room was taken when the sink was made, so this can't be refused.
        match self.buffer.extend_from_slice(&bytes[..count]) {
            Ok(()) => self.counts.count(bytes.len(), Ok(count)),
            Err(_) => self.counts.count(bytes.len(), Err(Failed)),
        }
    }
}
