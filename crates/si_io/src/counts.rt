// What devices count. Each count stands still at the largest `u64`.
ghost use Rattle.std.specs.Prelude.{◌≡◌};
ghost use Rattle.si_io.specs.Counts.{nothing_read, nothing_written, nothing_fetched, none_of_some, empty_slices, raised_by, read_counted, write_counted, fetch_counted};

use crate::{Failed, Fetched};

/// What a source counts, each up to the largest `u64`.
#[derive(Clone, Copy)]
pub struct SourceCounts {
    /// The reads.
    pub calls: u64,
    /// The bytes that they gave.
    pub bytes: u64,
    /// Those that told the end.
    pub ends: u64,
    /// Those into an empty slice.
    pub empty: u64,
    /// Those that failed.
    pub faults: u64,
}

/// What a sink counts, each up to the largest `u64`.
#[derive(Clone, Copy)]
pub struct SinkCounts {
    /// The writes.
    pub calls: u64,
    /// The bytes that they took.
    pub bytes: u64,
    /// Those that failed, or took none of some bytes.
    pub faults: u64,
}

/// What a library counts, each up to the largest `u64`.
#[derive(Clone, Copy)]
pub struct LibraryCounts {
    /// The fetches.
    pub calls: u64,
    /// Those that failed.
    pub faults: u64,
    /// Those that found no file.
    pub misses: u64,
    /// Those whose file was too big.
    pub bigs: u64,
}

impl SourceCounts {
    /// Nothing is counted yet.
    pub fn new() -> SourceCounts
        ensures { result ≡ nothing_read }
    {
        SourceCounts {
            calls: 0,
            bytes: 0,
            ends: 0,
            empty: 0,
            faults: 0,
        }
    }

    /// Counts a read into so much room, and hands its answer on.
    pub fn count(&mut self, room: usize, answer: Result<usize, Failed>) -> Result<usize, Failed>
        ensures same { result ≡ answer }
        ensures counts { self.new ≡ read_counted room answer self.old }
    {
        self.calls = raised(self.calls, 1);
        self.empty = raised(self.empty, empty_slices(room));
        match answer {
            Ok(count) => {
                self.bytes = raised(self.bytes, count as u64);
                if is_none_of_some(count, room) {
                    self.ends = raised(self.ends, 1);
                }
                Ok(count)
            }
            Err(failed) => {
                self.faults = raised(self.faults, 1);
                Err(failed)
            }
        }
    }
}

impl SinkCounts {
    /// Nothing is counted yet.
    pub fn new() -> SinkCounts
        ensures { result ≡ nothing_written }
    {
        SinkCounts {
            calls: 0,
            bytes: 0,
            faults: 0,
        }
    }

    /// Counts a write of so many bytes, and hands its answer on.
    pub fn count(&mut self, size: usize, answer: Result<usize, Failed>) -> Result<usize, Failed>
        ensures same { result ≡ answer }
        ensures counts { self.new ≡ write_counted size answer self.old }
    {
        self.calls = raised(self.calls, 1);
        match answer {
            Ok(count) => {
                self.bytes = raised(self.bytes, count as u64);
                if is_none_of_some(count, size) {
                    self.faults = raised(self.faults, 1);
                }
                Ok(count)
            }
            Err(failed) => {
                self.faults = raised(self.faults, 1);
                Err(failed)
            }
        }
    }
}

impl LibraryCounts {
    /// Nothing is counted yet.
    pub fn new() -> LibraryCounts
        ensures { result ≡ nothing_fetched }
    {
        LibraryCounts {
            calls: 0,
            faults: 0,
            misses: 0,
            bigs: 0,
        }
    }

    /// Counts a fetch, and hands its answer on.
    pub fn count(&mut self, answer: Fetched) -> Fetched
        ensures same { result ≡ answer }
        ensures counts { self.new ≡ fetch_counted answer self.old }
    {
        self.calls = raised(self.calls, 1);
        match answer {
            Fetched::Missing => self.misses = raised(self.misses, 1),
            Fetched::TooBig => self.bigs = raised(self.bigs, 1),
            Fetched::Failed => self.faults = raised(self.faults, 1),
            Fetched::File => {}
            Fetched::Memory => {}
        }
        answer
    }
}

/// The count after so many more. It stands still at the largest `u64`.
fn raised(count: u64, more: u64) -> u64
    ensures { result ≡ raised_by more count }
{
    count.saturating_add(more)
}

/// One slice where it has no room, and else none.
fn empty_slices(room: usize) -> u64
    ensures { result ≡ empty_slices room }
{
    match room {
        0 => 1,
        _ => 0,
    }
}

fn is_none_of_some(count: usize, size: usize) -> bool
    ensures { result ≡ none_of_some count size }
{
    count == 0 && 0 < size
}
