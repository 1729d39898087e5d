ghost use Rattle.std.specs.Prelude.{◌≡◌, ◌≤◌, ℕ, Result, length, IfOk};
ghost use Rattle.std.specs.Io.KnownBytes.{ReadConsumes};
ghost use Rattle.std.specs.declared.io.Error.{Error};
ghost use Rattle.si_io.specs.Real.{Hears};

use super::again::read_again;
use super::device::Input;
use crate::{Failed, Source, SourceCounts};
use std::io;

/// A source over a reader of std.
///
/// Each error of the reader is answered as `Failed`, but for a signal's: such a call is made again.
/// What the reader has left isn't told.
#[derive(Drop)]
pub struct RealSource<R> {
    reader: R,
    counts: SourceCounts,
}

impl<R> RealSource<R> {
    ghost use Rattle.si_io.specs.Counts.{nothing_read};
    ghost use Rattle.si_io.specs.Real.{reader_of, reads_of};

    /// A source over this reader, which has counted nothing yet.
    pub fn new(reader: R) -> RealSource<R>
        ensures reader { reader_of result ≡ reader }
        ensures counts { reads_of result ≡ nothing_read }
    {
        RealSource {
            reader,
            counts: SourceCounts::new(),
        }
    }
}

impl<R: Input> Source for RealSource<R> {
    ghost use Rattle.si_io.specs.Counts.{read_counted};
    ghost use Rattle.si_io.specs.Real.{reader_of, reads_of, source_shown};
    ghost use Rattle.si_io.specs.Tries.{TriesToRead};

    ghost shown = { source_shown };

    /// Reads once. Beside what every source promises, it gives what the reader gave, where that is
    /// known.
    fn read(&mut self, into: &mut [u8]) -> Result<usize, Failed>
        ensures bound { IfOk result (λ n. n ≤ length into.old) }
        ensures counts { reads_of self.new
            ≡ read_counted (length into.old) result (reads_of self.old) }
        ensures passed { ReadConsumes (R.rest (reader_of self.old)) (R.rest (reader_of self.new))
            result into.new }
        ensures once { (answer : Result ℕ Error)
            × TriesToRead R.reads (reader_of self.old) into.old answer (reader_of self.new)
            into.new × Hears answer result }
    {
        let answer = heard(read_again(&mut self.reader, into));
        self.counts.count(into.len(), answer)
    }
}

fn heard(answer: io::Result<usize>) -> Result<usize, Failed>
    ensures { Hears answer result }
{
    match answer {
        Ok(count) => Ok(count),
        Err(_) => Err(Failed),
    }
}
