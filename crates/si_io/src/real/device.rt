// What real sources and sinks stand on: one call each, which reads, writes or flushes.
ghost use Rattle.std.specs.Prelude.{◌≤◌, ℕ, List, Option, Result, ⊤, length, IfOk};
ghost use Rattle.std.specs.Io.KnownBytes.{Keeps, ReadConsumes, WriteAppends};
ghost use Rattle.std.specs.declared.io.Error.{Error};

use std::io;
use std::io::{Read, Write};

/// What is read from.
pub trait Input {
    /// The bytes still to come, where they are known.
    ghost rest: { Self → Option (List ℕ) };

    /// What one call of `read_once` did, where that is told: the input and the slice before the
    /// call, its answer, and the input and the slice after it.
    ghost reads: { Self → List ℕ → Result ℕ Error → Self → List ℕ → Type 0 };

    fn read_once(&mut self, into: &mut [u8]) -> io::Result<usize>
        ensures bound { IfOk result (λ n. n ≤ length into.old) }
        ensures bytes { ReadConsumes (rest self.old) (rest self.new) result into.new }
        ensures once { reads self.old into.old result self.new into.new };
}

/// What is written to.
pub trait Output {
    /// The bytes that were written, where they are known.
    ghost text: { Self → Option (List ℕ) };

    /// What one call of `write_once` did, where that is told: the output before the call, the
    /// bytes, the answer, and the output after it.
    ghost writes: { Self → List ℕ → Result ℕ Error → Self → Type 0 };

    /// The same of `flush_once`.
    ghost flushes: { Self → Result ⊤ Error → Self → Type 0 };

    fn write_once(&mut self, bytes: &[u8]) -> io::Result<usize>
        ensures bound { IfOk result (λ n. n ≤ length bytes.now) }
        ensures bytes { WriteAppends (text self.old) (text self.new) result bytes.now }
        ensures once { writes self.old bytes.now result self.new };

    fn flush_once(&mut self) -> io::Result<()>
        ensures bytes { Keeps (text self.old) (text self.new) }
        ensures once { flushes self.old result self.new };
}

/// A reader of std tells nothing of its calls: that each is made once has to be read in this line.
impl<R: Read> Input for R {
    ghost rest = { R.remaining };

    ghost reads = { λ before slice answer after filled. ⊤ };

    fn read_once(&mut self, into: &mut [u8]) -> io::Result<usize> {
        self.read(into)
    }
}

/// Nor does a writer of std.
impl<W: Write> Output for W {
    ghost text = { W.contents };

    ghost writes = { λ before bytes answer after. ⊤ };

    ghost flushes = { λ before answer after. ⊤ };

    fn write_once(&mut self, bytes: &[u8]) -> io::Result<usize> {
        self.write(bytes)
    }

    fn flush_once(&mut self) -> io::Result<()> {
        self.flush()
    }
}
