ghost use Rattle.std.specs.Prelude.{◌≡◌, ◌<◌, ◌≤◌, ℕ, Result, length, take, IfOk};
ghost use Rattle.std.specs.Io.KnownBytes.{Appends};
ghost use Rattle.std.specs.declared.io.Error.{Error};
ghost use Rattle.si_io.specs.Real.{FlushesLine};
ghost use Rattle.si_io.specs.Tries.{TriesWith};

use super::again::{flush_again, write_again};
use super::device::Output;
use crate::{Failed, Sink, SinkCounts};

const LINE_END: &[u8] = b"\n";

/// A sink over a writer of std, which flushes at the end of a line.
///
/// Each error of the writer is answered as `Failed`, but for a signal's: such a call is made again.
/// A writer that takes nothing of a slice that isn't empty fails too. What the writer was given
/// isn't told: after `Failed` from a flush the bytes may have gone out.
#[derive(Drop)]
pub struct RealSink<W> {
    writer: W,
    counts: SinkCounts,
}

impl<W> RealSink<W> {
    ghost use Rattle.si_io.specs.Counts.{nothing_written};
    ghost use Rattle.si_io.specs.Real.{writer_of, writes_of};

    /// A sink over this writer, which has counted nothing yet.
    pub fn new(writer: W) -> RealSink<W>
        ensures writer { writer_of result ≡ writer }
        ensures counts { writes_of result ≡ nothing_written }
    {
        RealSink {
            writer,
            counts: SinkCounts::new(),
        }
    }
}

impl<W: Output> Sink for RealSink<W> {
    ghost use Rattle.si_io.specs.Counts.{write_counted};
    ghost use Rattle.si_io.specs.Real.{writer_of, writes_of, sink_shown};

    ghost shown = { sink_shown };

    /// Writes once, and flushes where all of the bytes were taken and the last one ends a line.
    /// Beside what every sink promises, what is taken goes to the writer, where its content is
    /// known.
    fn write(&mut self, bytes: &[u8]) -> Result<usize, Failed>
        ensures bound { IfOk result (λ n. n ≤ length bytes.now) }
        ensures stuck { IfOk result (λ n. 0 < length bytes.now → 0 < n) }
        ensures counts { writes_of self.new
            ≡ write_counted (length bytes.now) result (writes_of self.old) }
        ensures passed { IfOk result (λ n. Appends (W.text (writer_of self.old))
            (W.text (writer_of self.new)) (take n bytes.now)) }
        ensures once { (answer : Result ℕ Error) × (middle : W)
            × TriesWith W.writes (writer_of self.old) bytes.now answer middle
            × FlushesLine W.flushes bytes.now answer middle (writer_of self.new) result }
    {
        let answer = write_line(&mut self.writer, bytes);
        self.counts.count(bytes.len(), answer)
    }
}

/// Writes once, and flushes at the end of a line.
fn write_line<W: Output>(writer: &mut W, bytes: &[u8]) -> Result<usize, Failed>
    ensures bound { IfOk result (λ n. n ≤ length bytes.now) }
    ensures stuck { IfOk result (λ n. 0 < length bytes.now → 0 < n) }
    ensures passed { IfOk result (λ n. Appends (W.text writer.old) (W.text writer.new)
        (take n bytes.now)) }
    ensures once { (answer : Result ℕ Error) × (middle : W)
        × TriesWith W.writes writer.old bytes.now answer middle
        × FlushesLine W.flushes bytes.now answer middle writer.new result }
{
    let count = match write_again(writer, bytes) {
        Ok(count) => count,
        Err(_) => return Err(Failed),
    };
    if count == bytes.len() && bytes.ends_with(LINE_END) {
        return match flush_again(writer) {
            Ok(()) => Ok(count),
            Err(_) => Err(Failed),
        };
    }
    if count == 0 && 0 < bytes.len() {
        return Err(Failed);
    }
    Ok(count)
}
