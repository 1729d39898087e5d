ghost use Rattle.std.specs.Prelude.{◌≡◌, ◌≤◌, length, take, IfOk, OnErr};
ghost use Rattle.si_io.specs.Content.{Receives, TakesFitting};
ghost use Rattle.si_io.specs.Counts.{write_counted};
ghost use Rattle.si_io.specs.Sends.{Sends};
ghost use Rattle.si_io.specs.Shown.{SinkShown};

use crate::Failed;

/// What bytes are written to.
pub trait Sink {
    /// The bytes that the sink was given, where it tells them, and how many more it is sure to
    /// take; and what it has counted so far.
    ghost shown: { Self → SinkShown };

    /// Takes some bytes from the front of `bytes`, and answers their number.
    ///
    /// It may take fewer than there are. `Failed` took nothing. That, and `Ok(0)` on a slice that
    /// isn't empty, are faults. Each call is counted, with what it answered. Bytes that fit the
    /// room are taken, all or some of them.
    ///
    /// A sink that hands bytes on may answer `Failed` where it took them and failed after that, as
    /// at a flush. It can't say then what has gone out, so it is one that doesn't tell its bytes.
    fn write(&mut self, bytes: &[u8]) -> Result<usize, Failed>
        ensures bound { IfOk result (λ n. n ≤ length bytes.now) }
        ensures taken { IfOk result (λ n. Receives (shown self.old).told (take n bytes.now)
            (shown self.new).told) }
        ensures kept { OnErr result ((shown self.new).told ≡ (shown self.old).told) }
        ensures fits { TakesFitting (shown self.old).told.room bytes.now result }
        ensures counts { (shown self.new).counts
            ≡ write_counted (length bytes.now) result (shown self.old).counts };
}

/// Writes all the bytes, in as many calls as the sink needs, and none after one that failed.
///
/// It takes no memory of its own.
pub fn write_all<K: Sink>(sink: &mut K, bytes: &[u8]) -> Result<(), Failed>
    ensures { Sends result bytes.now (K.shown sink.old) (K.shown sink.new) }
{
    let mut taken = 0;
    while taken < bytes.len() {
        let count = sink.write(&bytes[taken..])?;
        if count == 0 {
            return Err(Failed);
        }
        taken += count;
    }
    Ok(())
}
