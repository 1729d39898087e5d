ghost use Rattle.std.specs.Prelude.{◌≡◌, ◌<◌, ◌≤◌, length, take, IfOk, OnErr, IsTrue};
ghost use Rattle.std.specs.Io.KnownBytes.{IsAtEnd};
ghost use Rattle.si_io.specs.Content.{Takes};
ghost use Rattle.si_io.specs.Counts.{read_counted};
ghost use Rattle.si_io.specs.Shown.{SourceShown};

use crate::Failed;

/// What bytes are read from.
pub trait Source {
    /// The bytes still to come, where the source tells them; whether it may fail at all; and what
    /// it has counted so far.
    ghost shown: { Self → SourceShown };

    /// Reads some bytes into the front of `into`, and answers their number.
    ///
    /// It may give fewer than fit. `Ok(0)` on a slice that isn't empty is the end. `Failed` took
    /// nothing. Each call is counted, with what it answered.
    ///
    /// What stands in `into` after the bytes that were read, and after `Failed` anywhere, isn't
    /// promised: a reader of std may write there.
    fn read(&mut self, into: &mut [u8]) -> Result<usize, Failed>
        ensures bound { IfOk result (λ n. n ≤ length into.old) }
        ensures taken { IfOk result (λ n. Takes (shown self.old).left (take n into.new)
            (shown self.new).left) }
        ensures ended { IfOk result (λ n. n ≡ 0 → 0 < length into.old
            → IsAtEnd (shown self.old).left) }
        ensures kept { OnErr result ((shown self.new).left ≡ (shown self.old).left) }
        ensures sure { OnErr result (IsTrue (shown self.old).may_fail) }
        ensures same { (shown self.new).may_fail ≡ (shown self.old).may_fail }
        ensures counts { (shown self.new).counts
            ≡ read_counted (length into.old) result (shown self.old).counts };
}
