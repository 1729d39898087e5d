// Which calls of a device in memory fail.
ghost use Rattle.std.specs.Prelude.{◌≡◌};
ghost use Rattle.si_io.specs.Counts.{raised};
ghost use Rattle.si_io.specs.Plan.{is_listed};

/// Whether the call is listed that comes after so many. A count at the largest `u64` stays, and no
/// `u32` is that.
pub fn is_next_listed(failing: &[u32], calls: u64) -> bool
    ensures { result ≡ is_listed failing.now (raised calls) }
{
    let call = calls.saturating_add(1);
    failing.iter().any(|number| u64::from(*number) == call)
}
