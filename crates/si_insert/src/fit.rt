// Whether a right side of a node fits a term.
ghost use Rattle.std.specs.Prelude.{◌≡◌, ◌<◌, ◌++◌, true, false, IfOk, OnErr, length};
ghost use Rattle.si_defs.specs.Substitutions.{AreDistinct, Grows};
ghost use Rattle.si_flat.specs.Cells.{IsWhole, Term, StandsFor};
ghost use Rattle.si_legal.specs.Bindings.{indicators};
ghost use Rattle.si_insert.specs.Opened.{numbers, term_at};
ghost use Rattle.si_insert.specs.Fitting.{MayFit, FitsThere, FitsNowhere};

use crate::open::Openings;
use si_flat::Cell;
use si_mscg::have_same_head;
use std::alloc::AllocError;

// Whether a right side fits the term that begins at a place. Its indicators are opened, and stay
// so where it doesn't fit.
pub(crate) fn fits(
    openings: &mut Openings,
    right: &[Cell],
    cells: &[Cell],
    at: usize,
) -> Result<bool, AllocError>
    requires whole { IsWhole cells.now }
    requires inside { at < length cells.now }
    requires may_fit { MayFit openings.old right.now }
    ensures grows { Grows openings.old openings.new }
    ensures fits { IfOk result (λ fits. fits ≡ true
        → FitsThere openings.old right.now cells.now at openings.new) }
    ensures differs { IfOk result (λ fits. fits ≡ false
        → FitsNowhere right.now cells.now at) }
{
    let mut node = right;
    let mut place = at;
    while let Some((cell, arguments)) = node.split_first() {
        let other = cells[place];
        if let Cell::Ind(indicator) = *cell {
            openings.open(indicator, place)?;
            node = arguments;
            place += other.span();
        } else if have_same_head(*cell, other) {
            node = arguments;
            place += 1;
        } else {
            return Ok(false);
        }
    }
    Ok(true)
}
