// The walk over a term and a right side whose indicators are fresh.
ghost use Rattle.std.specs.List.{AllByRecursion};
ghost use Rattle.si_fit.specs.Fitting.{AreWalkable};
ghost use Rattle.si_fit.specs.Fresh.{StandOnce, IsNew};
ghost use Rattle.si_fit.specs.Meeting.{first_cell_of, HaveNoSameSymbol, HasWalked};

use crate::ends::end_of;
use crate::meeting::Met;
use crate::walking::meet;
use si_flat::{Cell, sub};
use si_trail::Trail;
use si_unify::{Slots, have_same_symbol};

// Makes a term equal to a right side, each indicator of which is bound to what stands in its place
// without a search, and without a look at its slot.
#[inline(never)]
fn fill<'a>(
    trail: &mut Trail<&'a [Cell]>,
    slots: &Slots,
    left: &'a [Cell],
    right: &'a [Cell],
    budget: &mut u32,
) -> Met
    requires terms { AreWalkable slots.now trail.old left.now right.now }
    requires once { StandOnce right.now }
    requires fresh { AllByRecursion (IsNew slots.now trail.old.pairs left.now) right.now }
    ensures { HasWalked slots.now trail.old trail.new left.now right.now result }
{
    let mut i = 0;
    let mut j = 0;
    while j < right.len() {
        if have_same_symbol(left[i], right[j]) {
            i += 1;
            j += 1;
            continue;
        }
        let one = sub(left, i);
        let other = sub(right, j);
        match fill_one(trail, slots, one, other, budget) {
            Met::Equal => {
                // So no slot of the trail is known to be bound twice.
                trail.mark();
                i += one.len();
                j += other.len();
            }
            Met::Clash => return Met::Clash,
            Met::Unknown => return Met::Unknown,
        }
    }
    Met::Equal
}

// Makes two terms equal that don't have the same symbol at the head, and of which the second may be
// a fresh indicator.
#[inline(always)]
fn fill_one<'a>(
    trail: &mut Trail<&'a [Cell]>,
    slots: &Slots,
    left: &'a [Cell],
    right: &'a [Cell],
    budget: &mut u32,
) -> Met
    requires terms { AreWalkable slots.now trail.old left.now right.now }
    requires differ { HaveNoSameSymbol left.now right.now }
    requires fresh { IsNew slots.now trail.old.pairs left.now (first_cell_of right.now) }
    ensures { HasWalked slots.now trail.old trail.new left.now right.now result }
{
    let first = right[0];
    if let Cell::Ind(number) = first {
        // So no slot of the trail is known to be bound twice.
        trail.mark();
        let end = end_of(trail, slots, left);
        trail.bind(slots.indicator_slot(number), end);
        return Met::Equal;
    }
    meet(trail, slots, left, right, budget)
}

/// Makes a term equal to a right side.
#[inline(always)]
pub(crate) fn fill_any<'a>(
    trail: &mut Trail<&'a [Cell]>,
    slots: &Slots,
    left: &'a [Cell],
    right: &'a [Cell],
    budget: &mut u32,
) -> Met
    requires terms { AreWalkable slots.now trail.old left.now right.now }
    requires once { StandOnce right.now }
    requires fresh { AllByRecursion (IsNew slots.now trail.old.pairs left.now) right.now }
    ensures { HasWalked slots.now trail.old trail.new left.now right.now result }
{
    if have_same_symbol(left[0], right[0]) {
        return fill(trail, slots, left, right, budget);
    }
    fill_one(trail, slots, left, right, budget)
}
