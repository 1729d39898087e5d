// A variable that is made equal to a term by binding it.
ghost use Rattle.std.specs.Prelude.{◌≡◌, ◌≤◌, None};
ghost use Rattle.si_trail.specs.Trails.{value_at};
ghost use Rattle.si_fit.specs.Fitting.{AreWalkable};
ghost use Rattle.si_fit.specs.Meeting.{first_cell_of, IsOpenSlot, slot_cells, HasWalked};
ghost use Rattle.si_fit.specs.Occurring.{IsFreeFor};

use crate::occurring::{Occurrence, search};
use si_flat::Cell;
use si_trail::Trail;
use si_unify::Slots;

/// What became of two terms that are to be made equal.
#[derive(Clone, Copy)]
pub(crate) enum Met {
    /// What solves the bindings makes them equal.
    Equal,
    /// Nothing makes them equal.
    Clash,
    /// It wasn't found out.
    Unknown,
}

/// What a slot is bound to.
#[inline(always)]
pub(crate) fn value_at<'a>(trail: &Trail<&'a [Cell]>, slot: usize) -> Option<&'a [Cell]>
    ensures { result ≡ value_at trail.now.pairs slot }
{
    trail.get(slot).copied()
}

/// Binds the variable of a slot to a term, unless it occurs there.
#[inline(always)]
pub(crate) fn bind<'a>(
    trail: &mut Trail<&'a [Cell]>,
    slots: &Slots,
    slot: usize,
    term: &'a [Cell],
    budget: &mut u32,
) -> Met
    requires terms { AreWalkable slots.now trail.old (slot_cells slots.now slot) term.now }
    requires slot { IsOpenSlot slots.now slot }
    requires unbound { value_at trail.old.pairs slot ≡ None }
    requires first { IsFreeFor slots.now trail.old.pairs slot (first_cell_of term.now) }
    ensures walked { HasWalked slots.now trail.old trail.new (slot_cells slots.now slot) term.now
        result }
    ensures fewer { budget.new ≤ budget.old }
{
    let head = term[0];
    // So no slot of the trail is known to be bound twice.
    trail.mark();
    match search(trail, slots, slot, term, budget) {
        Occurrence::Absent => {
            trail.bind(slot, term);
            Met::Equal
        }
        Occurrence::Present => match head {
            Cell::App { .. } => Met::Clash,
            _ => Met::Unknown,
        },
        Occurrence::Unknown => Met::Unknown,
    }
}
