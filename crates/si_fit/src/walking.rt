// The walk over two terms beside each other.
ghost use Rattle.std.specs.Prelude.{◌≡◌, ◌≤◌, None, Some};
ghost use Rattle.si_trail.specs.Trails.{value_at};
ghost use Rattle.si_unify.specs.Spots.{free_slot};
ghost use Rattle.si_fit.specs.Fitting.{AreWalkable};
ghost use Rattle.si_fit.specs.Meeting.{first_cell_of, is_newer, HaveNoSameSymbol, HasWalked};

use crate::meeting::{Met, bind, value_at};
use si_flat::{Cell, sub};
use si_trail::Trail;
use si_unify::{Slots, have_same_symbol, is_same_variable};

/// Makes two terms equal by binding variables, and follows those that are bound.
///
/// Each one that is followed is taken from the budget. Where that is used up, it isn't found out.
#[cycle(walking)]
#[inline(never)]
pub(crate) fn walk<'a>(
    trail: &mut Trail<&'a [Cell]>,
    slots: &Slots,
    left: &'a [Cell],
    right: &'a [Cell],
    budget: &mut u32,
) -> Met
    requires terms { AreWalkable slots.now trail.old left.now right.now }
    ensures walked { HasWalked slots.now trail.old trail.new left.now right.now result }
    ensures fewer { budget.new ≤ budget.old }
{
    let mut i = 0;
    let mut j = 0;
    while j < right.len() {
        if have_same_symbol(left[i], right[j]) {
            i += 1;
            j += 1;
            continue;
        }
        let one = sub(left, i);
        let other = sub(right, j);
        match meet(trail, slots, one, other, budget) {
            Met::Equal => {
                i += one.len();
                j += other.len();
            }
            Met::Clash => return Met::Clash,
            Met::Unknown => return Met::Unknown,
        }
    }
    Met::Equal
}

// Makes two terms equal of which one was a bound variable.
#[cycle(walking)]
#[inline(always)]
fn follow<'a>(
    trail: &mut Trail<&'a [Cell]>,
    slots: &Slots,
    left: &'a [Cell],
    right: &'a [Cell],
    budget: &mut u32,
) -> Met
    requires terms { AreWalkable slots.now trail.old left.now right.now }
    ensures walked { HasWalked slots.now trail.old trail.new left.now right.now result }
    ensures fewer { budget.new ≤ budget.old }
{
    if *budget == 0 {
        return Met::Unknown;
    }
    *budget -= 1;
    walk(trail, slots, left, right, budget)
}

// Makes a term equal to one that begins with a symbol or a frozen variable.
#[cycle(walking)]
#[inline(always)]
fn meet_fixed<'a>(
    trail: &mut Trail<&'a [Cell]>,
    slots: &Slots,
    left: &'a [Cell],
    right: &'a [Cell],
    budget: &mut u32,
) -> Met
    requires terms { AreWalkable slots.now trail.old left.now right.now }
    requires differ { HaveNoSameSymbol left.now right.now }
    requires fixed { free_slot slots.now (first_cell_of right.now) ≡ None }
    ensures walked { HasWalked slots.now trail.old trail.new left.now right.now result }
    ensures fewer { budget.new ≤ budget.old }
{
    let one = left[0];
    let other = right[0];
    let Some(slot) = slots.free_slot(one) else {
        if is_same_variable(one, other) {
            return Met::Equal;
        }
        return Met::Clash;
    };
    if let Some(value) = value_at(trail, slot) {
        return follow(trail, slots, value, right, budget);
    }
    bind(trail, slots, slot, right, budget)
}

// Whether of two unbound variables the first one is to be bound: it is an indicator, or the second
// one is the query's, to which a variable of the right side led. So where one stands often, the
// query's variables that it meets lead to the first of them, and not each to the next.
#[inline(always)]
fn is_newer(one: Cell, other: Cell) -> bool
    ensures { result ≡ is_newer one other }
{
    match (one, other) {
        (Cell::Ind(_), _) => true,
        (_, Cell::Query(_)) => true,
        _ => false,
    }
}

// Makes a term equal to the unbound variable of a slot.
#[cycle(walking)]
#[inline(always)]
fn meet_unbound<'a>(
    trail: &mut Trail<&'a [Cell]>,
    slots: &Slots,
    left: &'a [Cell],
    right: &'a [Cell],
    slot: usize,
    budget: &mut u32,
) -> Met
    requires terms { AreWalkable slots.now trail.old left.now right.now }
    requires variable { free_slot slots.now (first_cell_of right.now) ≡ Some slot }
    requires unbound { value_at trail.old.pairs slot ≡ None }
    ensures walked { HasWalked slots.now trail.old trail.new left.now right.now result }
    ensures fewer { budget.new ≤ budget.old }
{
    let one = left[0];
    let Some(own) = slots.free_slot(one) else {
        return bind(trail, slots, slot, left, budget);
    };
    if let Some(value) = value_at(trail, own) {
        return follow(trail, slots, value, right, budget);
    }
    if own == slot {
        return Met::Equal;
    }
    if is_newer(one, right[0]) {
        return bind(trail, slots, own, right, budget);
    }
    bind(trail, slots, slot, left, budget)
}

/// Makes two terms equal that don't have the same symbol at the head.
#[cycle(walking)]
#[inline(always)]
pub(crate) fn meet<'a>(
    trail: &mut Trail<&'a [Cell]>,
    slots: &Slots,
    left: &'a [Cell],
    right: &'a [Cell],
    budget: &mut u32,
) -> Met
    requires terms { AreWalkable slots.now trail.old left.now right.now }
    requires differ { HaveNoSameSymbol left.now right.now }
    ensures walked { HasWalked slots.now trail.old trail.new left.now right.now result }
    ensures fewer { budget.new ≤ budget.old }
{
    let other = right[0];
    let Some(slot) = slots.free_slot(other) else {
        return meet_fixed(trail, slots, left, right, budget);
    };
    if let Some(value) = value_at(trail, slot) {
        return follow(trail, slots, left, value, budget);
    }
    meet_unbound(trail, slots, left, right, slot, budget)
}
