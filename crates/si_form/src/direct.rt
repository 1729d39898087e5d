// The canonical list where it can be read off the bindings.
// No bound variable stands in a value then, and no value that is an application in another. So each
// application leads its class alone, and variables that become the same are led by the first.
ghost use Rattle.std.specs.Prelude.{◌≡◌, ◌<◌, ◌↔◌, IsTrue, IfOk, IfSome, None, Some, length};
ghost use Rattle.std.specs.List.{AllByRecursion};
ghost use Rattle.si_flat.specs.Flattening.{owners_variable};
ghost use Rattle.si_trail.specs.Trails.{value_at, HasDistinctSlots};
ghost use Rattle.si_unify.specs.Solving.{slot_count, variable_of, AreInRange, IsAcyclic, IsBinding, IsPieceOf};
ghost use Rattle.si_unify.specs.Spots.{CellIsUnbound};
ghost use Rattle.si_form.specs.Direct.{StandsApart, head_slot, IsDirect, AreDirect, AreApplied, AreSmall, CanBeReadOff, BecomesThat, IsFirst, AreRenamed};
ghost use Rattle.si_form.specs.Unifying.{HasRightSide, ListsAllBindings, AreFree};

use crate::matching::are_same;
use crate::solution::{Binding, Solution};
use si_flat::{Cell, Flat, Owner};
use si_trail::Trail;
use si_unify::{Slots, are_unbound};
use std::alloc::{AllocError, Global};

// Each value is compared with each, so there must be few of them, with few cells.
const MOST_BINDINGS: usize = 8;

const MOST_CELLS: usize = 64;

// The binding of the variable of a slot.
pub(crate) fn binding(slots: Slots, slot: usize, value: Flat) -> Binding
    requires none { slots.inds ≡ 0 }
    requires inside { slot < slot_count slots }
    ensures left { variable_of slots slot ≡ owners_variable result.owner result.slot }
    ensures right { result.value ≡ value }
{
    match slots.cell_of(slot) {
        Cell::Query(number) => Binding {
            owner: Owner::Query,
            slot: number,
            value,
        },
        Cell::Entry(number) => Binding {
            owner: Owner::Entry,
            slot: number,
            value,
        },
        Cell::App { .. } => unreachable!(),
        Cell::Ind(_) => unreachable!(),
    }
}

// Whether the bindings, so many, are few, and their values small.
fn is_small<'a>(trail: &Trail<&'a [Cell]>, count: usize) -> bool
    requires number { count ≡ length trail.now.pairs }
    requires distinct { HasDistinctSlots trail.now.pairs }
    ensures { IsTrue result ↔ AreSmall trail.now.pairs }
{
    if count > MOST_BINDINGS {
        return false;
    }
    let mut room = MOST_CELLS;
    for n in 0..count {
        let Some(value) = trail.get(trail.slot(n)) else {
            unreachable!()
        };
        let Some(left) = room.checked_sub(value.len()) else {
            return false;
        };
        room = left;
    }
    true
}

// Whether some slice of the cells has the cells of the piece.
fn has_piece(cells: &[Cell], piece: &[Cell]) -> bool
    requires { 0 < length piece.now }
    ensures { IsTrue result ↔ IsPieceOf cells.now piece.now }
{
    if cells.len() < piece.len() {
        return false;
    }
    for at in 0..cells.len() - piece.len() + 1 {
        let rest = &cells[at..];
        if are_same(&rest[..piece.len()], piece) {
            return true;
        }
    }
    false
}

// Whether the value of this slot is no slice of another value.
fn stands_apart<'a>(trail: &Trail<&'a [Cell]>, slot: usize, value: &[Cell]) -> bool
    requires { 0 < length value.now }
    ensures { IsTrue result ↔ StandsApart trail.now.pairs slot value.now }
{
    for n in 0..trail.mark() {
        let other = trail.slot(n);
        if other == slot {
            continue;
        }
        let Some(cells) = trail.get(other) else {
            unreachable!()
        };
        if has_piece(cells, value) {
            return false;
        }
    }
    true
}

// Whether no bound variable stands in the value of this slot, which is a variable or stands in no
// other value.
fn is_direct<'a>(slots: &Slots, trail: &Trail<&'a [Cell]>, slot: usize, value: &'a [Cell]) -> bool
    requires { 0 < length value.now }
    ensures { IsTrue result ↔ IsDirect slots.now trail.now.pairs (slot, value.entry) }
{
    if !are_unbound(trail, slots, value) {
        return false;
    }
    let Some(_) = slots.slot_of(value[0]) else {
        return stands_apart(trail, slot, value);
    };
    true
}

// Whether this is so for all values.
fn are_direct<'a>(slots: &Slots, trail: &Trail<&'a [Cell]>) -> bool
    requires { AllByRecursion (IsBinding slots.now) trail.now.pairs }
    ensures { IsTrue result ↔ AreDirect slots.now trail.now.pairs }
{
    for n in 0..trail.mark() {
        let slot = trail.slot(n);
        let Some(value) = trail.get(slot) else {
            unreachable!()
        };
        if !is_direct(slots, trail, slot, value) {
            return false;
        }
    }
    true
}

// The first slot whose variable becomes that of this unbound slot.
fn first_of<'a>(slots: &Slots, trail: &Trail<&'a [Cell]>, slot: usize) -> usize
    requires { AllByRecursion (IsBinding slots.now) trail.now.pairs }
    ensures { IsFirst slots.now trail.now.pairs slot result }
{
    let mut first = slot;
    for n in 0..trail.mark() {
        let other = trail.slot(n);
        if other >= first {
            continue;
        }
        let Some(value) = trail.get(other) else {
            unreachable!()
        };
        let Some(next) = slots.slot_of(value[0]) else {
            continue;
        };
        if next != slot {
            continue;
        }
        first = other;
    }
    first
}

// The cells, each variable replaced by the one that leads it.
fn renamed<'a>(
    alloc: Global,
    slots: &Slots,
    trail: &Trail<&'a [Cell]>,
    cells: &[Cell],
) -> Result<Vec<Cell>, AllocError>
    requires can { CanBeReadOff slots.now trail.now.pairs }
    requires range { AreInRange slots.now cells.now }
    requires unbound { AllByRecursion (CellIsUnbound slots.now trail.now.pairs) cells.now }
    ensures { IfOk result
        (λ new. AreRenamed slots.now trail.now.pairs cells.now new.items) }
{
    let mut new = Vec::with_capacity(alloc, cells.len())?;
    for &cell in cells {
        let Some(slot) = slots.slot_of(cell) else {
            new.push(cell)?;
            continue;
        };
        let first = first_of(slots, trail, slot);
        new.push(slots.cell_of(first))?;
    }
    Ok(new)
}

// The right side of a slot whose value is an application.
fn application_side<'a>(
    alloc: Global,
    slots: &Slots,
    trail: &Trail<&'a [Cell]>,
    slot: usize,
    value: &'a [Cell],
) -> Result<Flat, AllocError>
    requires can { CanBeReadOff slots.now trail.now.pairs }
    requires bound { value_at trail.now.pairs slot ≡ Some value }
    requires applied { head_slot slots.now value.now ≡ None }
    ensures { IfOk result (λ side. HasRightSide slots.now trail.now.pairs slot (Some side)) }
{
    let cells = renamed(alloc, slots, trail, value)?;
    Flat::from_cells(alloc, &cells)
}

// The right side of a slot whose variable becomes that of an unbound slot; nothing where it leads.
fn variable_side<'a>(
    alloc: Global,
    slots: &Slots,
    trail: &Trail<&'a [Cell]>,
    slot: usize,
    unbound: usize,
) -> Result<Option<Flat>, AllocError>
    requires can { CanBeReadOff slots.now trail.now.pairs }
    requires inside { unbound < slot_count slots.now }
    requires unbound { value_at trail.now.pairs unbound ≡ None }
    requires becomes { BecomesThat slots.now trail.now.pairs unbound slot }
    ensures { IfOk result (HasRightSide slots.now trail.now.pairs slot) }
{
    let first = first_of(slots, trail, unbound);
    if first == slot {
        return Ok(None);
    }
    let side = Flat::from_cells(alloc, &[slots.cell_of(first)])?;
    Ok(Some(side))
}

// The right side of a slot; nothing where its variable isn't bound in the list.
fn side<'a>(
    alloc: Global,
    slots: &Slots,
    trail: &Trail<&'a [Cell]>,
    slot: usize,
) -> Result<Option<Flat>, AllocError>
    requires can { CanBeReadOff slots.now trail.now.pairs }
    requires inside { slot < slot_count slots.now }
    ensures { IfOk result (HasRightSide slots.now trail.now.pairs slot) }
{
    let Some(value) = trail.get(slot) else {
        return variable_side(alloc, slots, trail, slot, slot);
    };
    let Some(next) = slots.slot_of(value[0]) else {
        let side = application_side(alloc, slots, trail, slot, value)?;
        return Ok(Some(side));
    };
    variable_side(alloc, slots, trail, slot, next)
}

// Whether no value is a variable.
fn are_applied<'a>(slots: &Slots, trail: &Trail<&'a [Cell]>) -> bool
    requires { AllByRecursion (IsBinding slots.now) trail.now.pairs }
    ensures { IsTrue result ↔ AreApplied slots.now trail.now.pairs }
{
    for n in 0..trail.mark() {
        let Some(value) = trail.get(trail.slot(n)) else {
            unreachable!()
        };
        if slots.slot_of(value[0]).is_some() {
            return false;
        }
    }
    true
}

// The list where no value is a variable: the values themselves.
fn list_values<'a>(
    alloc: Global,
    slots: &Slots,
    trail: &Trail<&'a [Cell]>,
) -> Result<Solution, AllocError>
    requires can { CanBeReadOff slots.now trail.now.pairs }
    requires room { trail.now.slots ≡ slot_count slots.now }
    requires applied { AreApplied slots.now trail.now.pairs }
    ensures { IfOk result (ListsAllBindings slots.now trail.now.pairs) }
{
    let mut solution = Solution::new(alloc);
    for slot in 0..trail.slots() {
        let Some(value) = trail.get(slot) else {
            continue;
        };
        let side = Flat::from_cells(alloc, value)?;
        solution.push(binding(*slots, slot, side))?;
    }
    Ok(solution)
}

// The list where some values may be variables.
fn list_sides<'a>(
    alloc: Global,
    slots: &Slots,
    trail: &Trail<&'a [Cell]>,
) -> Result<Solution, AllocError>
    requires can { CanBeReadOff slots.now trail.now.pairs }
    requires room { trail.now.slots ≡ slot_count slots.now }
    ensures { IfOk result (ListsAllBindings slots.now trail.now.pairs) }
{
    let mut solution = Solution::new(alloc);
    for slot in 0..trail.slots() {
        let Some(side) = side(alloc, slots, trail, slot)? else {
            continue;
        };
        solution.push(binding(*slots, slot, side))?;
    }
    Ok(solution)
}

/// The canonical list of the bindings that make two terms equal, where it can be read off.
pub(crate) fn direct_list<'a>(
    alloc: Global,
    slots: &Slots,
    trail: &Trail<&'a [Cell]>,
) -> Result<Option<Solution>, AllocError>
    requires free { AreFree slots.now }
    requires room { trail.now.slots ≡ slot_count slots.now }
    requires bindings { AllByRecursion (IsBinding slots.now) trail.now.pairs }
    requires triangular { IsAcyclic slots.now trail.now.pairs }
    ensures distinct { HasDistinctSlots trail.now.pairs }
    ensures all { IfOk result (λ list. IfSome list (ListsAllBindings slots.now trail.now.pairs)) }
{
    let count = trail.mark();
    if !is_small(trail, count) || !are_direct(slots, trail) {
        return Ok(None);
    }
    if are_applied(slots, trail) {
        let solution = list_values(alloc, slots, trail)?;
        return Ok(Some(solution));
    }
    let solution = list_sides(alloc, slots, trail)?;
    Ok(Some(solution))
}
