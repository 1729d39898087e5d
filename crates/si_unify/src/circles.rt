// The search for a circle through bound variables.
ghost use Rattle.std.specs.Prelude.{◌≡◌, ℕ, ◌+◌, ◌*◌, ◌<◌, ◌≤◌, ◌↔◌, IsTrue, length, take, reverse, ◌++◌, ◌∷◌, [], IfOk, OnOk, OnErr, vec_capacity};
ghost use Rattle.std.specs.List.{AllByRecursion};
ghost use Rattle.si_trail.specs.Trails.{HasDistinctSlots};
ghost use Rattle.si_unify.specs.Circles.{if_bound, visits_of, AreEntered, AreEntries, IsResolved, AreResolved, IsSearching, HasSearchedCircle, HasDone, VisitsLackRoom, AreNoMore, SaysTriangular};
ghost use Rattle.si_unify.specs.Rooms.{AreNoLongerThan};
ghost use Rattle.si_unify.specs.Solving.{slot_count, IsAcyclic, IsBinding};
ghost use Rattle.si_unify.specs.States.{AreNew};
ghost use Rattle.si_unify.specs.Spots.{cell_slot};

use crate::slots::Slots;
use crate::states::{State, States};
use crate::unbound::are_unbound;
use si_flat::Cell;
use si_trail::Trail;
use std::alloc::AllocError;

/// What is left to do with a slot in the search for a circle.
#[derive(Clone, Copy)]
pub(crate) enum Visit {
    /// Search the value of a slot.
    Enter(usize),
    /// All that stands in the value of a slot has been searched.
    Leave(usize),
}

// The slot of a bound variable's cell.
fn bound_slot<'a>(trail: &Trail<&'a [Cell]>, slots: &Slots, cell: Cell) -> Option<usize>
    ensures { result ≡ if_bound trail.now.pairs (cell_slot slots.now cell) }
{
    let slot = slots.slot_of(cell)?;
    match trail.get(slot) {
        Some(_) => Some(slot),
        None => None,
    }
}

// Puts the bound variables of a value among the visits.
fn enter_cells<'a>(
    trail: &Trail<&'a [Cell]>,
    slots: &Slots,
    visits: &mut Vec<Visit>,
    value: &[Cell],
) -> Result<(), AllocError>
    ensures entered { OnOk result (AreEntered slots.now trail.now.pairs value.now
        (reverse visits.old.items) (reverse visits.new.items)) }
    ensures full { OnErr result (vec_capacity visits.old
        < length visits.old.items + length value.now) }
    ensures keeps { vec_capacity visits.old ≤ vec_capacity visits.new }
{
    for &cell in value {
        let Some(next) = bound_slot(trail, slots, cell) else {
            continue;
        };
        visits.push(Visit::Enter(next))?;
    }
    Ok(())
}

// Puts the bound variables of a slot's value among the visits.
fn enter_all<'a>(
    trail: &Trail<&'a [Cell]>,
    slots: &Slots,
    visits: &mut Vec<Visit>,
    slot: usize,
) -> Result<(), AllocError>
    ensures entered { OnOk result (reverse visits.new.items
        ≡ visits_of slots.now trail.now.pairs slot ++ reverse visits.old.items) }
    ensures full { OnErr result ((n : ℕ) → AreNoLongerThan n trail.now.pairs
        → vec_capacity visits.old < length visits.old.items + n) }
    ensures keeps { vec_capacity visits.old ≤ vec_capacity visits.new }
{
    match trail.get(slot) {
        Some(value) => enter_cells(trail, slots, visits, value),
        None => Ok(()),
    }
}

// Makes one visit. It tells whether no circle was found.
fn step<'a>(
    trail: &Trail<&'a [Cell]>,
    slots: &Slots,
    states: &mut States,
    visits: &mut Vec<Visit>,
    visit: Visit,
) -> Result<bool, AllocError>
    requires { IsSearching slots.now trail.now.pairs states.old.items
        (visit ∷ reverse visits.old.items) }
    ensures done { IfOk result (HasDone slots.now trail.now.pairs states.old.items states.new.items
        (visit ∷ reverse visits.old.items) (reverse visits.new.items)) }
    ensures no_more { OnOk result (AreNoMore slots.now trail.now.pairs states.old.items
        states.new.items (length visits.old.items + 1) (length visits.new.items)) }
    ensures full { OnErr result (VisitsLackRoom slots.now trail.now.pairs states.old.items
        (length visits.old.items + 1) (vec_capacity visits.old)) }
    ensures keeps { vec_capacity visits.old ≤ vec_capacity visits.new }
    ensures keeps_states { states.new.room ≡ states.old.room }
{
    match visit {
        Visit::Leave(slot) => {
            states.change(slot, State::Done);
            Ok(true)
        }
        Visit::Enter(slot) => match states.at(slot) {
            State::Done => Ok(true),
            State::Open => Ok(false),
            State::New => {
                states.change(slot, State::Open);
                visits.push(Visit::Leave(slot))?;
                enter_all(trail, slots, visits, slot)?;
                Ok(true)
            }
        },
    }
}

// Searches for a circle from the visits on. It tells whether there is none.
fn search<'a>(
    trail: &Trail<&'a [Cell]>,
    slots: &Slots,
    states: &mut States,
    visits: &mut Vec<Visit>,
) -> Result<bool, AllocError>
    requires { IsSearching slots.now trail.now.pairs states.old.items (reverse visits.old.items) }
    ensures searched { IfOk result (HasSearchedCircle slots.now trail.now.pairs states.old.items
        states.new.items (reverse visits.old.items)) }
    ensures full { OnErr result (VisitsLackRoom slots.now trail.now.pairs states.old.items
        (length visits.old.items) (vec_capacity visits.old)) }
    ensures keeps { vec_capacity visits.old ≤ vec_capacity visits.new }
    ensures keeps_states { states.new.room ≡ states.old.room }
{
    while let Some(visit) = visits.pop() {
        if !step(trail, slots, states, visits, visit)? {
            return Ok(false);
        }
    }
    Ok(true)
}

// Puts the slots of the bindings from the mark on among the visits.
fn enter_bound<'a>(
    trail: &Trail<&'a [Cell]>,
    mark: usize,
    visits: &mut Vec<Visit>,
) -> Result<(), AllocError>
    requires none { visits.old.items ≡ [] }
    requires within { mark ≤ length trail.now.pairs }
    ensures entered { OnOk result (AreEntries trail.now.pairs mark (length trail.now.pairs)
        (reverse visits.new.items)) }
    ensures few { OnOk result (length visits.new.items ≤ length trail.now.pairs) }
    ensures distinct { HasDistinctSlots trail.now.pairs }
    ensures full { OnErr result (vec_capacity visits.old < length trail.now.pairs) }
    ensures keeps { vec_capacity visits.old ≤ vec_capacity visits.new }
{
    for n in mark..trail.mark() {
        visits.push(Visit::Enter(trail.slot(n)))?;
    }
    Ok(())
}

// Whether no variable in the value of a slot is bound.
fn is_resolved<'a>(trail: &Trail<&'a [Cell]>, slots: &Slots, slot: usize) -> bool
    ensures { IsTrue result ↔ IsResolved slots.now trail.now.pairs slot }
{
    match trail.get(slot) {
        Some(value) => are_unbound(trail, slots, value),
        None => true,
    }
}

// Whether no variable in the values of the bindings from the mark on is bound.
fn are_resolved<'a>(trail: &Trail<&'a [Cell]>, slots: &Slots, mark: usize) -> bool
    ensures { IsTrue result ↔ AreResolved slots.now trail.now.pairs mark
        (length trail.now.pairs) }
{
    for n in mark..trail.mark() {
        if !is_resolved(trail, slots, trail.slot(n)) {
            return false;
        }
    }
    true
}

// Whether the list is triangular, where it was so up to the mark. No circle goes through a value
// whose variables are unbound, so most lists need no search.
pub(crate) fn is_triangular<'a>(
    states: &mut States,
    visits: &mut Vec<Visit>,
    trail: &Trail<&'a [Cell]>,
    slots: &Slots,
    mark: usize,
) -> Result<bool, AllocError>
    requires fresh { AreNew states.old.items }
    requires none { visits.old.items ≡ [] }
    requires bindings { AllByRecursion (IsBinding slots.now) trail.now.pairs }
    requires within { mark ≤ length trail.now.pairs }
    requires before { IsAcyclic slots.now (take mark trail.now.pairs) }
    ensures triangular { IfOk result (SaysTriangular slots.now trail.now.pairs) }
    ensures full { OnErr result ((n : ℕ) → AreNoLongerThan n trail.now.pairs
        → slot_count slots.now ≤ states.old.room
        → slot_count slots.now * (n + 2) ≤ vec_capacity visits.old → ⊥) }
    ensures keeps { vec_capacity visits.old ≤ vec_capacity visits.new }
    ensures keeps_states { states.old.room ≤ states.new.room }
{
    if are_resolved(trail, slots, mark) {
        return Ok(true);
    }
    states.make_room(slots.count())?;
    enter_bound(trail, mark, visits)?;
    search(trail, slots, states, visits)
}
