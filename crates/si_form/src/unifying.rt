// The canonical list of two terms that can be unified.
ghost use Rattle.std.specs.Prelude.{◌≡◌, ◌<◌, false, length, max, IfOk, IfSome};
ghost use Rattle.std.specs.List.{AllByRecursion};
ghost use Rattle.si_defs.specs.declared.Relation.TheVariants.{Unifiable};
ghost use Rattle.si_flat.specs.Cells.{IsWhole};
ghost use Rattle.si_trail.specs.Trails.{HasDistinctSlots};
ghost use Rattle.si_unify.specs.Solving.{slot_count, IsAcyclic, IsBinding};
ghost use Rattle.si_form.specs.Answers.{Answers};
ghost use Rattle.si_form.specs.Ordering.{list_of};
ghost use Rattle.si_form.specs.SolutionParts.{AreNoLonger};
ghost use Rattle.si_form.specs.Unifying.{IsBoundTo, AreFound, HasGeneral, HasRightSide, HaveRightSides, AreUses, slots_among, AreListed, ListsBindings, ListsAllBindings, AreFree, AreSlotsOf};

use crate::classes::find_classes;
use crate::direct::{binding, direct_list};
use crate::folding::Folding;
use crate::order::order;
use crate::solution::Solution;
use crate::uses::slots_of;
use crate::variables::size;
use si_flat::{Cell, Flat};
use si_trail::Trail;
use si_unify::{Scratch, Slots, solve_with};
use std::alloc::{AllocError, Global};

// The number of cells of the application that a variable is bound to, at once or through others.
fn application_size<'a>(slots: &Slots, trail: &Trail<&'a [Cell]>, slot: usize) -> Option<u32>
    requires bindings { AllByRecursion (IsBinding slots.now) trail.now.pairs }
    requires triangular { IsAcyclic slots.now trail.now.pairs }
    requires inside { slot < slot_count slots.now }
    ensures { IsBoundTo slots.now trail.now.pairs slot result }
{
    let mut at = slot;
    for _ in 0..trail.mark() {
        let Some(value) = trail.get(at) else {
            return None;
        };
        let Some(next) = slots.slot_of(value[0]) else {
            return Some(size(value));
        };
        at = next;
    }
    None
}

// What the variable of a slot is bound to in the canonical list: its leader, or if it leads itself
// the folded term of its class. A leader whose class has no application isn't bound.
fn right_side<'a>(
    alloc: Global,
    slots: &Slots,
    trail: &Trail<&'a [Cell]>,
    folding: &Folding,
    slot: usize,
) -> Result<Option<Vec<Cell>>, AllocError>
    requires none { slots.now.inds ≡ 0 }
    requires bindings { AllByRecursion (IsBinding slots.now) trail.now.pairs }
    requires triangular { IsAcyclic slots.now trail.now.pairs }
    requires found { AreFound slots.now trail.now.pairs folding.now }
    requires inside { slot < slot_count slots.now }
    ensures { IfOk result (λ right. HasRightSide slots.now trail.now.pairs slot (list_of right)) }
{
    let class = folding.class_at(slot);
    let Some(leader) = folding.leader_of(class) else {
        unreachable!()
    };
    if leader != slot {
        let cells = Vec::from_slice(alloc, &[slots.cell_of(leader)])?;
        return Ok(Some(cells));
    }
    let Some(_) = application_size(slots, trail, slot) else {
        return Ok(None);
    };
    let cells = folding.fold(alloc, slots, class)?;
    Ok(Some(cells))
}

// The right sides of all slots; nothing where a variable isn't bound.
fn right_sides<'a>(
    alloc: Global,
    slots: &Slots,
    trail: &Trail<&'a [Cell]>,
) -> Result<Vec<Option<Vec<Cell>>>, AllocError>
    requires free { AreFree slots.now }
    requires room { trail.now.slots ≡ slot_count slots.now }
    requires bindings { AllByRecursion (IsBinding slots.now) trail.now.pairs }
    requires triangular { IsAcyclic slots.now trail.now.pairs }
    ensures distinct { HasDistinctSlots trail.now.pairs }
    ensures long { IfOk result (λ rights. length rights.items ≡ slot_count slots.now) }
    ensures rights { IfOk result
        (λ rights. HaveRightSides slots.now trail.now.pairs rights.items) }
{
    let count = trail.slots();
    let classes = find_classes(alloc, slots, trail)?;
    let folding = Folding::of(alloc, classes)?;
    let mut rights = Vec::new(alloc);
    for slot in 0..count {
        let right = right_side(alloc, slots, trail, &folding, slot)?;
        rights.push(right)?;
    }
    Ok(rights)
}

// The slots of the variables in a right side.
fn used_in(
    alloc: Global,
    slots: &Slots,
    right: &Option<Vec<Cell>>,
) -> Result<Option<Vec<usize>>, AllocError>
    ensures { IfOk result (λ used. list_of used ≡ slots_among slots.now (list_of right.now)) }
{
    let Some(cells) = right else {
        return Ok(None);
    };
    let used = slots_of(alloc, slots, cells)?;
    Ok(Some(used))
}

// For each slot those of the variables in its right side.
fn uses_of_sides(
    alloc: Global,
    slots: &Slots,
    rights: &[Option<Vec<Cell>>],
) -> Result<Vec<Option<Vec<usize>>>, AllocError>
    ensures long { IfOk result (λ lists. length lists.items ≡ length rights.now) }
    ensures uses { IfOk result (λ lists. AreUses slots.now rights.now lists.items) }
{
    let mut lists = Vec::new(alloc);
    for slot in 0..rights.len() {
        let used = used_in(alloc, slots, &rights[slot])?;
        lists.push(used)?;
    }
    Ok(lists)
}

// The bindings of these slots, in order.
fn list(
    alloc: Global,
    slots: &Slots,
    rights: &[Option<Vec<Cell>>],
    order: &[usize],
) -> Result<Solution, AllocError>
    requires none { slots.now.inds ≡ 0 }
    requires long { length rights.now ≡ slot_count slots.now }
    requires listed { AreListed slots.now rights.now order.now }
    ensures { IfOk result (ListsBindings slots.now rights.now order.now) }
{
    let mut solution = Solution::new(alloc);
    for &slot in order {
        let Some(cells) = &rights[slot] else {
            unreachable!()
        };
        let value = Flat::from_cells(alloc, cells)?;
        solution.push(binding(*slots, slot, value))?;
    }
    Ok(solution)
}

// The canonical list of the bindings that make two terms equal.
fn whole_list<'a>(
    alloc: Global,
    slots: &Slots,
    trail: &Trail<&'a [Cell]>,
) -> Result<Solution, AllocError>
    requires free { AreFree slots.now }
    requires room { trail.now.slots ≡ slot_count slots.now }
    requires bindings { AllByRecursion (IsBinding slots.now) trail.now.pairs }
    requires triangular { IsAcyclic slots.now trail.now.pairs }
    ensures distinct { HasDistinctSlots trail.now.pairs }
    ensures all { IfOk result (ListsAllBindings slots.now trail.now.pairs) }
{
    if let Some(solution) = direct_list(alloc, slots, trail)? {
        return Ok(solution);
    }
    let rights = right_sides(alloc, slots, trail)?;
    let lists = uses_of_sides(alloc, slots, &rights)?;
    let order = order(alloc, &lists)?;
    list(alloc, slots, &rights, &order)
}

// The canonical list that makes the query and the entry equal; `None` where nothing does. It solves
// in memory that is lent.
pub(crate) fn unifier(
    scratch: &mut Scratch,
    alloc: Global,
    slots: &Slots,
    query: &[Cell],
    entry: &[Cell],
) -> Result<Option<Solution>, AllocError>
    requires whole_query { IsWhole query.now }
    requires whole_entry { IsWhole entry.now }
    requires slots { AreSlotsOf query.now entry.now slots.now }
    ensures answers { IfOk result (Answers Unifiable query.now entry.now) }
    ensures short { IfOk result (λ list. IfSome list (AreNoLonger (max (length query.now)
        (length entry.now)))) }
{
    let mut trail = Trail::with_slots(alloc, slots.count())?;
    if !solve_with(scratch, &mut trail, slots, query, entry)? {
        return Ok(None);
    }
    let solution = whole_list(alloc, slots, &trail)?;
    Ok(Some(solution))
}
