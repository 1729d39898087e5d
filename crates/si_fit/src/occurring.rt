// Whether a variable occurs in a term once the bindings are put in.
ghost use Rattle.std.specs.Prelude.{◌↔◌, ◌≤◌, IsTrue};
ghost use Rattle.std.specs.List.{AllByRecursion};
ghost use Rattle.si_flat.specs.Cells.{IsWhole};
ghost use Rattle.si_unify.specs.Solving.{AreInRange, CellIsInRange, IsBinding};
ghost use Rattle.si_fit.specs.Meeting.{first_cell_of, IsOpenSlot};
ghost use Rattle.si_fit.specs.Occurring.{IsFreeFor, HasSearched, HasSearchedCell};

use si_flat::Cell;
use si_trail::Trail;
use si_unify::Slots;

/// What the search for a variable in a term found.
#[derive(Clone, Copy)]
pub(crate) enum Occurrence {
    /// It occurs neither in the term nor in what the term's variables lead to.
    Absent,
    /// It occurs there.
    Present,
    /// It wasn't found out.
    Unknown,
}

// Looks for the variable of a slot in a cell, and in what the cell's value leads to.
#[cycle(occurring)]
fn search_cell(
    trail: &Trail<&[Cell]>,
    slots: &Slots,
    slot: usize,
    cell: Cell,
    budget: &mut u32,
) -> Occurrence
    requires range { CellIsInRange slots.now cell }
    requires bindings { AllByRecursion (IsBinding slots.now) trail.now.pairs }
    ensures found { HasSearchedCell slots.now trail.now.pairs slot cell result }
    ensures fewer { budget.new ≤ budget.old }
{
    let Some(other) = slots.slot_of(cell) else {
        return Occurrence::Absent;
    };
    if other == slot {
        return Occurrence::Present;
    }
    let Some(value) = trail.get(other) else {
        return Occurrence::Absent;
    };
    if *budget == 0 {
        return Occurrence::Unknown;
    }
    *budget -= 1;
    search_deep(trail, slots, slot, value, budget)
}

// Looks for the variable of a slot in a term, and in what the term's variables lead to.
#[cycle(occurring)]
#[inline(never)]
fn search_deep(
    trail: &Trail<&[Cell]>,
    slots: &Slots,
    slot: usize,
    cells: &[Cell],
    budget: &mut u32,
) -> Occurrence
    requires range { AreInRange slots.now cells.now }
    requires bindings { AllByRecursion (IsBinding slots.now) trail.now.pairs }
    ensures found { HasSearched slots.now trail.now.pairs slot cells.now result }
    ensures fewer { budget.new ≤ budget.old }
{
    for &cell in cells {
        match search_cell(trail, slots, slot, cell, budget) {
            Occurrence::Absent => {}
            Occurrence::Present => return Occurrence::Present,
            Occurrence::Unknown => return Occurrence::Unknown,
        }
    }
    Occurrence::Absent
}

#[inline(always)]
fn is_free_cell(trail: &Trail<&[Cell]>, slots: &Slots, slot: usize, cell: Cell) -> bool
    ensures { IsTrue result ↔ IsFreeFor slots.now trail.now.pairs slot cell }
{
    match slots.free_slot(cell) {
        Some(other) => other != slot && trail.get(other).is_none(),
        None => true,
    }
}

// Whether no variable of a term is bound or has this slot.
#[inline(always)]
fn is_free(trail: &Trail<&[Cell]>, slots: &Slots, slot: usize, cells: &[Cell]) -> bool
    ensures { IsTrue result ↔ AllByRecursion (IsFreeFor slots.now trail.now.pairs slot) cells.now }
{
    cells
        .iter()
        .all(|cell| is_free_cell(trail, slots, slot, *cell))
}

/// Looks for the variable of a slot in a term, and in what the term's variables lead to. Where it
/// is absent, no circle goes through the term once the slot is bound to it.
///
/// The first cell was looked at before. Each bound variable that is followed is taken from the
/// budget. Where that is used up, it isn't found out.
#[inline(always)]
pub(crate) fn search(
    trail: &Trail<&[Cell]>,
    slots: &Slots,
    slot: usize,
    cells: &[Cell],
    budget: &mut u32,
) -> Occurrence
    requires slot { IsOpenSlot slots.now slot }
    requires whole { IsWhole cells.now }
    requires first { IsFreeFor slots.now trail.now.pairs slot (first_cell_of cells.now) }
    requires range { AreInRange slots.now cells.now }
    requires bindings { AllByRecursion (IsBinding slots.now) trail.now.pairs }
    ensures found { HasSearched slots.now trail.now.pairs slot cells.now result }
    ensures fewer { budget.new ≤ budget.old }
{
    // Most terms have no bound variable.
    if is_free(trail, slots, slot, &cells[1..]) {
        return Occurrence::Absent;
    }
    search_deep(trail, slots, slot, cells, budget)
}
