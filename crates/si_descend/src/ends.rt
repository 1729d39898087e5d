// Where the indicators that are open at a node end, and whether they can be anything there.
ghost use Rattle.std.specs.Prelude.{◌≡◌, ◌↔◌, ◌<◌, [], ◌∷◌, ◌++◌, IfSome, IsFalse, IsTrue, false, length, List, ℕ};
ghost use Rattle.std.specs.List.{AllByRecursion};
ghost use Rattle.si_defs.specs.Substitutions.{IsAmong};
ghost use Rattle.si_trail.specs.Trails.{HasDistinctSlots};
ghost use Rattle.si_flat.specs.declared.Cell.TheVariants.{Ind};
ghost use Rattle.si_flat.specs.Cells.{IsWhole};
ghost use Rattle.si_flat.specs.Rows.{left_sides};
ghost use Rattle.si_tree.specs.Reading.{IsNode};
ghost use Rattle.si_unify.specs.Solving.{AreInRange, AllowsSolving};
ghost use Rattle.si_unify.specs.Spots.{cell_slot};
ghost use Rattle.si_fit.specs.Fitting.{AreRowsInRange};
ghost use Rattle.si_descend.specs.Searching.{IsReady};
ghost use Rattle.si_descend.specs.Subtrees.{AddsEnds, AreAllOpen, AreClear, AreEndsOf, EndsFree, HasClearValue, IsClear};

use crate::search::Search;
use si_fit::end_of;
use si_flat::{Bindings, Cell};
use si_trail::Trail;
use si_tree::NodeId;
use si_unify::Slots;
use std::marker::Model;

// The most ends that are looked for, and the most nodes that are gone down for them.
const MOST: usize = 16;

/// The slots at which indicators end.
#[derive(Drop)]
pub(crate) struct Ends {
    count: usize,
    slots: [usize; MOST],
}

impl Model for Ends {
    ghost use Rattle.std.specs.Prelude.{◌≤◌, List, ℕ, take};
    ghost use Rattle.si_descend.specs.declared.ends.TheConstants.{MOST};

    ghost Value = { List ℕ };

    ghost view = { λ e. take e.count e.slots };

    ghost invariant = { λ e. e.count ≤ MOST };
}

impl Ends {
    /// No ends.
    pub(crate) fn new() -> Ends
        ensures { result ≡ [] }
    {
        Ends {
            count: 0,
            slots: [0; MOST],
        }
    }

    // Whether the slot is one of them.
    fn has(&self, slot: usize) -> bool
        ensures { IsTrue result ↔ IsAmong self.now slot }
    {
        self.slots[..self.count].contains(&slot)
    }

    // Adds a slot, where it is new and there is room.
    fn add(&mut self, slot: usize) -> bool
        ensures new { IsTrue result → IsAmong self.old slot → ⊥ }
        ensures added { IsTrue result → self.new ≡ self.old ++ slot ∷ [] }
        ensures same { IsFalse result → self.new ≡ self.old }
    {
        if self.count == MOST || self.has(slot) {
            return false;
        }
        self.slots[self.count] = slot;
        self.count += 1;
        true
    }
}

/// Finds the ends of the indicators that are open at a node, and tells whether all are different
/// variables that can still be anything; it gives up where they are many. It looks at the first
/// nodes down to a leaf, which bind all of them.
#[inline(always)]
pub(crate) fn find_ends_below<'a>(
    search: &Search<'a>,
    node: NodeId,
    trail: &Trail<&'a [Cell]>,
    ends: &mut Ends,
) -> bool
    requires node { IsNode search.now.tree.now node }
    requires ready { IsReady search.now }
    requires solving { AllowsSolving search.now.slots trail.now.pairs trail.now.slots }
    requires unfrozen { search.now.slots.freeze_query ≡ false }
    requires none { ends.old ≡ [] }
    ensures { IsTrue result → ((ns : List ℕ) × AreAllOpen search.now.tree.now node ns
        × AreEndsOf search.now.slots trail.now.pairs ns ends.new) }
{
    let mut at = node;
    for _ in 0..MOST {
        if search.tree.split(at).is_none() {
            return true;
        }
        // The root of an empty tree has a split and no child.
        let Some(child) = search.tree.children(at).first() else {
            return false;
        };
        at = *child;
        if !add_ends(trail, &search.slots, search.tree.bindings(at), ends) {
            return false;
        }
    }
    false
}

// Adds the ends of all left sides, where they can be anything.
fn add_ends<'a>(
    trail: &Trail<&'a [Cell]>,
    slots: &Slots,
    bindings: &'a Bindings,
    ends: &mut Ends,
) -> bool
    requires range { AreRowsInRange slots.now bindings.now }
    requires solving { AllowsSolving slots.now trail.now.pairs trail.now.slots }
    requires unfrozen { slots.now.freeze_query ≡ false }
    ensures { IsTrue result → AddsEnds slots.now trail.now.pairs (left_sides bindings.now) ends.old
        ends.new }
{
    for pair in bindings.pairs() {
        let Some(slot) = free_end(trail, slots, pair.left_cells()) else {
            return false;
        };
        if !ends.add(slot) {
            return false;
        }
    }
    true
}

// The slot of the variable at which an indicator ends, where that can be anything.
fn free_end<'a>(trail: &Trail<&'a [Cell]>, slots: &Slots, indicator: &'a [Cell]) -> Option<usize>
    requires whole { IsWhole indicator.now }
    requires range { AreInRange slots.now indicator.now }
    requires solving { AllowsSolving slots.now trail.now.pairs trail.now.slots }
    requires unfrozen { slots.now.freeze_query ≡ false }
    ensures { (n : ℕ) → indicator.now ≡ Ind n ∷ []
        → IfSome result (EndsFree slots.now trail.now.pairs n) }
{
    let end = end_of(trail, slots, indicator);
    match end[0] {
        Cell::Query(number) => Some(slots.query_slot(number)),
        Cell::Ind(number) => Some(slots.indicator_slot(number)),
        Cell::App { .. } => None,
        Cell::Entry(_) => None,
    }
}

/// Whether what the entry's variables are bound to holds no bound variable and none of the ends. So
/// no circle goes through an end, once it is bound to a term of such variables.
#[inline(always)]
pub(crate) fn are_clear(trail: &Trail<&[Cell]>, slots: &Slots, ends: &Ends) -> bool
    requires solving { AllowsSolving slots.now trail.now.pairs trail.now.slots }
    ensures clear { IsTrue result ↔ AreClear slots.now trail.now.pairs ends.now }
    ensures distinct { HasDistinctSlots trail.now.pairs }
{
    let count = trail.mark();
    if slots.freeze_entry {
        return true;
    }
    for n in 0..count {
        if !is_clear_at(trail, slots, ends, n) {
            return false;
        }
    }
    true
}

// Whether that is so of the binding with this number.
fn is_clear_at(trail: &Trail<&[Cell]>, slots: &Slots, ends: &Ends, n: usize) -> bool
    requires distinct { HasDistinctSlots trail.now.pairs }
    requires within { n < length trail.now.pairs }
    ensures { IsTrue result ↔ HasClearValue slots.now trail.now.pairs ends.now n }
{
    let slot = trail.slot(n);
    if !slots.is_entry_slot(slot) {
        return true;
    }
    let Some(value) = trail.get(slot) else {
        unreachable!()
    };
    are_clear_cells(trail, slots, ends, value)
}

// Whether each cell is a symbol's or an unbound variable's that is none of the ends.
fn are_clear_cells(trail: &Trail<&[Cell]>, slots: &Slots, ends: &Ends, cells: &[Cell]) -> bool
    ensures { IsTrue result ↔ AllByRecursion (λ c. IsClear trail.now.pairs ends.now
        (cell_slot slots.now c)) cells.now }
{
    cells.iter().all(|cell| is_clear(trail, slots, ends, *cell))
}

// Whether that is so of one cell.
fn is_clear(trail: &Trail<&[Cell]>, slots: &Slots, ends: &Ends, cell: Cell) -> bool
    ensures { IsTrue result ↔ IsClear trail.now.pairs ends.now (cell_slot slots.now cell) }
{
    match slots.slot_of(cell) {
        Some(slot) => trail.get(slot).is_none() && !ends.has(slot),
        None => true,
    }
}
