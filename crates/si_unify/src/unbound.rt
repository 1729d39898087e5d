// Cells that are no bound variable's.
ghost use Rattle.std.specs.Prelude.{◌↔◌, IsTrue};
ghost use Rattle.std.specs.List.{AllByRecursion};
ghost use Rattle.si_unify.specs.Spots.{CellIsUnbound};

use crate::slots::Slots;
use si_flat::Cell;
use si_trail::Trail;

/// Whether none of the cells is that of a bound variable.
pub fn are_unbound<'a>(trail: &Trail<&'a [Cell]>, slots: &Slots, cells: &[Cell]) -> bool
    ensures { IsTrue result
        ↔ AllByRecursion (CellIsUnbound slots.now trail.now.pairs) cells.now }
{
    cells.iter().all(|cell| is_unbound(trail, slots, *cell))
}

fn is_unbound<'a>(trail: &Trail<&'a [Cell]>, slots: &Slots, cell: Cell) -> bool
    ensures { IsTrue result ↔ CellIsUnbound slots.now trail.now.pairs cell }
{
    match slots.slot_of(cell) {
        Some(slot) => trail.get(slot).is_none(),
        None => true,
    }
}
