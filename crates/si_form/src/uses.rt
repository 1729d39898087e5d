// Which slots the values of bindings use.
ghost use Rattle.std.specs.Prelude.{◌≡◌, ℕ, length, IfOk, OnOk};
ghost use Rattle.si_unify.specs.Solving.{slot_count};
ghost use Rattle.si_form.specs.Classes.{slots_of};
ghost use Rattle.si_form.specs.Ordering.{list_of};
ghost use Rattle.si_form.specs.Uses.{used_by, UsesBelow};

use si_flat::Cell;
use si_trail::Trail;
use si_unify::Slots;
use std::alloc::{AllocError, Global};

/// The slots of the variables among the cells, in order.
pub(crate) fn slots_of(
    alloc: Global,
    slots: &Slots,
    cells: &[Cell],
) -> Result<Vec<usize>, AllocError>
    ensures { IfOk result (λ used. used.items ≡ slots_of slots.now cells.now) }
{
    let mut used = Vec::new(alloc);
    for &cell in cells {
        let Some(slot) = slots.slot_of(cell) else {
            continue;
        };
        used.push(slot)?;
    }
    Ok(used)
}

// The slots that the value of a slot uses.
fn uses_of<'a>(
    alloc: Global,
    slots: &Slots,
    trail: &Trail<&'a [Cell]>,
    slot: usize,
) -> Result<Option<Vec<usize>>, AllocError>
    ensures { IfOk result (λ used. list_of used ≡ used_by slots.now trail.now.pairs slot) }
{
    let Some(value) = trail.get(slot) else {
        return Ok(None);
    };
    let used = slots_of(alloc, slots, value)?;
    Ok(Some(used))
}

/// For each slot the slots that its value uses; nothing where it isn't bound.
pub(crate) fn uses<'a>(
    alloc: Global,
    slots: &Slots,
    trail: &Trail<&'a [Cell]>,
) -> Result<Vec<Option<Vec<usize>>>, AllocError>
    ensures long { IfOk result (λ lists. length lists.items ≡ slot_count slots.now) }
    ensures lists { IfOk result (λ lists. UsesBelow slots.now trail.now.pairs lists.items) }
{
    let mut lists = Vec::new(alloc);
    for slot in 0..slots.count() {
        let used = uses_of(alloc, slots, trail, slot)?;
        lists.push(used)?;
    }
    Ok(lists)
}
