// Two terms that are solved so many times.
ghost use Rattle.std.specs.Prelude.{◌≡◌, ◌≤◌, [], IfOk};
ghost use Rattle.si_flat.specs.Cells.{IsWhole};
ghost use Rattle.si_unify.specs.Solving.{AreInRange, slot_count};
ghost use Rattle.si_measure.specs.Answers.{SolvesCells, Tells};

use si_flat::{Cell, Flat};
use si_trail::Trail;
use si_unify::{Scratch, Slots, solve_with};
use std::alloc::{AllocError, Global};

/// What was solved, and the answer.
#[derive(Clone, Copy)]
pub(crate) struct Measured {
    /// The number of cells of the one term.
    pub(crate) left: usize,
    /// The number of cells of the other.
    pub(crate) right: usize,
    /// The number of bindings that make them equal. `None` where nothing does, and where a variable
    /// has no slot.
    pub(crate) bindings: Option<usize>,
}

/// Solves two terms so many times, and at least once, each time over no bindings and in the same
/// memory. Query and entry have so many variables each.
pub(crate) fn solve_often(
    alloc: Global,
    variables: u32,
    left: &Flat,
    right: &Flat,
    times: u32,
) -> Result<Measured, AllocError>
    ensures { IfOk result (SolvesCells variables left.now right.now) }
{
    let left = left.cells();
    let right = right.cells();
    let unsolved = Measured {
        left: left.len(),
        right: right.len(),
        bindings: None,
    };
    let slots = Slots {
        query: variables,
        entry: variables,
        inds: 0,
        freeze_query: false,
        freeze_entry: false,
    };
    if !slots.are_in_range(left) {
        return Ok(unsolved);
    }
    if !slots.are_in_range(right) {
        return Ok(unsolved);
    }
    Ok(Measured {
        bindings: bindings_of(alloc, &slots, left, right, times)?,
        ..unsolved
    })
}

/// The number of bindings that make two terms equal, whose variables have slots.
fn bindings_of(
    alloc: Global,
    slots: &Slots,
    left: &[Cell],
    right: &[Cell],
    times: u32,
) -> Result<Option<usize>, AllocError>
    requires left { IsWhole left.now }
    requires right { IsWhole right.now }
    requires left_range { AreInRange slots.now left.now }
    requires right_range { AreInRange slots.now right.now }
    ensures { IfOk result (Tells slots.now left.now right.now) }
{
    let mut trail = Trail::with_slots(alloc, slots.count())?;
    let mut scratch = Scratch::new(alloc);
    solve_over(&mut scratch, &mut trail, slots, left, right, times)
}

/// The same over no bindings, in memory that is lent.
fn solve_over<'a>(
    scratch: &mut Scratch,
    trail: &mut Trail<&'a [Cell]>,
    slots: &Slots,
    left: &'a [Cell],
    right: &'a [Cell],
    times: u32,
) -> Result<Option<usize>, AllocError>
    requires left { IsWhole left.now }
    requires right { IsWhole right.now }
    requires left_range { AreInRange slots.now left.now }
    requires right_range { AreInRange slots.now right.now }
    requires room { slot_count slots.now ≤ trail.old.slots }
    requires unbound { trail.old.pairs ≡ [] }
    ensures { IfOk result (Tells slots.now left.now right.now) }
{
    for _ in 1..times {
        if !solve_with(scratch, trail, slots, left, right)? {
            return Ok(None);
        }
        trail.undo(0);
    }
    if !solve_with(scratch, trail, slots, left, right)? {
        return Ok(None);
    }
    Ok(Some(trail.mark()))
}
