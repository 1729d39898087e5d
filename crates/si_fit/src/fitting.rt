// Bindings that are made to fit those of a trail.
ghost use Rattle.std.specs.Prelude.{◌≡◌, ℕ, ◌≤◌, ◌++◌, ◌∷◌, [], length, IfOk, OnErr};
ghost use Rattle.si_flat.specs.declared.Cell.TheVariants.{Ind};
ghost use Rattle.std.specs.List.{AllByRecursion};
ghost use Rattle.si_defs.specs.Substitutions.{Grows};
ghost use Rattle.si_unify.specs.Rooms.{AreNoLongerThan, IsEnoughToSolve, IsNoLessRoom};
ghost use Rattle.si_unify.specs.Solving.{HasSolved, AllowsSolving};
ghost use Rattle.si_fit.specs.Fitting.{AreRowsInRange, AreRowsNoLongerThan, AreWalkable, HasFitted, HasSolution, StaysSolvable, StayWithin};
ghost use Rattle.si_fit.specs.Fresh.{StandOnce, IsUntold, AreFresh};

use crate::ends::end_of_indicator;
use crate::filling::fill_any;
use crate::meeting::Met;
use si_flat::{Bindings, Cell};
use si_trail::Trail;
use si_unify::{Scratch, Slots, solve_with};
use std::alloc::AllocError;

// So many bound variables are followed before the solver is asked.
const MOST_FOLLOWED: u32 = 64;

// Makes an indicator equal to a term over the bindings that are there: by a walk over both, and by
// the solver where the walk doesn't tell.
fn fit_pair<'a>(
    scratch: &mut Scratch,
    trail: &mut Trail<&'a [Cell]>,
    slots: &Slots,
    number: u32,
    left: &'a [Cell],
    right: &'a [Cell],
) -> Result<bool, AllocError>
    requires indicator { left.now ≡ Ind number ∷ [] }
    requires terms { AreWalkable slots.now trail.old left.now right.now }
    requires solution { HasSolution slots.now trail.old.pairs }
    requires once { StandOnce (left.now ++ right.now) }
    requires untold { AllByRecursion (IsUntold slots.now trail.old.pairs) right.now }
    ensures solved { IfOk result (HasSolved slots.now trail.old.pairs trail.new.pairs left.now
        right.now) }
    ensures trail { StaysSolvable slots.now trail.old trail.new }
    ensures full { OnErr result ((n : ℕ) → AreNoLongerThan n trail.old.pairs
        → length left.now ≤ n → length right.now ≤ n → IsEnoughToSolve slots.now n scratch.old
        → ⊥) }
    ensures keeps { IsNoLessRoom scratch.old scratch.new }
    ensures within { StayWithin trail.old.pairs trail.new.pairs left.now right.now }
{
    let mark = trail.mark();
    let end = end_of_indicator(trail, slots, number, left);
    let mut budget = MOST_FOLLOWED;
    match fill_any(trail, slots, end, right, &mut budget) {
        Met::Equal => {
            // So no slot of the trail is known to be bound twice.
            trail.mark();
            Ok(true)
        }
        Met::Clash => Ok(false),
        Met::Unknown => {
            trail.undo(mark);
            solve_with(scratch, trail, slots, left, right)
        }
    }
}

/// Makes each left side equal to its right side, over the bindings that are there.
///
/// It tells whether that can be done. Where it can't, and where memory runs out, some may have been
/// bound.
///
/// # Errors
///
/// `AllocError` where there is no memory, but never where the scratch has room enough for all terms
/// and bindings as long as these.
pub fn fit<'a>(
    scratch: &mut Scratch,
    trail: &mut Trail<&'a [Cell]>,
    slots: &Slots,
    bindings: &'a Bindings,
) -> Result<bool, AllocError>
    requires range { AreRowsInRange slots.now bindings.now }
    requires solution { HasSolution slots.now trail.old.pairs }
    requires ready { AllowsSolving slots.now trail.old.pairs trail.old.slots }
    requires fresh { AreFresh slots.now trail.old.pairs bindings.now }
    ensures fits { IfOk result (HasFitted slots.now trail.old.pairs trail.new.pairs bindings.now) }
    ensures grows { Grows trail.old.pairs trail.new.pairs }
    ensures ready { AllowsSolving slots.now trail.new.pairs trail.new.slots }
    ensures slots { trail.new.slots ≡ trail.old.slots }
    ensures full { OnErr result ((n : ℕ) → AreNoLongerThan n trail.old.pairs
        → AreRowsNoLongerThan n bindings.now → IsEnoughToSolve slots.now n scratch.old → ⊥) }
    ensures keeps { IsNoLessRoom scratch.old scratch.new }
    ensures within { (n : ℕ) → AreNoLongerThan n trail.old.pairs
        → AreRowsNoLongerThan n bindings.now → AreNoLongerThan n trail.new.pairs }
{
    for pair in bindings.pairs() {
        let number = pair.left();
        let left = pair.left_cells();
        let right = pair.right();
        if !fit_pair(scratch, trail, slots, number, left, right)? {
            return Ok(false);
        }
    }
    Ok(true)
}
