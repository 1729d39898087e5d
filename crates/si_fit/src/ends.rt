// Where chains of bound variables end.
ghost use Rattle.std.specs.Prelude.{◌≡◌, ◌∷◌, []};
ghost use Rattle.si_flat.specs.declared.Cell.TheVariants.{Ind};
ghost use Rattle.si_flat.specs.Cells.{IsWhole};
ghost use Rattle.si_unify.specs.Solving.{AreInRange, AllowsSolving};
ghost use Rattle.si_fit.specs.Ends.{HasFollowed};

use si_flat::Cell;
use si_trail::Trail;
use si_unify::Slots;

/// The term that stands at the end of the chain: while it is a bound variable, its value is next.
#[inline(always)]
pub fn end_of<'a>(trail: &Trail<&'a [Cell]>, slots: &Slots, start: &'a [Cell]) -> &'a [Cell]
    requires whole { IsWhole start.now }
    requires range { AreInRange slots.now start.now }
    requires solving { AllowsSolving slots.now trail.now.pairs trail.now.slots }
    ensures { HasFollowed slots.now trail.now.pairs start.now result.now }
{
    let mut reached = start;
    for _ in 0..trail.mark() {
        let Some(slot) = slots.slot_of(reached[0]) else {
            return reached;
        };
        match trail.get(slot) {
            Some(value) => reached = value,
            None => return reached,
        }
    }
    // Each binding was passed once, so none is left.
    reached
}

/// The same of an indicator with this number. Its slot is found without a look at its cell.
#[inline(always)]
pub(crate) fn end_of_indicator<'a>(
    trail: &Trail<&'a [Cell]>,
    slots: &Slots,
    number: u32,
    start: &'a [Cell],
) -> &'a [Cell]
    requires indicator { start.now ≡ Ind number ∷ [] }
    requires range { AreInRange slots.now start.now }
    requires solving { AllowsSolving slots.now trail.now.pairs trail.now.slots }
    ensures { HasFollowed slots.now trail.now.pairs start.now result.now }
{
    match trail.get(slots.indicator_slot(number)) {
        Some(value) => end_of(trail, slots, value),
        None => start,
    }
}
