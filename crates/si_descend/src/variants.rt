// Whether the variables of an entry are renamed.
ghost use Rattle.std.specs.Prelude.{◌≡◌, ◌+◌, ◌<◌, ◌≤◌, ◌↔◌, IsTrue, length};
ghost use Rattle.si_defs.specs.Substitutions.{Grows};
ghost use Rattle.si_trail.specs.Trails.{HasDistinctSlots};
ghost use Rattle.si_unify.specs.Solving.{AllowsSolving};
ghost use Rattle.si_descend.specs.Renaming.{AreTaken, FreezesQuery, HasBecome, IsNumberInRange, IsRenaming, IsRenamingFirst};

use crate::taken::Taken;
use si_fit::end_of;
use si_flat::Cell;
use si_trail::Trail;
use si_unify::Slots;

/// What became of the variable of a binding.
#[derive(Clone, Copy)]
pub(crate) enum Became {
    /// It is none of the entry's.
    NoEntry,
    /// It is the query's variable with this number.
    Variable(u32),
    /// It may be a term that is no variable.
    Term,
}

/// Whether the bound variables of the entry become variables of the query, no two the same. Of
/// those of the first so many bindings it is known, and what they became is bound in `taken`.
pub(crate) fn is_renaming(
    trail: &Trail<&[Cell]>,
    slots: &Slots,
    known: usize,
    taken: &mut Taken,
) -> bool
    requires frozen { FreezesQuery slots.now }
    requires solving { AllowsSolving slots.now trail.now.pairs trail.now.slots }
    requires within { known ≤ length trail.now.pairs }
    requires known { IsRenamingFirst slots.now trail.now.pairs known }
    requires taken { AreTaken slots.now trail.now.pairs known taken.old.pairs }
    requires room { slots.now.query ≤ taken.old.slots }
    ensures renaming { IsTrue result ↔ IsRenaming slots.now trail.now.pairs }
    ensures distinct { HasDistinctSlots trail.now.pairs }
    ensures taken { IsTrue result
        → AreTaken slots.now trail.now.pairs (length trail.now.pairs) taken.new.pairs }
    ensures grows { Grows taken.old.pairs taken.new.pairs }
    ensures slots { taken.new.slots ≡ taken.old.slots }
{
    for n in known..trail.mark() {
        if !is_renamed_apart(trail, slots, n, taken) {
            return false;
        }
    }
    true
}

// Whether that still holds with one binding more. What its variable became is then taken too.
fn is_renamed_apart(trail: &Trail<&[Cell]>, slots: &Slots, n: usize, taken: &mut Taken) -> bool
    requires distinct { HasDistinctSlots trail.now.pairs }
    requires frozen { FreezesQuery slots.now }
    requires solving { AllowsSolving slots.now trail.now.pairs trail.now.slots }
    requires within { n < length trail.now.pairs }
    requires known { IsRenamingFirst slots.now trail.now.pairs n }
    requires taken { AreTaken slots.now trail.now.pairs n taken.old.pairs }
    requires room { slots.now.query ≤ taken.old.slots }
    ensures renaming { IsTrue result ↔ IsRenamingFirst slots.now trail.now.pairs (n + 1) }
    ensures taken { IsTrue result
        → AreTaken slots.now trail.now.pairs (n + 1) taken.new.pairs }
    ensures grows { Grows taken.old.pairs taken.new.pairs }
    ensures slots { taken.new.slots ≡ taken.old.slots }
{
    match outcome(trail, slots, n) {
        Became::NoEntry => true,
        Became::Variable(number) => taken.take(number),
        Became::Term => false,
    }
}

// What became of the variable of the binding with this number.
fn outcome(trail: &Trail<&[Cell]>, slots: &Slots, n: usize) -> Became
    requires distinct { HasDistinctSlots trail.now.pairs }
    requires frozen { FreezesQuery slots.now }
    requires solving { AllowsSolving slots.now trail.now.pairs trail.now.slots }
    requires within { n < length trail.now.pairs }
    ensures became { HasBecome slots.now trail.now.pairs n result }
    ensures range { IsNumberInRange slots.now result }
{
    let slot = trail.slot(n);
    if !slots.is_entry_slot(slot) {
        return Became::NoEntry;
    }
    let Some(value) = trail.get(slot) else {
        unreachable!()
    };
    let end = end_of(trail, slots, value);
    match end[0] {
        Cell::Query(number) => Became::Variable(number),
        Cell::App { .. } => Became::Term,
        Cell::Entry(_) => Became::Term,
        Cell::Ind(_) => Became::Term,
    }
}
