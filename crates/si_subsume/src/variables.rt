// The variables of the two terms.
ghost use Rattle.std.specs.Prelude.{◌≡◌, ◌≤◌, true, false};
ghost use Rattle.si_flat.specs.declared.Owner.TheVariants.{Query, Entry};
ghost use Rattle.si_unify.specs.Solving.{AreInRange};
ghost use Rattle.si_subsume.specs.Maps.{IsCellOf, AreOf, IsNumberedBelow, AreNumberedBelow};

use si_flat::{Cell, Owner};
use si_unify::Slots;

// A limit above the number of the cell's variable, too.
fn raised(limit: u32, cell: Cell, owner: Owner) -> u32
    requires { IsCellOf owner cell }
    ensures no_lower { limit ≤ result }
    ensures above { IsNumberedBelow owner result cell }
{
    let number = match cell {
        Cell::App { .. } => return limit,
        Cell::Ind(_) => return limit,
        Cell::Query(number) => number,
        Cell::Entry(number) => number,
    };
    if number < limit { limit } else { number + 1 }
}

// A limit above the numbers of all variables of a term.
fn limit(owner: Owner, cells: &[Cell]) -> u32
    requires { AreOf owner cells.now }
    ensures { AreNumberedBelow owner result cells.now }
{
    let mut limit = 0;
    for i in 0..cells.len() {
        limit = raised(limit, cells[i], owner);
    }
    limit
}

/// The slots of the variables of two terms. Those of the second are constants.
pub(crate) fn slots_of(c: &[Cell], d: &[Cell]) -> Slots
    requires c { AreOf Query c.now }
    requires d { AreOf Entry d.now }
    ensures free { result.freeze_query ≡ false }
    ensures frozen { result.freeze_entry ≡ true }
    ensures c { AreInRange result c.now }
    ensures d { AreInRange result d.now }
{
    Slots {
        query: limit(Owner::Query, c),
        entry: limit(Owner::Entry, d),
        inds: 0,
        freeze_query: false,
        freeze_entry: true,
    }
}
