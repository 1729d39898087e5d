// A query whose variables are counted.
ghost use Rattle.std.specs.Prelude.{◌≡◌};
ghost use Rattle.si_flat.specs.Cells.{IsWhole};
ghost use Rattle.si_flat.specs.declared.Owner.TheVariants.{Query, Entry};
ghost use Rattle.si_form.specs.Answers.{AreNumbered};
ghost use Rattle.si_form.specs.Unifying.{AreSlotsOf};

use crate::variables::count_variables;
use si_flat::{Cell, Owner};
use si_unify::Slots;
use std::marker::Model;

/// The cells of a query with the number of its variables, counted once for all entries. Contracts
/// see the cells.
#[derive(Drop)]
pub struct CountedQuery<'q> {
    pub(crate) cells: &'q [Cell],
    pub(crate) variables: u32,
}

impl<'q> Model for CountedQuery<'q> {
    ghost use Rattle.std.specs.Prelude.{List};
    ghost use Rattle.si_flat.specs.declared.Cell.{Cell};
    ghost use Rattle.si_form.specs.Unifying.{IsCounted};

    ghost Value = { List Cell };

    ghost view = { λ q. q.cells.now };

    ghost invariant = { λ q. IsCounted q.cells.now q.variables };
}

impl<'q> CountedQuery<'q> {
    /// Counts the variables.
    pub fn new(cells: &'q [Cell]) -> CountedQuery<'q>
        requires whole { IsWhole cells.now }
        requires numbered { AreNumbered Query cells.now }
        ensures { result ≡ cells.now }
    {
        CountedQuery {
            cells,
            variables: count_variables(Owner::Query, cells),
        }
    }

    // The slots of its variables and of an entry's, all of which may be bound.
    pub(crate) fn slots_with(&self, entry: &[Cell]) -> Slots
        requires whole { IsWhole entry.now }
        requires numbered { AreNumbered Entry entry.now }
        ensures { AreSlotsOf self.now entry.now result }
    {
        Slots {
            query: self.variables,
            entry: count_variables(Owner::Entry, entry),
            inds: 0,
            freeze_query: false,
            freeze_entry: false,
        }
    }
}
