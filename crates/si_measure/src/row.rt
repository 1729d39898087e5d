// Terms, put together from their arguments.
ghost use Rattle.std.specs.Prelude.{◌≡◌, ◌++◌, [], IfOk, OnOk};
ghost use Rattle.si_defs.specs.Terms as terms;
ghost use Rattle.si_flat.specs.Cells.{cells_of};
ghost use Rattle.si_measure.specs.Rows.{with_argument, under_symbol};
ghost use Rattle.si_measure.specs.Systems.{variable as variable_term};

use si_flat::{Cell, Flat, Owner};
use std::alloc::{AllocError, Global};
use std::marker::Model;

/// The number of the symbol f, which has two arguments.
const PAIR: u32 = 1;

/// Arguments, one after the other.
#[derive(Drop)]
pub(crate) struct Row {
    alloc: Global,
    cells: Vec<Cell>,
    count: u32,
}

impl Model for Row {
    ghost use Rattle.si_measure.specs.Rows.{Arguments, AreArguments};

    ghost Value = { Arguments };

    ghost view = { λ r. record { cells = r.cells.items; count = r.count } };

    ghost invariant = { λ r. AreArguments r.cells.items r.count };
}

impl Row {
    /// No arguments.
    pub(crate) fn new(alloc: Global) -> Row
        ensures { result ≡ record { cells = []; count = 0 } }
    {
        Row {
            alloc,
            cells: Vec::new(alloc),
            count: 0,
        }
    }

    /// Puts one argument after the others. More of them than have a number are answered like want
    /// of memory.
    pub(crate) fn add(&mut self, term: &Flat) -> Result<(), AllocError>
        ensures { OnOk result (self.new ≡ with_argument self.old term.now) }
    {
        let Some(count) = self.count.checked_add(1) else {
            return Err(AllocError);
        };
        self.cells.extend_from_slice(term.cells())?;
        self.count = count;
        Ok(())
    }

    /// The term of the symbol with this number and these arguments. More cells than have a number
    /// are answered like want of memory.
    pub(crate) fn under(self, sym: u32) -> Result<Flat, AllocError>
        ensures { IfOk result (λ f. f ≡ under_symbol sym self) }
    {
        let Ok(len) = u32::try_from(1 + self.cells.len()) else {
            return Err(AllocError);
        };
        let arity = self.count;
        let mut cells = Vec::new(self.alloc);
        cells.push(Cell::App { sym, arity, len })?;
        cells.extend_from_slice(&self.cells)?;
        Flat::from_cells(self.alloc, &cells)
    }
}

/// The term f(t,u).
pub(crate) fn pair(alloc: Global, t: &Flat, u: &Flat) -> Result<Flat, AllocError>
    ensures { IfOk result (λ f. f ≡ under_symbol PAIR
        (record { cells = t.now ++ u.now; count = 2 })) }
{
    let mut row = Row::new(alloc);
    row.add(t)?;
    row.add(u)?;
    row.under(PAIR)
}

/// A variable.
pub(crate) fn variable(alloc: Global, owner: Owner, number: u32) -> Result<Flat, AllocError>
    ensures { IfOk result (λ f. f ≡ cells_of (variable_term owner number)) }
{
    match owner {
        Owner::Query => Flat::from_cells(alloc, &[Cell::Query(number)]),
        Owner::Entry => Flat::from_cells(alloc, &[Cell::Entry(number)]),
    }
}
