// Numbers for variables, from 0 in the order in which they are met.
ghost use Rattle.std.specs.Prelude.{◌≡◌, ◌<◌, ◌^◌, ◌==◌, [], ◌∷◌, IfOk, OnOk, length};
ghost use Rattle.indexmap.specs.IndexSet.{insert_key, insert_all};
ghost use Rattle.si_flat.specs.Flattening.{FindsPlace, IsIndex};
ghost use Rattle.si_entries.specs.Numbers.{same_number, entry_numbers, IsNumberedIn, numbered_anew};

use si_flat::{Cell, reach};
use std::alloc::{AllocError, Global};
use std::marker::Model;

/// The variables that were met, each once, in the order in which they came.
#[derive(Drop)]
pub(crate) struct MetVariables {
    met: Vec<u32>,
    // Where each variable stands among them. What is left from before is told by looking there
    // (Briggs and Torczon 1993).
    places: Vec<u32>,
}

impl Model for MetVariables {
    ghost use Rattle.std.specs.Prelude.{ℕ, List};
    ghost use Rattle.si_entries.specs.Numbers.{AreAt};

    ghost Value = { List ℕ };

    ghost view = { λ m. m.met.items };

    ghost invariant = { λ m. AreAt m.places.items 0 m.met.items };
}

impl MetVariables {
    /// None was met. It takes no memory yet.
    pub(crate) fn new(alloc: Global) -> MetVariables
        ensures { result ≡ [] }
    {
        MetVariables {
            met: Vec::new(alloc),
            places: Vec::new(alloc),
        }
    }

    /// Forgets all.
    fn clear(&mut self)
        ensures { self.new ≡ [] }
    {
        self.met.clear();
    }

    /// The number of a variable, which is met now if it wasn't before.
    fn number(&mut self, variable: u32) -> Result<u32, AllocError>
        requires { length self.old < 2 ^ 32 }
        ensures met { OnOk result (self.new ≡ insert_key same_number self.old variable) }
        ensures number { IfOk result (λ n. IsIndex same_number self.new variable n) }
    {
        if let Some(place) = self.place(variable) {
            return Ok(place);
        }
        let place = self.met.len() as u32;
        reach(&mut self.places, variable, 0)?;
        self.met.push(variable)?;
        self.places[variable as usize] = place;
        Ok(place)
    }

    /// The place of a variable among those that were met.
    fn place(&self, variable: u32) -> Option<u32>
        ensures { FindsPlace (λ other. variable == other) self.now result }
    {
        let place = *self.places.get(variable as usize)?;
        let other = *self.met.get(place as usize)?;
        if other == variable {
            return Some(place);
        }
        None
    }
}

/// The cell, with an entry's variable by its number among those that were met.
fn renumber(met: &mut MetVariables, cell: Cell) -> Result<Cell, AllocError>
    requires { length met.old < 2 ^ 32 }
    ensures met { OnOk result (met.new
        ≡ insert_all same_number met.old (entry_numbers (cell ∷ []))) }
    ensures cell { IfOk result (λ c. IsNumberedIn met.new cell c) }
{
    match cell {
        Cell::Entry(variable) => Ok(Cell::Entry(met.number(variable)?)),
        Cell::App { .. } => Ok(cell),
        Cell::Query(_) => Ok(cell),
        Cell::Ind(_) => Ok(cell),
    }
}

/// Writes a term's cells, with an entry's variables numbered anew by first occurrence, in place of
/// what was written.
pub(crate) fn write_anew(
    term: &[Cell],
    met: &mut MetVariables,
    cells: &mut Vec<Cell>,
) -> Result<(), AllocError>
    requires { length term.now < 2 ^ 32 }
    ensures { OnOk result (cells.new.items ≡ numbered_anew term.now) }
{
    met.clear();
    cells.clear();
    for &cell in term {
        let cell = renumber(met, cell)?;
        cells.push(cell)?;
    }
    Ok(())
}
