// New numbers for the indicators of bindings.
ghost use Rattle.std.specs.Prelude.{◌≡◌, ◌<◌, ◌+◌, ◌^◌, [], ◌∷◌, IfOk, OnOk, length, set};
ghost use Rattle.si_defs.specs.Substitutions.{AreDistinct};
ghost use Rattle.si_flat.specs.Rows.{AreWhole, left_sides};
ghost use Rattle.si_tree.specs.Numbers.{AreBelow, indicators_in, rights_in, noted, noted_number, renumbered_cell, renumbered_cells, renumbered_pairs};

use si_flat::{Bindings, Cell};
use std::alloc::{AllocError, Global};

// Notes the new number of an indicator.
fn note(numbers: &mut Vec<u32>, indicator: u32, number: u32)
    requires { indicator < length numbers.old.items }
    ensures { numbers.new.items ≡ set numbers.old.items indicator number }
{
    numbers[indicator as usize] = number;
}

// Notes the next numbers for the indicators among cells, in order. Answers the one after them.
fn note_cells(numbers: &mut Vec<u32>, cells: &[Cell], first: u32) -> u32
    requires known { AreBelow (length numbers.old.items) (indicators_in cells.now) }
    requires room { first + length (indicators_in cells.now) < 2 ^ 32 }
    ensures noted { numbers.new.items ≡ noted numbers.old.items first
        (indicators_in cells.now) }
    ensures next { result ≡ first + length (indicators_in cells.now) }
{
    let mut next = first;
    for cell in cells {
        let Cell::Ind(indicator) = *cell else {
            continue;
        };
        note(numbers, indicator, next);
        next += 1;
    }
    next
}

/// Notes the next numbers for the indicators on right sides, in order. Answers the one after them.
pub(crate) fn note_rights(numbers: &mut Vec<u32>, bindings: &Bindings, first: u32) -> u32
    requires known { AreBelow (length numbers.old.items) (rights_in bindings.now) }
    requires room { first + length (rights_in bindings.now) < 2 ^ 32 }
    ensures noted { numbers.new.items ≡ noted numbers.old.items first (rights_in bindings.now) }
    ensures next { result ≡ first + length (rights_in bindings.now) }
{
    let mut next = first;
    for pair in bindings.pairs() {
        next = note_cells(numbers, pair.right(), next);
    }
    next
}

// The cell with the number that is noted.
fn renumbered_cell(numbers: &[u32], cell: Cell) -> Cell
    requires { AreBelow (length numbers.now) (indicators_in (cell ∷ [])) }
    ensures { result ≡ renumbered_cell (noted_number numbers.now) cell }
{
    match cell {
        Cell::Ind(indicator) => Cell::Ind(numbers[indicator as usize]),
        Cell::Query(_) => cell,
        Cell::Entry(_) => cell,
        Cell::App { .. } => cell,
    }
}

// Puts the cells with the numbers that are noted into a buffer.
fn renumber_cells(numbers: &[u32], cells: &[Cell], buffer: &mut Vec<Cell>) -> Result<(), AllocError>
    requires { AreBelow (length numbers.now) (indicators_in cells.now) }
    ensures { OnOk result (buffer.new.items ≡ renumbered_cells (noted_number numbers.now)
        cells.now) }
{
    buffer.clear();
    for cell in cells {
        buffer.push(renumbered_cell(numbers, *cell))?;
    }
    Ok(())
}

/// The bindings with the numbers that are noted.
pub(crate) fn renumbered(
    alloc: Global,
    numbers: &[u32],
    bindings: &Bindings,
) -> Result<Bindings, AllocError>
    requires whole { AreWhole bindings.now }
    requires lefts { AreBelow (length numbers.now) (left_sides bindings.now) }
    requires rights { AreBelow (length numbers.now) (rights_in bindings.now) }
    requires distinct { AreDistinct (left_sides (renumbered_pairs (noted_number numbers.now)
        bindings.now)) }
    ensures { IfOk result (λ bs. bs ≡ renumbered_pairs (noted_number numbers.now) bindings.now) }
{
    let mut right = Vec::new(alloc);
    let mut all = Bindings::with_capacity(alloc, bindings.cells())?;
    for pair in bindings.pairs() {
        renumber_cells(numbers, pair.right(), &mut right)?;
        all.push(numbers[pair.left() as usize], right.as_slice())?;
    }
    Ok(all)
}
