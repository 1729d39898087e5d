// The arguments of a flat term.
ghost use Rattle.std.specs.Prelude.{◌≡◌, ◌<◌, ◌^◌, IfOk, length};
ghost use Rattle.si_flat.specs.Cells.{IsWhole, StandsFor, Term};
ghost use Rattle.si_defs.specs.Terms.{arguments};
ghost use Rattle.si_subsume.specs.Maps.{arity_of, StandForAll};

use si_flat::{Cell, sub};
use std::alloc::{AllocError, Global};

// The number of arguments after a cell.
fn argument_count(cell: Cell) -> u32
    ensures { result ≡ arity_of cell }
{
    match cell {
        Cell::App { arity, .. } => arity,
        Cell::Query(_) => 0,
        Cell::Entry(_) => 0,
        Cell::Ind(_) => 0,
    }
}

/// The arguments of a term in order, each as the slice of its cells.
pub(crate) fn arguments<'a>(alloc: Global, cells: &'a [Cell]) -> Result<Vec<&'a [Cell]>, AllocError>
    requires { IsWhole cells.now }
    ensures arguments { IfOk result (λ list. (t : Term) → StandsFor cells.now t → StandForAll
        list.items (arguments t)) }
    ensures few { IfOk result (λ list. length list.items < 2 ^ 32) }
{
    let count = argument_count(cells[0]);
    let mut list = Vec::with_capacity(alloc, count as usize)?;
    let mut at = 1;
    while at < cells.len() {
        let argument = sub(cells, at);
        list.push(argument)?;
        at += argument.len();
    }
    Ok(list)
}
