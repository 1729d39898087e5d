// The numbers of cells at symbols, set where all cells of a term are known.
ghost use Rattle.std.specs.Prelude.{◌≡◌, ◌+◌, ◌<◌, ◌≤◌, ◌^◌, drop, length, slice_index_or, slice_set};
ghost use Rattle.si_flat.specs.declared.Cell.TheVariants.{App};
ghost use Rattle.si_mscg.specs.Generalising.{HasArguments, BeginsWithTerms, IsDraft, respanned, spanless, spans, with_span};

use si_flat::Cell;

/// The cell, of which it isn't known how many others belong to it. Such are the cells of a draft.
pub fn without_span(cell: Cell) -> Cell
    ensures { result ≡ spanless cell }
{
    match cell {
        Cell::App { sym, arity, .. } => Cell::App { sym, arity, len: 1 },
        Cell::Query(number) => Cell::Query(number),
        Cell::Entry(number) => Cell::Entry(number),
        Cell::Ind(number) => Cell::Ind(number),
    }
}

/// Sets the number of cells at each symbol of a draft. They go from the last to the first, so those
/// of the arguments are known.
pub fn set_spans(cells: &mut Vec<Cell>)
    requires draft { IsDraft cells.old.items }
    requires short { length cells.old.items < 2 ^ 32 }
    ensures { cells.new.items ≡ respanned cells.old.items }
{
    let count = cells.len();
    for done in 0..count {
        set_span(cells, count - 1 - done);
    }
}

// Sets the number of cells at one symbol, where those after it are set.
fn set_span(cells: &mut Vec<Cell>, at: usize)
    requires inside { at < length cells.old.items }
    requires short { length cells.old.items < 2 ^ 32 }
    requires arguments { HasArguments (slice_index_or cells.old.items at (App 0 0 0))
        (drop (at + 1) cells.old.items) }
    ensures { cells.new.items ≡ slice_set cells.old.items at
        (with_span (slice_index_or cells.old.items at (App 0 0 0))
        (drop (at + 1) cells.old.items)) }
{
    let Cell::App { sym, arity, .. } = cells[at] else {
        return;
    };
    let len = 1 + arguments_span(&cells[at + 1..], arity) as u32;
    cells[at] = Cell::App { sym, arity, len };
}

// The number of cells of so many terms.
fn arguments_span(cells: &[Cell], count: u32) -> usize
    requires { BeginsWithTerms count cells.now }
    ensures span { result ≡ spans count cells.now }
    ensures inside { result ≤ length cells.now }
{
    let mut end = 0;
    for _ in 0..count {
        end += cells[end].span();
    }
    end
}
