//! Flat terms: the cells of one term in preorder.
//!
//! A symbol's cell has the number of cells of its subterm, so a subterm is a slice, and its end is
//! found without a walk. A slice is whole if it is exactly one term; `specs/Cells.antt` says which.
//!
//! Entries and patterns of clauses are flattened with the numbers of a table of symbols:
//! `specs/Flattened.antt` says what their cells stand for.
#![tactic(auto)]

ghost use Rattle.std.specs.Prelude.{◌≡◌, ◌<◌, IfOk, length, take, drop};
ghost use Rattle.si_flat.specs.Cells.{IsWhole, span};

mod bindings;
mod clauses;
mod flatten;
mod met;
mod names;
mod tables;
mod walk;
mod writer;

pub use bindings::{Bindings, Pair, Pairs, Split};
pub use clauses::{ClauseBuffer, flatten_clauses};
pub use flatten::{
    EntryBuffer, FlatQuery, NamedQuery, flatten_entry, flatten_pattern, flatten_with_names,
};
pub use met::FIRST_EXTRA;
/// A relation by the name that calls on flat terms have for it.
pub use si_defs::Relation as Kind;
use si_term::list::Items;
use smallvec::SmallVec;
use std::alloc::{AllocError, Global};
use std::default::MadeWith;
use std::marker::Model;
pub use tables::reach;
pub use writer::{Gap, QueryWriter};

/// A map of literals: for each literal of a clause in order the number, from 1, of its image.
pub type LitMap = Items<u32>;

/// One cell of a flat term.
#[derive(Clone, Copy, Debug, PartialEq, Eq)]
pub enum Cell {
    /// A symbol, by its number and its arity, at the head of a subterm of so many cells.
    App {
        /// The number of the symbol.
        sym: u32,
        /// The number of its arguments.
        arity: u32,
        /// The number of cells of the subterm, this one included.
        len: u32,
    },
    /// A variable of a query.
    Query(u32),
    /// A variable of an entry.
    Entry(u32),
    /// An indicator: a place in a stored term that is filled further down.
    Ind(u32),
}

/// Whose variable it is.
#[derive(Clone, Copy, Debug, PartialEq, Eq)]
pub enum Owner {
    /// The query's.
    Query,
    /// The entry's.
    Entry,
}

impl Cell {
    /// The number of cells of the subterm that begins with this cell.
    pub fn span(self) -> usize
        ensures { result ≡ span self }
    {
        match self {
            Cell::App { len, .. } => len as usize,
            Cell::Query(_) | Cell::Entry(_) | Cell::Ind(_) => 1,
        }
    }
}

/// A query's first variable. It stands in the places of a list that hold nothing.
impl Default for Cell {
    ghost use Rattle.std.specs.Prelude.{◌≡◌};
    ghost use Rattle.si_flat.specs.declared.Cell.TheVariants.{Query};

    ghost is_default = { λ c. c ≡ Query 0 };

    fn default() -> Cell {
        Cell::Query(0)
    }
}

/// The cells of one term. Contracts see the list of the cells. A short term takes no memory.
pub struct Flat {
    cells: SmallVec<Cell, 2>,
}

// It does what a derived one would, and is quicker to check (docs/PROVING.md, "Minutes").
impl Drop for Flat {
    fn drop(self) {
        let Flat { cells: _cells } = self;
    }
}

impl Model for Flat {
    ghost use Rattle.std.specs.Prelude.{List};
    ghost use Rattle.si_flat.specs.declared.Cell.{Cell};

    ghost Value = { List Cell };

    ghost use Rattle.si_flat.specs.Cells.{IsWhole, span};

    ghost view = { λ f. f.cells.items };

    ghost invariant = { λ f. IsWhole f.cells.items };
}

impl Flat {
    /// The term of these cells.
    pub fn from_cells(alloc: Global, cells: &[Cell]) -> Result<Flat, AllocError>
        requires { IsWhole cells.now }
        ensures { IfOk result (λ f. f ≡ cells.now) }
    {
        Ok(Flat {
            cells: SmallVec::from_slice(alloc, cells)?,
        })
    }

    // The term of these cells, in their memory, without the room after the last one.
    fn from_vec(mut cells: Vec<Cell>) -> Flat
        requires { IsWhole cells.items }
        ensures { result ≡ cells.items }
    {
        cells.shrink_to_fit();
        Flat::with_room(cells)
    }

    // The term of these cells, in their memory. The room after the last one isn't given back, as
    // suits a term that isn't kept.
    fn with_room(cells: Vec<Cell>) -> Flat
        requires { IsWhole cells.items }
        ensures { result ≡ cells.items }
    {
        Flat {
            cells: SmallVec::from_vec(cells),
        }
    }

    /// The cells, which are whole.
    pub fn cells(&self) -> &[Cell]
        ensures cells { result.now ≡ self.now }
        ensures whole { IsWhole result.now }
    {
        self.cells.as_slice()
    }
}

/// A query's first variable. It takes no memory, and stands in the places of a list that hold
/// nothing.
impl MadeWith<Global> for Flat {
    fn made_with(alloc: Global) -> Flat {
        let mut cells = SmallVec::new(alloc);
        cells.push_reserved(Cell::Query(0));
        Flat { cells }
    }
}

/// The subterm that begins with the cell at this place.
pub fn sub(cells: &[Cell], at: usize) -> &[Cell]
    requires whole { IsWhole cells.now }
    requires inside { at < length cells.now }
    ensures place { result.now ≡ take (length result.now) (drop at cells.now) }
    ensures whole { IsWhole result.now }
{
    let rest = &cells[at..];
    &rest[..rest[0].span()]
}
