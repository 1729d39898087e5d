// Bindings of indicators.
ghost use Rattle.std.specs.Prelude.{◌≡◌, ◌<◌, [], ◌∷◌, ◌++◌, IfOk, OnErr, OnOk, Some, length, slice_get};
ghost use Rattle.std.specs.Iterator.{YieldsFirstBy, item_count};
ghost use Rattle.si_defs.specs.Substitutions.{IsAmong};
ghost use Rattle.si_flat.specs.declared.Cell.TheVariants.{Ind};
ghost use Rattle.si_flat.specs.Cells.{IsWhole};
ghost use Rattle.si_flat.specs.Rows.{IsPair, IsRow, left_rows, left_sides, pair_cells, pair_of, pairs_of, right_sides, row_of};

use crate::Cell;
use std::alloc::{AllocError, Global};
use std::marker::Model;

/// Bindings of indicators, each of its number and the term that stands in its place. Contracts see
/// the list of pairs of the number, the left side, and the cells of the right side. No two left
/// sides are the same.
#[derive(Drop)]
pub struct Bindings {
    cells: Vec<Cell>,
}

impl Model for Bindings {
    ghost use Rattle.std.specs.Prelude.{List};
    ghost use Rattle.si_defs.specs.Substitutions.{AreDistinct};
    ghost use Rattle.si_flat.specs.Rows.{CellPair, IsRow, left_sides, pairs_of};

    ghost Value = { List CellPair };

    ghost view = { λ b. pairs_of b.cells.items };

    ghost invariant = { λ b. IsRow b.cells.items
        × AreDistinct (left_sides (pairs_of b.cells.items)) };
}

/// One binding, in its cells.
#[derive(Drop)]
pub struct Pair<'a> {
    cells: &'a [Cell],
}

impl<'a> Model for Pair<'a> {
    ghost use Rattle.si_flat.specs.Rows.{CellPair, IsPair, pair_of};

    ghost Value = { CellPair };

    ghost view = { λ p. pair_of p.cells.now };

    ghost invariant = { λ p. IsPair p.cells.now };
}

/// The bindings of a list that are left, in order.
#[derive(Drop)]
pub struct Pairs<'a> {
    cells: &'a [Cell],
}

impl<'a> Model for Pairs<'a> {
    ghost use Rattle.std.specs.Prelude.{List};
    ghost use Rattle.si_flat.specs.Rows.{CellPair, IsRow, pairs_of};

    ghost Value = { List CellPair };

    ghost view = { λ p. pairs_of p.cells.now };

    ghost invariant = { λ p. IsRow p.cells.now };
}

/// What two lists of bindings with the same left sides have in common, and what is left of each.
#[derive(Drop)]
pub struct Split {
    /// The common part.
    pub common: Bindings,
    /// What is left of the list of a node.
    pub rest_node: Bindings,
    /// What is left of the new list.
    pub rest_new: Bindings,
}

impl Bindings {
    /// The empty list.
    pub fn new(alloc: Global) -> Bindings
        ensures { result ≡ [] }
    {
        Bindings {
            cells: Vec::new(alloc),
        }
    }

    /// The empty list, with room for so many cells, as [`Bindings::cells`] counts them.
    pub fn with_capacity(alloc: Global, cells: usize) -> Result<Bindings, AllocError>
        ensures { IfOk result (λ bindings. bindings ≡ []) }
    {
        Ok(Bindings {
            cells: Vec::with_capacity(alloc, cells)?,
        })
    }

    /// A copy, with no room after the last binding.
    pub fn copy(&self, alloc: Global) -> Result<Bindings, AllocError>
        ensures { IfOk result (λ bindings. bindings ≡ self.now) }
    {
        let mut cells = Vec::with_capacity(alloc, self.cells.len())?;
        cells.extend_from_slice(self.cells.as_slice())?;
        Ok(Bindings { cells })
    }

    /// Appends a binding. At an error the list is as before.
    pub fn push(&mut self, left: u32, right: &[Cell]) -> Result<(), AllocError>
        requires new { IsAmong (left_sides self.old) left → ⊥ }
        requires whole { IsWhole right.now }
        ensures ok { OnOk result (self.new ≡ self.old ++ (left, right.now) ∷ []) }
        ensures err { OnErr result (self.new ≡ self.old) }
    {
        append_pair(&mut self.cells, left, right)?;
        Ok(())
    }

    /// The number of bindings. They are counted by a walk.
    pub fn len(&self) -> usize
        ensures { result ≡ length self.now }
    {
        let pairs = Pairs {
            cells: self.cells.as_slice(),
        };
        pairs.count()
    }

    /// The number of cells: one for each left side, and those of the right sides.
    pub fn cells(&self) -> usize
        ensures { result ≡ length (row_of self.now) }
    {
        self.cells.len()
    }

    /// The bindings in order.
    pub fn pairs(&self) -> Pairs<'_>
        ensures { result ≡ self.now }
    {
        Pairs {
            cells: self.cells.as_slice(),
        }
    }

    /// The binding with this number from 0. It is found by a walk over those before it.
    pub fn pair(&self, n: usize) -> Pair<'_>
        requires { n < length self.now }
        ensures { slice_get self.now n ≡ Some result }
    {
        let mut left = self.pairs();
        for _ in 0..n {
            left.next();
        }
        let Some(pair) = left.next() else {
            unreachable!()
        };
        pair
    }

    /// The left side of the binding with this number.
    pub fn left(&self, n: usize) -> u32
        requires { n < length self.now }
        ensures { slice_get (left_sides self.now) n ≡ Some result }
    {
        self.pair(n).left()
    }

    /// The right side of the binding with this number.
    pub fn right(&self, n: usize) -> &[Cell]
        requires { n < length self.now }
        ensures cells { slice_get (right_sides self.now) n ≡ Some result.now }
        ensures whole { IsWhole result.now }
    {
        self.pair(n).right()
    }

    /// The left side of the binding with this number, as a term of one cell.
    pub fn left_cells(&self, n: usize) -> &[Cell]
        requires { n < length self.now }
        ensures { slice_get (left_rows self.now) n ≡ Some result.now }
    {
        self.pair(n).left_cells()
    }
}

// Appends the cells of a binding. At an error the cells are as before.
fn append_pair(cells: &mut Vec<Cell>, left: u32, right: &[Cell]) -> Result<(), AllocError>
    ensures ok { OnOk result (cells.new.items ≡ cells.old.items ++ pair_cells (left, right.now)) }
    ensures err { OnErr result (cells.new.items ≡ cells.old.items) }
{
    let before = cells.len();
    cells.push(Cell::Ind(left))?;
    if let Err(error) = cells.extend_from_slice(right) {
        cells.truncate(before);
        return Err(error);
    }
    Ok(())
}

impl<'a> Pair<'a> {
    /// The number of the indicator.
    pub fn left(&self) -> u32
        ensures { result ≡ self.now.0 }
    {
        match self.cells[0] {
            Cell::Ind(number) => number,
            Cell::App { .. } => unreachable!(),
            Cell::Query(_) => unreachable!(),
            Cell::Entry(_) => unreachable!(),
        }
    }

    /// The indicator, as a term of one cell.
    pub fn left_cells(&self) -> &'a [Cell]
        ensures { result.now ≡ Ind self.now.0 ∷ [] }
    {
        &self.cells[..1]
    }

    /// The cells of the right side.
    pub fn right(&self) -> &'a [Cell]
        ensures cells { result.now ≡ self.now.1 }
        ensures whole { IsWhole result.now }
    {
        &self.cells[1..]
    }
}

impl<'a> Iterator for Pairs<'a> {
    type Item = Pair<'a>;

    ghost next_gives = { YieldsFirstBy (λ pair. pair) (λ rest. rest) };

    ghost remaining = { item_count (λ rest. rest) };

    fn next(&mut self) -> Option<Pair<'a>> {
        let cells = self.cells;
        if cells.is_empty() {
            return None;
        }
        let (pair, rest) = split_pair(cells);
        self.cells = rest;
        Some(Pair { cells: pair })
    }
}

// The cells of the first binding of a row, and the others.
fn split_pair(cells: &[Cell]) -> (&[Cell], &[Cell])
    requires row { IsRow cells.now }
    requires some { 0 < length cells.now }
    ensures pair { IsPair result.0.now }
    ensures rest { IsRow result.1.now }
    ensures pairs { pairs_of cells.now ≡ pair_of result.0.now ∷ pairs_of result.1.now }
{
    let after = &cells[1..];
    let (_, rest) = after.split_at(after[0].span());
    cells.split_at(cells.len() - rest.len())
}
