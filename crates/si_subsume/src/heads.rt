// The targets by their heads.
ghost use Rattle.std.specs.Prelude.{◌≡◌, ◌<◌, IfOk, length, slice_index_or};
ghost use Rattle.std.specs.Map.{lookup};
ghost use Rattle.std.specs.Option.{unwrap_or};
ghost use Rattle.std.specs.List.{AllByRecursion};
ghost use Rattle.si_subsume.specs.Heads.{head_of, equal_heads, IsIndexOf};

use indexmap::IndexMap;
use si_flat::Cell;
use std::alloc::{AllocError, Global};

/// The symbol at the head of a term, with its arity.
#[derive(Clone, Copy, PartialEq, Eq, Hash)]
pub(crate) struct Head {
    sym: u32,
    arity: u32,
}

/// The head of a term that begins with this cell.
pub(crate) fn head_of(cell: Cell) -> Head
    ensures { result ≡ head_of cell }
{
    match cell {
        Cell::App { sym, arity, .. } => Head { sym, arity },
        Cell::Query(_) => Head { sym: 0, arity: 0 },
        Cell::Entry(_) => Head { sym: 0, arity: 0 },
        Cell::Ind(_) => Head { sym: 0, arity: 0 },
    }
}

/// Where each head stands first among the targets, and next after each target.
#[derive(Drop)]
pub(crate) struct Heads {
    first: IndexMap<Head, usize>,
    next: Vec<usize>,
}

impl Heads {
    /// The heads of these targets.
    pub(crate) fn of(alloc: Global, targets: &[&[Cell]]) -> Result<Heads, AllocError>
        requires { AllByRecursion (λ b. 0 < length b.now) targets.now }
        ensures { IfOk result (λ heads. IsIndexOf heads targets.now) }
    {
        let end = targets.len();
        let mut first = IndexMap::new(alloc);
        let mut next = Vec::with_capacity(alloc, end)?;
        for behind in 0..end {
            let number = end - 1 - behind;
            let later = first.insert(head_of(targets[number][0]), number)?;
            next.push(later.unwrap_or(end))?;
        }
        next.reverse();
        Ok(Heads { first, next })
    }

    /// The number of the first target with the head, of so many; their number where there is none.
    pub(crate) fn first(&self, cell: Cell, end: usize) -> usize
        ensures { result ≡ unwrap_or (lookup (equal_heads (head_of cell))
            self.now.first.entries) end }
    {
        match self.first.get(&head_of(cell)) {
            Some(number) => *number,
            None => end,
        }
    }

    /// The number of the next target with the same head.
    pub(crate) fn next(&self, number: usize) -> usize
        requires { number < length self.now.next.items }
        ensures { result ≡ slice_index_or self.now.next.items number 0 }
    {
        self.next[number]
    }
}
