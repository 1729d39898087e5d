// What is read of the right sides of bindings.
ghost use Rattle.std.specs.Prelude.{◌≡◌, ◌+◌, ◌++◌, ◌<◌, ◌^◌, IfOk, length};
ghost use Rattle.si_defs.specs.Substitutions.{AreDistinct};
ghost use Rattle.si_flat.specs.Rows.{left_sides};
ghost use Rattle.si_legal.specs.Generalizations.{fresh_among};
ghost use Rattle.si_tree.specs.KeptNodes.{IsBelow, IsBelowBy};
ghost use Rattle.si_tree.specs.Rights.{beyond, beyond_all, beyond_rights, cell_head, head_in};

use crate::node::{Head, NodeId, TreeNode};
use si_flat::{Bindings, Cell};
use slab::Slab;
use std::alloc::{AllocError, Global};

/// The head of what the bindings give an indicator.
pub(crate) fn head_at(bindings: &Bindings, indicator: u32) -> Option<Head>
    ensures { result ≡ head_in bindings.now indicator }
{
    for pair in bindings.pairs() {
        if pair.left() == indicator {
            let right = pair.right();
            return head_of(right[0]);
        }
    }
    None
}

/// The head by which a node stands among the children of its parent.
pub(crate) fn head_below(nodes: &Slab<TreeNode>, node: NodeId, parent: NodeId) -> Head
    requires { IsBelow nodes.now node parent }
    ensures { IsBelowBy nodes.now node parent result }
{
    let Some(split) = nodes[parent.key as usize].split() else {
        unreachable!()
    };
    let Some(head) = head_at(nodes[node.key as usize].bindings(), split) else {
        unreachable!()
    };
    head
}

/// The head of a term that begins with this cell. A variable of a query and an indicator are none.
pub fn head_of(first: Cell) -> Option<Head>
    ensures { result ≡ cell_head first }
{
    match first {
        Cell::App { sym, arity, .. } => Some(Head::Sym { sym, arity }),
        Cell::Entry(number) => Some(Head::Var(number)),
        Cell::Query(_) => None,
        Cell::Ind(_) => None,
    }
}

/// The number above all variables of entries on right sides.
pub(crate) fn beyond_entries(bindings: &Bindings) -> u32
    ensures { result ≡ beyond_rights bindings.now }
{
    let mut bound = 0;
    for pair in bindings.pairs() {
        bound = bound.max(beyond_cells(pair.right()));
    }
    bound
}

// The number above all variables of entries.
fn beyond_cells(cells: &[Cell]) -> u32
    ensures { result ≡ beyond_all cells.now }
{
    let mut bound = 0;
    for cell in cells {
        bound = bound.max(beyond_cell(*cell));
    }
    bound
}

// The number above that of a variable of an entry.
fn beyond_cell(cell: Cell) -> u32
    ensures { result ≡ beyond cell }
{
    match cell {
        Cell::Entry(number) => number.saturating_add(1),
        Cell::App { .. } => 0,
        Cell::Query(_) => 0,
        Cell::Ind(_) => 0,
    }
}

/// The number after those left sides that are no less than a number, where these follow one after
/// the other from it.
pub(crate) fn next_after(bindings: &Bindings, next: u32) -> u32
    requires { next + length (fresh_among next (left_sides bindings.now)) < 2 ^ 32 }
    ensures { result ≡ next + length (fresh_among next (left_sides bindings.now)) }
{
    let mut after = next;
    for pair in bindings.pairs() {
        if pair.left() < next {
            continue;
        }
        after += 1;
    }
    after
}

/// The bindings of both lists, in order, with no room after the last one where any was appended.
pub(crate) fn joined(
    alloc: Global,
    first: Bindings,
    second: &Bindings,
) -> Result<Bindings, AllocError>
    requires { AreDistinct (left_sides (first ++ second.now)) }
    ensures { IfOk result (λ both. both ≡ first ++ second.now) }
{
    if second.len() == 0 {
        return Ok(first);
    }
    let mut both = first;
    for pair in second.pairs() {
        both.push(pair.left(), pair.right())?;
    }
    both.copy(alloc)
}
