// A node that is split, since its bindings don't fit the term.
ghost use Rattle.std.specs.Prelude.{◌≡◌, ◌+◌, ◌^◌, ◌<◌, ◌≤◌, IfOk, OnErr, false, min, true};
ghost use Rattle.si_defs.specs.Substitutions.{AreDistinct};
ghost use Rattle.si_flat.specs.Cells.{IsWhole};
ghost use Rattle.si_flat.specs.Rows.{left_sides};
ghost use Rattle.si_insert.specs.Inserting.{Places};
ghost use Rattle.si_insert.specs.Passing.{CanPass};
ghost use Rattle.si_insert.specs.Parting.{MayPart, GivesParts, right_lengths};

use crate::open::Openings;
use crate::pass::bind_all;
use si_flat::{Bindings, Cell, sub};
use si_mscg::generalise;
use si_tree::{NodeId, Posting, Tree};
use std::alloc::{AllocError, Global};

// Indicators are numbered below this.
const MOST_INDICATORS: usize = 1 << 31;

/// Splits a node whose bindings don't fit what is open, if there are numbers for fresh indicators.
/// The new leaf has the posting. Else, and at an error, the tree is as before.
pub(crate) fn part(
    alloc: Global,
    openings: &mut Openings,
    tree: &mut Tree,
    node: NodeId,
    cells: &[Cell],
    posting: Posting,
) -> Result<Option<NodeId>, AllocError>
    requires { MayPart tree.old cells.now openings.old node posting }
    ensures ok { IfOk result (Places tree.old tree.new cells.now posting) }
    ensures err { OnErr result (tree.new ≡ tree.old) }
{
    let bindings = tree.bindings(node);
    if !has_room(bindings, tree.next()) {
        return Ok(None);
    }
    let new = parts_at(alloc, openings, bindings, cells)?;
    let split = generalise(alloc, bindings, &new, tree.next())?;
    bind_all(openings, bindings);
    let others = openings.bindings(alloc, cells)?;
    Ok(Some(tree.split_node(node, split, others, posting)?))
}

// What is open at the left sides of some bindings, in their order.
fn parts_at(
    alloc: Global,
    openings: &Openings,
    bindings: &Bindings,
    cells: &[Cell],
) -> Result<Bindings, AllocError>
    requires whole { IsWhole cells.now }
    requires can_pass { CanPass cells.now openings.now bindings.now }
    requires distinct { AreDistinct (left_sides bindings.now) }
    ensures { IfOk result (λ new. GivesParts cells.now openings.now bindings.now new) }
{
    let room = cells.len().saturating_add(bindings.len());
    let mut new = Bindings::with_capacity(alloc, room)?;
    for pair in bindings.pairs() {
        let at = openings.at(pair.left());
        new.push(pair.left(), sub(cells, at))?;
    }
    Ok(new)
}

// Whether there are numbers from this one on for as many indicators as the right sides have cells.
fn has_room(bindings: &Bindings, next: u32) -> bool
    ensures room { result ≡ true → next + right_lengths bindings.now < 2 ^ 31 }
    ensures full { result ≡ false → 2 ^ 31 ≤ next + right_lengths bindings.now }
{
    right_cells(bindings).saturating_add(next as usize) < MOST_INDICATORS
}

// The number of cells on the right sides.
fn right_cells(bindings: &Bindings) -> usize
    ensures { result ≡ min (right_lengths bindings.now) 18446744073709551615 }
{
    let mut count: usize = 0;
    for pair in bindings.pairs() {
        count = count.saturating_add(pair.right().len());
    }
    count
}
