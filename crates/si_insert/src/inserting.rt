// A posting put under a term.
ghost use Rattle.std.specs.Prelude.{◌≡◌, IfOk, OnErr};
ghost use Rattle.si_insert.specs.Inserting.{MayInsert, Inserts, Places, KeepsAll};
ghost use Rattle.si_insert.specs.Walking.{IsAtInner, GivesHead};

use crate::open::Openings;
use crate::parting::part;
use crate::pass::pass;
use si_flat::{Cell, Flat, sub};
use si_tree::{Head, NodeId, Posting, Tree, head_of};
use std::alloc::{AllocError, Global};

/// Puts a posting last under a term, and answers the leaf that has it. At an error the stored
/// postings are as before. Indicators are numbered anew where that is due, and where a split has no
/// numbers for them.
pub fn insert(
    alloc: Global,
    tree: &mut Tree,
    term: &Flat,
    posting: Posting,
) -> Result<NodeId, AllocError>
    requires { MayInsert tree.old term.now posting }
    ensures ok { IfOk result (λ leaf. Inserts tree.old tree.new term.now posting leaf) }
    ensures err { OnErr result (KeepsAll tree.old tree.new) }
{
    let mut openings = Openings::new(alloc);
    insert_cells(alloc, &mut openings, tree, term.cells(), posting)
}

/// As [`insert`], for a term whose cells are lent, over memory that serves from one insertion to
/// the next.
pub fn insert_cells(
    alloc: Global,
    openings: &mut Openings,
    tree: &mut Tree,
    cells: &[Cell],
    posting: Posting,
) -> Result<NodeId, AllocError>
    requires { MayInsert tree.old cells.now posting }
    ensures ok { IfOk result (λ leaf. Inserts tree.old tree.new cells.now posting leaf) }
    ensures err { OnErr result (KeepsAll tree.old tree.new) }
{
    renumber_if_due(tree);
    let placed = place(alloc, openings, tree, cells, posting)?;
    if let Some(leaf) = placed {
        return Ok(leaf);
    }
    tree.renumber()?;
    let placed = place(alloc, openings, tree, cells, posting)?;
    let Some(leaf) = placed else {
        return Err(AllocError);
    };
    Ok(leaf)
}

// Numbers the indicators anew, where that is due and there is memory for it.
fn renumber_if_due(tree: &mut Tree)
    ensures { KeepsAll tree.old tree.new }
{
    if !tree.should_renumber() {
        return;
    }
    let _ = tree.renumber();
}

// Puts the posting under the term, if no split is in want of numbers. Else, and at an error, the
// tree is as before.
fn place(
    alloc: Global,
    openings: &mut Openings,
    tree: &mut Tree,
    cells: &[Cell],
    posting: Posting,
) -> Result<Option<NodeId>, AllocError>
    requires { MayInsert tree.old cells.now posting }
    ensures ok { IfOk result (Places tree.old tree.new cells.now posting) }
    ensures err { OnErr result (tree.new ≡ tree.old) }
{
    openings.start()?;
    let mut node = tree.root();
    while let Some(split) = tree.split(node) {
        let Some(child) = tree.child(node, head_there(openings, cells, split)) else {
            let bindings = openings.bindings(alloc, cells)?;
            return Ok(Some(tree.add_leaf(node, bindings, posting)?));
        };
        if !pass(openings, tree.bindings(child), cells)? {
            return part(alloc, openings, tree, child, cells, posting);
        }
        node = child;
    }
    tree.add_posting(node, posting)?;
    Ok(Some(node))
}

// The head of what stands at an indicator that is open.
fn head_there(openings: &Openings, cells: &[Cell], split: u32) -> Head
    requires { IsAtInner cells.now openings.now split }
    ensures { GivesHead cells.now openings.now split result }
{
    let at = openings.at(split);
    let part = sub(cells, at);
    let Some(head) = head_of(part[0]) else {
        unreachable!()
    };
    head
}
