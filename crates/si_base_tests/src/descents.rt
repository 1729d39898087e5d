// Descents of a small tree by themselves: from the root, and from the nodes below it.
ghost use Rattle.std.specs.Prelude.{◌≡◌};
ghost use Rattle.si_tree.specs.NewTrees.{IsRootAlone};
ghost use Rattle.si_defs.specs.declared.Relation.TheVariants.{Instances};
ghost use Rattle.si_descend.specs.Descending.{AreQueryCells, MayDescend};
ghost use Rattle.si_descend.specs.Lending.{IsTableFor};

use crate::generalizations::G;
use crate::shapes::{FIRST, SECOND, child, fill};
use si_defs::Relation;
use si_descend::{Pending, Taken, descend, descend_with, slots_for};
use si_flat::{Cell, Flat};
use si_trail::Trail;
use si_tree::{NodeId, Posting, Tree};
use si_unify::{Scratch, Slots};
use std::alloc::{AllocError, Global};
use std::process::Abort;
use std::test::Fail;

// Each of two postings was found once. No order is promised.
fn assert_both(rt: &impl Abort, found: &[Posting]) {
    assert_eq!(rt; found.len(), 2);
    assert!(rt; found[0] == FIRST || found[1] == FIRST);
    assert!(rt; found[0] == SECOND || found[1] == SECOND);
}

// A descent in memory of its own.
fn assert_found<'a>(
    rt: &impl Abort,
    alloc: Global,
    tree: &'a Tree,
    node: NodeId,
    query: &'a Flat,
    slots: &Slots,
    trail: &mut Trail<&'a [Cell]>,
    open: u64,
    found: &mut Vec<Posting>,
) -> Result<(), AllocError>
    requires { MayDescend tree.now node Instances query.now slots.now trail.old }
    ensures same { trail.new ≡ trail.old }
{
    let count = descend(
        alloc,
        tree,
        node,
        Relation::Instances,
        query,
        slots,
        trail,
        found,
    )?;
    assert_eq!(rt; count, open);
    assert_eq!(rt; trail.mark(), 1);
    Ok(())
}

// The same in memory that is lent.
fn assert_found_in<'a>(
    rt: &impl Abort,
    tree: &'a Tree,
    node: NodeId,
    query: &'a Flat,
    slots: &Slots,
    scratch: &mut Scratch,
    trail: &mut Trail<&'a [Cell]>,
    taken: &mut Taken,
    pending: &mut Vec<Pending>,
    found: &mut Vec<Posting>,
) -> Result<(), AllocError>
    requires may { MayDescend tree.now node Instances query.now slots.now trail.old }
    requires table { IsTableFor Instances slots.now taken.old }
{
    let count = descend_with(
        tree,
        node,
        Relation::Instances,
        query,
        slots,
        scratch,
        trail,
        taken,
        pending,
        found,
    )?;
    assert_eq!(rt; count, 4);
    assert_eq!(rt; trail.mark(), 1);
    assert_both(rt, found.as_slice());
    Ok(())
}

fn assert_found_lent<'a>(
    rt: &impl Abort,
    alloc: Global,
    tree: &'a Tree,
    root: NodeId,
    query: &'a Flat,
    slots: &Slots,
    trail: &mut Trail<&'a [Cell]>,
    found: &mut Vec<Posting>,
) -> Result<(), AllocError>
    requires { MayDescend tree.now root Instances query.now slots.now trail.old }
{
    let mut scratch = Scratch::new(alloc);
    let mut taken = Taken::with_slots(alloc, slots.query as usize)?;
    let mut pending = Vec::new(alloc);
    assert_found_in(
        rt,
        tree,
        root,
        query,
        slots,
        &mut scratch,
        trail,
        &mut taken,
        &mut pending,
        found,
    )
}

// At the root four nodes are open: itself, the one that two terms share, and their leaves.
fn assert_descends<'a>(
    rt: &impl Abort,
    alloc: Global,
    tree: &'a Tree,
    query: &'a Flat,
    slots: &Slots,
    trail: &mut Trail<&'a [Cell]>,
    found: &mut Vec<Posting>,
) -> Result<(), AllocError>
    requires { MayDescend tree.now tree.now.root Instances query.now slots.now trail.old }
{
    let root = tree.root();
    assert_found(rt, alloc, tree, root, query, slots, trail, 4, found)?;
    assert_both(rt, found.as_slice());
    found.clear();
    // The root binds nothing, so its children's bindings are solved over indicator 0 alone.
    let shared = child(rt, tree, root, 0);
    assert_found(rt, alloc, tree, shared, query, slots, trail, 3, found)?;
    assert_both(rt, found.as_slice());
    found.clear();
    let other = child(rt, tree, root, 1);
    assert_found(rt, alloc, tree, other, query, slots, trail, 0, found)?;
    assert_eq!(rt; found.len(), 0);
    assert_found_lent(rt, alloc, tree, root, query, slots, trail, found)
}

fn assert_bound<'a>(
    rt: &impl Abort,
    alloc: Global,
    tree: &'a Tree,
    query: &'a Flat,
    slots: &Slots,
    trail: &mut Trail<&'a [Cell]>,
) -> Result<(), AllocError>
    requires { MayDescend tree.now tree.now.root Instances query.now slots.now trail.old }
{
    let mut found = Vec::new(alloc);
    assert_descends(rt, alloc, tree, query, slots, trail, &mut found)
}

fn assert_asked<'a>(
    rt: &impl Abort,
    alloc: Global,
    tree: &'a Tree,
    query: &'a Flat,
) -> Result<(), AllocError>
    requires { AreQueryCells query.now }
{
    // So it is known that the tree is legal.
    tree.root();
    let cells = query.cells();
    let slots = slots_for(tree, Relation::Instances, cells);
    let mut trail = Trail::with_slots(alloc, slots.count())?;
    trail.bind(slots.indicator_slot(0), cells);
    assert_bound(rt, alloc, tree, query, &slots, &mut trail)
}

fn assert_filled(rt: &impl Abort, alloc: Global, tree: &mut Tree) -> Result<(), AllocError>
    requires { IsRootAlone tree.old }
{
    fill(alloc, tree)?;
    let query = Flat::from_cells(alloc, &[G, Cell::Query(0)])?;
    assert_asked(rt, alloc, tree, &query)
}

#[test]
fn descents_go_from_any_node(rt: HostRuntime) -> Result<(), Fail> {
    let mut tree = Tree::new(rt.alloc())?;
    assert_filled(&rt, rt.alloc(), &mut tree)?;
    Ok(())
}
