// A tree that terms come into and go out of. A leaf that lost its postings serves again where its
// term comes again, and after a join the indicators can be numbered from 1 anew.
ghost use Rattle.std.specs.Prelude.{IfOk, OnOk};
ghost use Rattle.si_legal.specs.Legal.{IsLegal};
ghost use Rattle.si_tree.specs.NewTrees.{IsRootAlone};
ghost use Rattle.si_insert.specs.Inserting.{Inserts, MayInsert};

use crate::generalizations::{A, B, C, G};
use si_flat::{Cell, Flat};
use si_insert::insert;
use si_prune::remove;
use si_tree::{NodeId, Posting, Tree};
use std::alloc::{AllocError, Global};
use std::process::Abort;
use std::test::Fail;

const FIRST: Posting = Posting {
    clause: 0,
    entry: 0,
};

const SECOND: Posting = Posting {
    clause: 1,
    entry: 5,
};

const THIRD: Posting = Posting {
    clause: 2,
    entry: 0,
};

const FOURTH: Posting = Posting {
    clause: 3,
    entry: 0,
};

// Puts a posting under a term.
fn put_term(
    alloc: Global,
    tree: &mut Tree,
    term: &Flat,
    posting: Posting,
) -> Result<NodeId, AllocError>
    requires { MayInsert tree.old term.now posting }
    ensures ok { IfOk result (λ leaf. Inserts tree.old tree.new term.now posting leaf) }
    ensures legal { OnOk result (IsLegal tree.new) }
{
    let leaf = insert(alloc, tree, term, posting)?;
    // So it is known that the tree is legal still.
    tree.root();
    Ok(leaf)
}

// Puts a posting under the term of these cells.
pub(crate) fn put(
    alloc: Global,
    tree: &mut Tree,
    cells: &[Cell],
    posting: Posting,
) -> Result<NodeId, AllocError>
    requires { MayInsert tree.old cells.now posting }
    ensures ok { IfOk result (λ leaf. Inserts tree.old tree.new cells.now posting leaf) }
    ensures legal { OnOk result (IsLegal tree.new) }
{
    let term = Flat::from_cells(alloc, cells)?;
    put_term(alloc, tree, &term, posting)
}

// The numbers of nodes, of leaves, and of those without a posting, and the number above all
// indicators.
fn shape_of(tree: &Tree) -> (u64, u64, u64, u32) {
    let counts = tree.counts();
    (counts.nodes, counts.leaves, counts.unmerged, tree.next())
}

fn assert_serves(rt: &impl Abort, alloc: Global, tree: &mut Tree) -> Result<(), AllocError>
    requires { IsRootAlone tree.old }
{
    put(alloc, tree, &[G, A], FIRST)?;
    assert_eq!(rt; shape_of(tree), (2, 1, 0, 1));
    let leaf = put(alloc, tree, &[G, B], SECOND)?;
    assert_eq!(rt; shape_of(tree), (4, 2, 0, 2));
    // The leaf stays, as it does after a removal that found no memory for its join.
    tree.drop_posting(leaf, SECOND);
    tree.root();
    put(alloc, tree, &[C], THIRD)?;
    assert_eq!(rt; shape_of(tree), (5, 3, 1, 2));
    let again = put(alloc, tree, &[G, B], FOURTH)?;
    assert_eq!(rt; again, leaf);
    assert_eq!(rt; shape_of(tree), (5, 3, 0, 2));
    remove(alloc, tree, again, FOURTH);
    assert_eq!(rt; shape_of(tree), (3, 2, 0, 2));
    tree.renumber()?;
    assert_eq!(rt; shape_of(tree), (3, 2, 0, 1));
    Ok(())
}

#[test]
fn leaf_serves_again(rt: HostRuntime) -> Result<(), Fail> {
    let mut tree = Tree::new(rt.alloc())?;
    assert_serves(&rt, rt.alloc(), &mut tree)?;
    Ok(())
}
