// The nodes of a small tree, and what each of them binds.
ghost use Rattle.std.specs.Prelude.{◌≡◌, ◌<◌, Some, length, slice_get};
ghost use Rattle.si_tree.specs.NewTrees.{IsRootAlone};
ghost use Rattle.si_tree.specs.Reading.{AtNode, IsNode};

use crate::generalizations::{A, B, C, G, are};
use crate::insertions::put;
use si_flat::Cell;
use si_tree::{NodeId, Posting, Tree};
use std::alloc::{AllocError, Global};
use std::process::Abort;
use std::test::Fail;

pub const FIRST: Posting = Posting {
    clause: 0,
    entry: 0,
};

pub const SECOND: Posting = Posting {
    clause: 1,
    entry: 5,
};

const THIRD: Posting = Posting {
    clause: 2,
    entry: 0,
};

/// Puts in three terms, of which the first two share their head.
pub fn fill(alloc: Global, tree: &mut Tree) -> Result<(), AllocError>
    requires { IsRootAlone tree.old }
{
    put(alloc, tree, &[G, A], FIRST)?;
    put(alloc, tree, &[G, B], SECOND)?;
    put(alloc, tree, &[C], THIRD)?;
    Ok(())
}

// It stands apart, as what an assertion tells has no name.
fn at(children: &[NodeId], place: usize) -> NodeId
    requires { place < length children.now }
    ensures { slice_get children.now place ≡ Some result }
{
    children[place]
}

/// The node's child with this number from 0.
pub fn child(rt: &impl Abort, tree: &Tree, node: NodeId, place: usize) -> NodeId
    requires { IsNode tree.now node }
    ensures node { IsNode tree.now result }
    ensures parent { AtNode tree.now result (λ n. n.parent ≡ Some node) }
{
    // So it is known that the tree is legal.
    tree.root();
    let children = tree.children(node);
    assert!(rt; place < children.len());
    let found = at(children, place);
    found
}

// The root.
fn root_of(tree: &Tree) -> NodeId
    ensures node { IsNode tree.now result }
    ensures root { result ≡ tree.now.root }
{
    tree.root()
}

fn assert_node(
    rt: &impl Abort,
    tree: &Tree,
    node: NodeId,
    split: Option<u32>,
    count: usize,
    bindings: &[(u32, &[Cell])],
)
    requires { IsNode tree.now node }
{
    assert_eq!(rt; tree.split(node), split);
    assert_eq!(rt; tree.children(node).len(), count);
    assert!(rt; are(tree.bindings(node), bindings));
}

fn assert_shape(rt: &impl Abort, tree: &Tree) {
    let root = root_of(tree);
    assert_node(rt, tree, root, Some(0), 2, &[]);
    let shared = child(rt, tree, root, 0);
    assert_node(rt, tree, shared, Some(1), 2, &[(0, &[G, Cell::Ind(1)])]);
    let first = child(rt, tree, shared, 0);
    assert_node(rt, tree, first, None, 0, &[(1, &[A])]);
    let second = child(rt, tree, shared, 1);
    assert_node(rt, tree, second, None, 0, &[(1, &[B])]);
    let third = child(rt, tree, root, 1);
    assert_node(rt, tree, third, None, 0, &[(0, &[C])]);
}

fn assert_filled(rt: &impl Abort, alloc: Global, tree: &mut Tree) -> Result<(), AllocError>
    requires { IsRootAlone tree.old }
{
    fill(alloc, tree)?;
    assert_shape(rt, tree);
    Ok(())
}

#[test]
fn terms_share_a_node(rt: HostRuntime) -> Result<(), Fail> {
    let mut tree = Tree::new(rt.alloc())?;
    assert_filled(&rt, rt.alloc(), &mut tree)?;
    Ok(())
}
