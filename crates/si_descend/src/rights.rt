// How long the right sides of a tree are.
ghost use Rattle.std.specs.Prelude.{◌≡◌, ◌++◌, IfOk, OnOk};
ghost use Rattle.si_tree.specs.Reading.{AtNode, IsNode, children_of};
ghost use Rattle.si_descend.specs.Lending.{AreRightsNoLongerThan, most_cells};

use si_flat::Bindings;
use si_tree::{NodeId, Tree};
use std::alloc::{AllocError, Global};

/// The number of cells of the longest right side in the tree. So much room is to be made for each
/// value that a descent may solve, where the query has no more cells. It goes through all nodes.
///
/// # Errors
///
/// `AllocError` where there is no memory for a list of nodes.
pub fn longest_right(alloc: Global, tree: &Tree) -> Result<usize, AllocError>
    ensures { IfOk result (λ n. AreRightsNoLongerThan n tree.now) }
{
    let mut left = Vec::new(alloc);
    left.push(tree.root())?;
    let mut longest = 0;
    // There are no more turns than nodes.
    for _ in 0..tree.counts().nodes {
        let Some(node) = left.pop() else {
            return Ok(longest);
        };
        let own = longest_of(tree.bindings(node));
        longest = longest.max(own);
        push_children(tree, node, &mut left)?;
    }
    Ok(longest)
}

// Puts the children of a node after those that are left.
fn push_children(tree: &Tree, node: NodeId, left: &mut Vec<NodeId>) -> Result<(), AllocError>
    requires { IsNode tree.now node }
    ensures { OnOk result (AtNode tree.now node (λ n.
        left.new.items ≡ left.old.items ++ children_of n.content)) }
{
    for child in tree.children(node) {
        left.push(*child)?;
    }
    Ok(())
}

// That of these bindings.
fn longest_of(bindings: &Bindings) -> usize
    ensures { result ≡ most_cells bindings.now }
{
    let mut longest = 0;
    for pair in bindings.pairs() {
        longest = longest.max(pair.right().len());
    }
    longest
}
