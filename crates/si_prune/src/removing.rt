// A posting that goes, and with it a leaf that is left without one.
ghost use Rattle.std.specs.Prelude.{◌≡◌, ◌≢◌, ◌∷◌, [], IfNone, IfOk, IfSome, IsPermutation, OnErr, OnOk, length};
ghost use Rattle.si_defs.specs.Substitutions.{IsAmong};
ghost use Rattle.si_changes.specs.Leaves.{MayDropLeaf};
ghost use Rattle.si_tree.specs.Changes.{HasPosting};
ghost use Rattle.si_tree.specs.Dropping.{MayDrop};
ghost use Rattle.si_prune.specs.Pruning.{AreToJoin, IsEmptyLeaf, IsJoinDue, LeavesUnmerged, RemovesPosting, RemovesWhole};

use crate::composing::compose;
use si_flat::Bindings;
use si_tree::{NodeId, Posting, Tree};
use std::alloc::{AllocError, Global};

/// Takes a posting from a leaf. A leaf that is then without a posting goes too. Where its parent
/// isn't the root and has one other child, that child takes the parent's place. If no memory is
/// left for the child's new bindings, the leaf stays.
pub fn remove(alloc: Global, tree: &mut Tree, leaf: NodeId, posting: Posting)
    requires { HasPosting tree.old leaf posting }
    ensures { RemovesPosting tree.old tree.new leaf posting }
{
    let _ = try_remove(alloc, tree, leaf, posting);
}

/// Takes a posting from a leaf, as [`remove`] does, and tells whether all went that had to. At an
/// error the posting is gone, but the leaf stays without one, as there was no memory for a join.
pub fn try_remove(
    alloc: Global,
    tree: &mut Tree,
    leaf: NodeId,
    posting: Posting,
) -> Result<(), AllocError>
    requires { HasPosting tree.old leaf posting }
    ensures ok { OnOk result (RemovesWhole tree.old tree.new leaf posting) }
    ensures err { OnErr result (LeavesUnmerged tree.old tree.new leaf posting) }
{
    tree.drop_posting(leaf, posting);
    if !tree.postings(leaf).is_empty() {
        return Ok(());
    }
    let joined = joined(alloc, tree, leaf)?;
    tree.drop_leaf(leaf, joined);
    Ok(())
}

// The bindings that the other child of the leaf's parent gets, where that is joined with it.
fn joined(alloc: Global, tree: &Tree, leaf: NodeId) -> Result<Option<Bindings>, AllocError>
    requires { IsEmptyLeaf tree.now leaf }
    ensures ok { IfOk result (λ joined. MayDrop tree.now leaf joined) }
    ensures err { OnErr result (IsJoinDue tree.now leaf) }
{
    let Some((parent, other)) = to_join(tree, leaf) else {
        return Ok(None);
    };
    let both = compose(alloc, tree.bindings(parent), tree.bindings(other))?;
    Ok(Some(both))
}

// The leaf's parent and its other child, where these are to be joined.
fn to_join(tree: &Tree, leaf: NodeId) -> Option<(NodeId, NodeId)>
    requires { IsEmptyLeaf tree.now leaf }
    ensures some { IfSome result (λ pair. AreToJoin tree.now leaf pair.0 pair.1) }
    ensures none { IfNone result (MayDropLeaf tree.now leaf) }
{
    let root = tree.root();
    let Some(parent) = tree.parent(leaf) else {
        unreachable!()
    };
    if parent == root {
        return None;
    }
    let other = other_of(tree.children(parent), leaf)?;
    Some((parent, other))
}

// The other one of exactly two children.
fn other_of(children: &[NodeId], child: NodeId) -> Option<NodeId>
    requires { IsAmong children.now child }
    ensures some { IfSome result (λ other. IsPermutation (child ∷ other ∷ []) children.now) }
    ensures none { IfNone result (length children.now ≢ 2) }
{
    let [one, other] = children else {
        return None;
    };
    if *one == child {
        return Some(*other);
    }
    Some(*one)
}
