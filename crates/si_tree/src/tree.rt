// A tree as its nodes in a slab.
ghost use Rattle.std.specs.Prelude.{◌≡◌, ◌<◌, ◌≤◌, ◌^◌, ℕ, IfOk, IfSome, IfNone, OnErr, OnOk, None, Some, length, slice_get};
ghost use Rattle.slab.specs.Slab.{HasRoomFor};
ghost use Rattle.si_flat.specs.Rows.{AreWhole};
ghost use Rattle.si_legal.specs.Bindings.{StandForBindings};
ghost use Rattle.si_legal.specs.Legal.{IsLegal};
ghost use Rattle.si_tree.specs.declared.node.Head.TheVariants.{Var};
ghost use Rattle.si_tree.specs.NewTrees.{IsRootAlone};
ghost use Rattle.si_tree.specs.KeptNodes.{AreKnown, HasRoomBelow, HaveShortKeys, IsInnerAt, IsPutBetween, MayPutBetween, StaySame};
ghost use Rattle.si_tree.specs.Changes.{AreWholeParts, HasNewLeaf, HasSplitLeaf, parts_of, MayAddPosting, AddsPosting, HasPosting, DropsPosting};
ghost use Rattle.si_changes.specs.Leaves.{MayAddLeaf};
ghost use Rattle.si_changes.specs.Splits.{MaySplitNode};
ghost use Rattle.si_tree.specs.Decoding.{bindings_of};
ghost use Rattle.si_tree.specs.Reading.{IsNode, AtNode, split_of, children_of, postings_of, counts_of};
ghost use Rattle.si_tree.specs.Heads.{IsChildBy};

use crate::node::{Counts, Head, NodeId, TreeNode};
use crate::postings::Postings;
use crate::rights::{beyond_entries, head_at, head_below, joined, next_after};
use si_flat::{Bindings, Split};
use si_legal::Posting;
use slab::Slab;
use std::alloc::{AllocError, Global};
use std::marker::Model;

/// A substitution tree. Contracts see the tree itself, which is legal.
#[derive(Drop)]
pub struct Tree {
    pub(crate) alloc: Global,
    pub(crate) nodes: Slab<TreeNode>,
    pub(crate) root: NodeId,
    pub(crate) next: u32,
    pub(crate) vars: u32,
    pub(crate) leaves: u64,
    pub(crate) unmerged: u64,
    // `next` after the last renumbering, or at one that found no memory; more where that visited
    // many cells.
    pub(crate) renumbered_next: u32,
}

impl Model for Tree {
    ghost use Rattle.si_flat.specs.Cells.{Term};
    ghost use Rattle.si_legal.specs.Trees as trees;
    ghost use Rattle.si_tree.specs.Codes.{tree_code};

    ghost Value = { trees.Tree Term };

    ghost coded = { tree_code };

    ghost use Rattle.si_tree.specs.KeptNodes.{tree_of, IsKept};

    ghost view = { tree_of };

    ghost invariant = { IsKept };
}

impl Tree {
    /// The tree of the root alone.
    pub fn new(alloc: Global) -> Result<Tree, AllocError>
        ensures { IfOk result IsRootAlone }
    {
        let node = TreeNode::root(alloc)?;
        let mut nodes = Slab::with_capacity(alloc, 1)?;
        let root = nodes.insert_reserved(node);
        Ok(Tree {
            alloc,
            nodes,
            root: NodeId { key: root as u32 },
            next: 1,
            vars: 0,
            leaves: 0,
            unmerged: 0,
            renumbered_next: 1,
        })
    }

    /// The numbers of nodes.
    pub fn counts(&self) -> Counts
        ensures { result ≡ counts_of self.now }
    {
        Counts {
            nodes: self.nodes.len() as u64,
            leaves: self.leaves,
            unmerged: self.unmerged,
        }
    }

    /// The root.
    pub fn root(&self) -> NodeId
        ensures root { result ≡ self.now.root }
        ensures legal { IsLegal self.now }
    {
        self.root
    }

    /// The number above all indicators of the tree.
    pub fn next(&self) -> u32
        ensures { result ≡ self.now.next }
    {
        self.next
    }

    /// The number above all variables of the tree.
    pub fn vars(&self) -> u32
        ensures { result ≡ self.now.vars }
    {
        self.vars
    }

    /// The node that has this one as a child, and none at the root.
    pub fn parent(&self, node: NodeId) -> Option<NodeId>
        requires { IsNode self.now node }
        ensures parent { AtNode self.now node (λ n. result ≡ n.parent) }
        ensures none { IfNone result (node ≡ self.now.root) }
        ensures root { node ≡ self.now.root → result ≡ None }
    {
        self.nodes[node.key as usize].parent()
    }

    /// The node's bindings.
    pub fn bindings(&self, node: NodeId) -> &Bindings
        requires { IsNode self.now node }
        ensures { AtNode self.now node (λ n. StandForBindings result.now n.bindings) }
    {
        self.nodes[node.key as usize].bindings()
    }

    /// The indicator by which the node's children differ, and none at a leaf.
    pub fn split(&self, node: NodeId) -> Option<u32>
        requires { IsNode self.now node }
        ensures { AtNode self.now node (λ n. result ≡ split_of n.content) }
    {
        self.nodes[node.key as usize].split()
    }

    /// The nodes below the node. A leaf has none.
    pub fn children(&self, node: NodeId) -> &[NodeId]
        requires { IsNode self.now node }
        ensures { AtNode self.now node (λ n. result.now ≡ children_of n.content) }
    {
        self.nodes[node.key as usize].children()
    }

    /// The heads of the node's children, in the same order. A leaf has none.
    pub fn heads(&self, node: NodeId) -> &[Head]
        requires { IsNode self.now node }
        ensures { AtNode self.now node (λ n. AreKnown self.now n.content result.now) }
    {
        self.nodes[node.key as usize].heads()
    }

    /// A number above those of all variables that are heads of the node's children. Where these
    /// were many once, it needn't be the least.
    pub fn head_vars(&self, node: NodeId) -> usize
        requires { IsNode self.now node }
        ensures below { (child number : ℕ) → IsChildBy self.now node (Var number) child
            → number < result }
        ensures few { result ≤ 2 ^ 32 }
    {
        self.nodes[node.key as usize].head_vars()
    }

    /// The postings of a leaf. Another node has none.
    pub fn postings(&self, node: NodeId) -> Postings<'_>
        requires { IsNode self.now node }
        ensures { AtNode self.now node (λ n. result ≡ postings_of n.content) }
    {
        self.nodes[node.key as usize].postings()
    }

    /// The child that has this head.
    pub fn child(&self, node: NodeId, head: Head) -> Option<NodeId>
        requires { IsNode self.now node }
        ensures some { IfSome result (λ child. IsChildBy self.now node head child) }
        ensures none { IfNone result ((child : ℕ) → IsChildBy self.now node head child → ⊥) }
    {
        let above = &self.nodes[node.key as usize];
        let place = above.child_place(head)?;
        Some(above.children()[place])
    }

    /// Appends a posting to those of a leaf. At an error the tree is as before.
    pub fn add_posting(&mut self, leaf: NodeId, posting: Posting) -> Result<(), AllocError>
        requires { MayAddPosting self.old leaf posting }
        ensures ok { OnOk result (AddsPosting self.old self.new leaf posting) }
        ensures err { OnErr result (self.new ≡ self.old) }
    {
        let node = &mut self.nodes[leaf.key as usize];
        let before = node.unmerged();
        node.add_posting(self.alloc, posting)?;
        self.unmerged -= before;
        Ok(())
    }

    /// Takes a posting from those of a leaf. It takes no memory.
    pub fn drop_posting(&mut self, leaf: NodeId, posting: Posting)
        requires { HasPosting self.old leaf posting }
        ensures { DropsPosting self.old self.new leaf posting }
    {
        let node = &mut self.nodes[leaf.key as usize];
        node.drop_posting(posting);
        let after = node.unmerged();
        self.unmerged += after;
    }

    /// Puts a leaf below an inner node. At an error the tree is as before.
    pub fn add_leaf(
        &mut self,
        parent: NodeId,
        bindings: Bindings,
        posting: Posting,
    ) -> Result<NodeId, AllocError>
        requires whole { AreWhole bindings }
        requires may { MayAddLeaf self.old parent (bindings_of bindings) posting }
        ensures ok { IfOk result (HasNewLeaf self.old self.new parent (bindings_of bindings)
            posting) }
        ensures err { OnErr result (self.new ≡ self.old) }
    {
        let Some(split) = self.split(parent) else {
            unreachable!()
        };
        let Some(head) = head_at(&bindings, split) else {
            unreachable!()
        };
        let vars = self.vars.max(beyond_entries(&bindings));
        let node = TreeNode::leaf(parent, bindings, posting)?;
        make_room(self.alloc, &mut self.nodes, parent.key as usize)?;
        let key = self.nodes.insert_reserved(node);
        let leaf = NodeId { key: key as u32 };
        let nodes = self.nodes.len() as u64;
        prove!(self.leaves < nodes);
        let node = &mut self.nodes[parent.key as usize];
        node.push_child(head, leaf);
        self.vars = vars;
        self.leaves += 1;
        Ok(leaf)
    }

    /// Splits a node against a new leaf: what both have in common becomes an inner node in the
    /// node's place, and the node and the leaf go below it. The node keeps its name. At an error
    /// the tree is as before.
    pub fn split_node(
        &mut self,
        node: NodeId,
        split: Split,
        others: Bindings,
        posting: Posting,
    ) -> Result<NodeId, AllocError>
        requires whole { AreWholeParts split others }
        requires may { MaySplitNode self.old node (parts_of split) (bindings_of others) posting }
        ensures ok { IfOk result (HasSplitLeaf self.old self.new node (parts_of split)
            (bindings_of others) posting) }
        ensures err { OnErr result (self.new ≡ self.old) }
    {
        let Some(parent) = self.parent(node) else {
            unreachable!()
        };
        let Split {
            common,
            rest_node,
            rest_new,
        } = split;
        let first = rest_node.left(0);
        let Some(head) = head_at(&rest_node, first) else {
            unreachable!()
        };
        let Some(new_head) = head_at(&rest_new, first) else {
            unreachable!()
        };
        let next = next_after(&rest_node, self.next);
        let bindings = joined(self.alloc, rest_new, &others)?;
        let vars = self.vars.max(beyond_entries(&bindings));
        let leaf = TreeNode::leaf(parent, bindings, posting)?;
        let fork = TreeNode::fork(self.alloc, parent, common, first, head, node)?;
        reserve_nodes(&mut self.nodes, 2)?;
        let (_, added) = put_between(
            &mut self.nodes,
            node,
            parent,
            fork,
            rest_node,
            leaf,
            new_head,
        );
        let nodes = self.nodes.len() as u64;
        prove!(self.leaves < nodes);
        self.next = next;
        self.vars = vars;
        self.leaves += 1;
        Ok(added)
    }
}

// Makes room for one more node, and for one more child of this one.
fn make_room(alloc: Global, nodes: &mut Slab<TreeNode>, parent: usize) -> Result<(), AllocError>
    requires { IsInnerAt nodes.old parent }
    ensures same { StaySame nodes.old nodes.new parent }
    ensures room { OnOk result (HasRoomBelow nodes.new parent) }
{
    let node = &mut nodes[parent];
    node.reserve_child(alloc)?;
    reserve_nodes(nodes, 1)
}

// Makes room for so many more nodes. Their keys are kept in 32 bits each, so room for more nodes
// than these can name is answered as want of memory.
fn reserve_nodes(nodes: &mut Slab<TreeNode>, more: usize) -> Result<(), AllocError>
    ensures room { OnOk result (HasRoomFor nodes.new more) }
    ensures named { OnOk result (HaveShortKeys nodes.new) }
    ensures full { OnErr result (HasRoomFor nodes.old more → 2 ^ 32 ≤ nodes.new.capacity) }
    ensures rest_kept { nodes.new ≡ record nodes.old { capacity = nodes.new.capacity } }
{
    nodes.reserve(more)?;
    if nodes.capacity() > u32::MAX as usize {
        return Err(AllocError);
    }
    Ok(())
}

// Puts an inner node between a node and its parent, and a new leaf below it. The inner node has the
// node as its child already. Answers both new nodes.
fn put_between(
    nodes: &mut Slab<TreeNode>,
    node: NodeId,
    parent: NodeId,
    fork: TreeNode,
    rest: Bindings,
    leaf: TreeNode,
    head: Head,
) -> (NodeId, NodeId)
    requires { MayPutBetween nodes.old node parent fork head }
    ensures { IsPutBetween nodes.old nodes.new node parent fork rest leaf head result.0
        result.1 }
{
    let node_head = head_below(nodes, node, parent);
    let fork_key = nodes.insert_reserved(fork);
    let fork_id = NodeId {
        key: fork_key as u32,
    };
    let leaf_key = nodes.insert_reserved(leaf.put_below(fork_id));
    let leaf_id = NodeId {
        key: leaf_key as u32,
    };
    let forked = &mut nodes[fork_key];
    forked.push_child(head, leaf_id);
    let below = &mut nodes[node.key as usize];
    below.move_below(fork_id, rest);
    let above = &mut nodes[parent.key as usize];
    above.relink(node_head, fork_id);
    (fork_id, leaf_id)
}
