// A leaf that goes, and its parent with it where one other child is left.
ghost use Rattle.std.specs.Prelude.{◌≡◌, None};
ghost use Rattle.slab.specs.Slab.{ContainsKey, Updates};
ghost use Rattle.si_tree.specs.Dropping.{AreTakenOut, Drops, IsTakenOut, MayDrop, MayTakeBoth, MayTakeOut};

use crate::node::{NodeId, TreeNode};
use crate::rights::head_below;
use crate::tree::Tree;
use si_flat::Bindings;
use slab::Slab;

impl Tree {
    /// Takes out a leaf without a posting. Where its parent is left with one child, and isn't the
    /// root, that child takes the parent's place with the bindings given, and keeps its name. It
    /// takes no memory.
    pub fn drop_leaf(&mut self, leaf: NodeId, joined: Option<Bindings>)
        requires { MayDrop self.old leaf joined }
        ensures { Drops self.old self.new leaf joined }
    {
        match joined {
            None => self.take_leaf(leaf),
            Some(bindings) => self.join(leaf, bindings),
        }
    }

    // Takes out a leaf whose parent stays.
    fn take_leaf(&mut self, leaf: NodeId)
        requires { MayDrop self.old leaf None }
        ensures { Drops self.old self.new leaf None }
    {
        take_out(&mut self.nodes, leaf);
        self.leaves -= 1;
        self.unmerged -= 1;
    }

    // Takes out a leaf, and joins its parent with the other child.
    fn join(&mut self, leaf: NodeId, bindings: Bindings)
        requires { MayDrop self.old leaf (Some bindings) }
        ensures { Drops self.old self.new leaf (Some bindings) }
    {
        take_both(&mut self.nodes, leaf, bindings);
        self.leaves -= 1;
        self.unmerged -= 1;
    }
}

// Takes out a leaf, and takes it from its parent's children.
fn take_out(nodes: &mut Slab<TreeNode>, leaf: NodeId)
    requires { MayTakeOut nodes.old leaf }
    ensures { IsTakenOut nodes.old nodes.new leaf }
{
    let Some(parent) = nodes[leaf.key as usize].parent() else {
        unreachable!()
    };
    let head = head_below(nodes, leaf, parent);
    vacate(nodes, leaf.key as usize);
    let above = &mut nodes[parent.key as usize];
    above.drop_child(head);
}

// Takes out a leaf and its parent, and puts the other child in the parent's place.
fn take_both(nodes: &mut Slab<TreeNode>, leaf: NodeId, bindings: Bindings)
    requires { MayTakeBoth nodes.old leaf }
    ensures { (may : MayTakeBoth nodes.old leaf)
        → AreTakenOut nodes.old nodes.new leaf bindings may }
{
    let Some(parent) = nodes[leaf.key as usize].parent() else {
        unreachable!()
    };
    let Some(upper) = nodes[parent.key as usize].parent() else {
        unreachable!()
    };
    let other = nodes[parent.key as usize].child_besides(leaf);
    let head = head_below(nodes, parent, upper);
    vacate(nodes, leaf.key as usize);
    vacate(nodes, parent.key as usize);
    let below = &mut nodes[other.key as usize];
    below.move_below(upper, bindings);
    let above = &mut nodes[upper.key as usize];
    above.relink(head, other);
}

// Takes out a node.
fn vacate(nodes: &mut Slab<TreeNode>, key: usize)
    requires { ContainsKey nodes.old key }
    ensures { Updates nodes.old nodes.new key None }
{
    nodes.remove(key);
}
