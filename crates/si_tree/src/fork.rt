// The children of a node that has two at most.
ghost use Rattle.std.specs.Prelude.{◌≡◌, ◌<◌, ◌++◌, ◌∷◌, [], length, set, ℕ};
ghost use Rattle.std.specs.List.{swap_remove};
ghost use Rattle.si_tree.specs.declared.node.Head as head;
ghost use Rattle.si_tree.specs.Forks.{fork_split, fork_heads, fork_children};

use crate::node::{Head, NodeId};
use std::marker::Model;

/// Two children of a node at most, with their heads, in one block of memory. Contracts see the
/// split, the heads, and the children, which stand in the same order.
#[derive(Drop)]
pub(crate) struct Fork {
    split: u32,
    count: u32,
    heads: [Head; 2],
    children: [NodeId; 2],
}

impl Model for Fork {
    ghost use Rattle.std.specs.Prelude.{◌≡◌, ◌≤◌, ℕ, List, length, take};
    ghost use Rattle.si_tree.specs.declared.node.Head.{Head};

    ghost Value = { ℕ × List Head × List ℕ };

    ghost view = { λ f. (f.split, take f.count f.heads, take f.count f.children) };

    ghost invariant = { λ f. (f.count ≤ 2) × (length f.heads ≡ 2) × (length f.children ≡ 2) };
}

impl Fork {
    /// One child, and room for another.
    pub(crate) fn new(split: u32, head: Head, child: NodeId) -> Fork
        ensures { result ≡ (split, head ∷ [], child ∷ []) }
    {
        Fork {
            split,
            count: 1,
            heads: [head; 2],
            children: [child; 2],
        }
    }

    /// The indicator by which the children differ.
    pub(crate) fn split(&self) -> u32
        ensures { result ≡ fork_split self.now }
    {
        self.split
    }

    /// Gives it another split.
    pub(crate) fn renumber(&mut self, split: u32)
        ensures { self.new ≡ (split, fork_heads self.old, fork_children self.old) }
    {
        self.split = split;
    }

    /// The heads of the children.
    pub(crate) fn heads(&self) -> &[Head]
        ensures { result.now ≡ fork_heads self.now }
    {
        &self.heads[..self.count as usize]
    }

    /// The children.
    pub(crate) fn children(&self) -> &[NodeId]
        ensures { result.now ≡ fork_children self.now }
    {
        &self.children[..self.count as usize]
    }

    /// Appends a child, for which there is room.
    pub(crate) fn push(&mut self, head: Head, child: NodeId)
        requires { length (fork_heads self.old) < 2 }
        ensures { self.new ≡ (
          fork_split self.old,
          fork_heads self.old ++ head ∷ [],
          fork_children self.old ++ child ∷ [],
        ) }
    {
        let place = self.count as usize;
        self.heads[place] = head;
        self.children[place] = child;
        self.count += 1;
    }

    /// Puts another child in the place of one.
    pub(crate) fn relink(&mut self, place: usize, child: NodeId)
        requires { place < length (fork_children self.old) }
        ensures { self.new ≡ (
          fork_split self.old,
          fork_heads self.old,
          set (fork_children self.old) place child,
        ) }
    {
        if place == 0 {
            self.children[0] = child;
        } else {
            self.children[1] = child;
        }
    }

    /// Takes out a child. The last one takes its place.
    pub(crate) fn remove(&mut self, place: usize)
        requires { place < length (fork_children self.old) }
        ensures { (h : head.Head) → (child : ℕ) → self.new ≡ (
          fork_split self.old,
          swap_remove (fork_heads self.old) place h,
          swap_remove (fork_children self.old) place child,
        ) }
    {
        if place == 0 {
            self.heads[0] = self.heads[1];
            self.children[0] = self.children[1];
        }
        self.count -= 1;
    }
}
