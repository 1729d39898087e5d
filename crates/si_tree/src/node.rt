// The nodes of a tree.
ghost use Rattle.std.specs.Prelude.{◌≡◌, ◌<◌, ◌≤◌, ◌^◌, IfOk, ◌++◌, ◌∷◌, OnOk, OnErr, [], IfSome, IfNone, length, ℕ, IsPermutation, Some, set, slice_get};
ghost use Rattle.std.specs.List.{swap_remove};
ghost use Rattle.si_defs.specs.Substitutions.{AreDistinct, IsAmong};
ghost use Rattle.si_legal.specs.Trees.{leaf};
ghost use Rattle.si_legal.specs.Counts.{unmerged_of};
ghost use Rattle.si_tree.specs.Forks.{fork_children, fork_heads, fork_split};
ghost use Rattle.si_tree.specs.HashedHeads.{AreVariablesBelow};
ghost use Rattle.si_tree.specs.KeptHeads.{heads_in};
ghost use Rattle.si_tree.specs.KeptNodes.{content_of, heads_of, moved_below, GainsChild, HasChildBy, RelinksChild, HasRoomForChild, HaveRoom, IsFork, IsInnerNode, IsLeafWith, IsLeafNode, IsNewRoot, IsSameBut, IsSameNode, postings_in};
ghost use Rattle.si_tree.specs.Changes.{IsWithout};
ghost use Rattle.si_tree.specs.Dropping.{HasBesides, LosesChild};
ghost use Rattle.si_tree.specs.Reading.{children_of, postings_of, split_of};
ghost use Rattle.si_tree.specs.Nodes.{content_in, parent_in};
ghost use Rattle.si_tree.specs.Renumbers.{with_numbers, with_split};
ghost use Rattle.si_tree.specs.Slots.{standing};

use crate::fork::Fork;
use crate::hashed::beyond_variables;
use crate::heads::{FIRST_ROOM, Heads, place_of_head};
use crate::postings::{PostingList, Postings, Slot};
use si_flat::Bindings;
use si_legal::Posting;
use std::alloc::{AllocError, Global};
use std::marker::Model;
use std::mem::replace;

/// Names a node of a tree. Contracts see its key.
#[derive(Clone, Copy, Debug, PartialEq, Eq)]
pub struct NodeId {
    pub(crate) key: u32,
}

impl Model for NodeId {
    ghost use Rattle.std.specs.Prelude.{ℕ};

    ghost Value = { ℕ };

    ghost view = { λ n. n.key };

    ghost inverse = { λ key. record { key = key } };
}

impl NodeId {
    /// The node with this number.
    pub fn with_number(number: u32) -> NodeId
        ensures { result ≡ number }
    {
        NodeId { key: number }
    }

    /// Its number, by which it can be kept.
    pub fn number(self) -> u32
        ensures { result ≡ self }
    {
        self.key
    }
}

/// How many nodes a tree has.
#[derive(Clone, Copy, Debug, PartialEq, Eq)]
pub struct Counts {
    /// All nodes.
    pub nodes: u64,
    /// The leaves among them.
    pub leaves: u64,
    /// The leaves without a posting.
    pub unmerged: u64,
}

/// What a child gives the split of its parent: a symbol, or a variable of an entry.
#[derive(Clone, Copy, Debug, PartialEq, Eq, Hash)]
pub enum Head {
    /// The symbol with this number and so many arguments.
    Sym {
        /// Its number.
        sym: u32,
        /// The number of its arguments.
        arity: u32,
    },
    /// The variable of an entry with this number.
    Var(u32),
}

/// A node. Contracts see its parent, its bindings, and what stands below it.
#[derive(Drop)]
pub(crate) struct TreeNode {
    bindings: Bindings,
    below: Below,
}

/// What stands below a node, and its parent, whose name shares the room of the mark: an inner node
/// has children, a leaf postings.
#[derive(Drop)]
pub(crate) enum Below {
    /// The children of the root, which has no parent.
    Root(Box<Branches>),
    /// The children of an inner node that never had more than two.
    Fork(NodeId, Box<Fork>),
    /// The children of an inner node that had three once.
    Inner(NodeId, Box<Branches>),
    /// A leaf's first posting, if it still stands.
    One(NodeId, Slot),
    /// A leaf's postings, once there were two.
    Many(NodeId, Box<PostingList>),
}

impl Model for TreeNode {
    ghost use Rattle.si_tree.specs.Nodes.{TreeNode, content_in, parent_in};

    ghost Value = { TreeNode };

    ghost view = { λ n. record {
      parent = parent_in n.below;
      bindings = n.bindings;
      content = content_in n.below;
    } };
}

/// The children of a node. They are told apart by their heads, which stand in the same order.
#[derive(Drop)]
pub(crate) struct Branches {
    pub(crate) split: u32,
    pub(crate) heads: Heads,
    pub(crate) children: Vec<NodeId>,
}

impl Below {
    // A leaf with the posting of a slot, if one stands there, and another one.
    fn with_another(
        alloc: Global,
        parent: NodeId,
        slot: Slot,
        posting: Posting,
    ) -> Result<Below, AllocError>
        ensures parent { IfOk result (λ below. parent_in below ≡ Some parent) }
        ensures content { IfOk result (λ below. content_of (content_in below)
            ≡ leaf (standing (slot ∷ []) ++ posting ∷ [])) }
    {
        if !slot.stands() {
            return Ok(Below::One(parent, Slot::of(posting)?));
        }
        let postings = PostingList::two(alloc, slot, posting)?;
        Ok(Below::Many(parent, Box::new(alloc, postings)?))
    }

    // The same, below another node.
    fn put_below(self, parent: NodeId) -> Below
        ensures parent { parent_in result ≡ Some parent }
        ensures content { content_in result ≡ content_in self }
    {
        match self {
            Below::Root(branches) => Below::Inner(parent, branches),
            Below::Fork(_, fork) => Below::Fork(parent, fork),
            Below::Inner(_, branches) => Below::Inner(parent, branches),
            Below::One(_, slot) => Below::One(parent, slot),
            Below::Many(_, postings) => Below::Many(parent, postings),
        }
    }

    // The place of the child that has this head.
    fn child_place(&self, head: Head) -> Option<usize>
        ensures some { IfSome result (λ place. slice_get (heads_of (content_in self.now)) place
            ≡ Some head) }
        ensures none { IfNone result (IsAmong (heads_of (content_in self.now)) head → ⊥) }
    {
        match self {
            Below::Root(branches) => branches.heads.place(head),
            Below::Fork(_, fork) => place_of_head(fork.heads(), head),
            Below::Inner(_, branches) => branches.heads.place(head),
            Below::One(_, _) => None,
            Below::Many(_, _) => None,
        }
    }

    // Gives an inner node another split.
    fn renumber(&mut self, split: u32)
        ensures parent { parent_in self.new ≡ parent_in self.old }
        ensures content { content_in self.new ≡ with_split split (content_in self.old) }
    {
        match self {
            Below::Root(branches) => branches.split = split,
            Below::Fork(_, fork) => fork.renumber(split),
            Below::Inner(_, branches) => branches.split = split,
            Below::One(_, _) => (),
            Below::Many(_, _) => (),
        }
    }
}

impl Branches {
    /// No children.
    pub(crate) fn new(alloc: Global, split: u32) -> Branches
        ensures split { result.split ≡ split }
        ensures heads { heads_in result.heads ≡ [] }
        ensures children { result.children.items ≡ [] }
    {
        Branches {
            split,
            heads: Heads::new(alloc),
            children: Vec::new(alloc),
        }
    }

    /// Makes room for one more child.
    fn reserve(&mut self, alloc: Global) -> Result<(), AllocError>
        requires { AreDistinct (heads_in self.old.heads) }
        ensures split { self.new.split ≡ self.old.split }
        ensures heads { heads_in self.new.heads ≡ heads_in self.old.heads }
        ensures children { self.new.children.items ≡ self.old.children.items }
        ensures room { OnOk result (HaveRoom self.new) }
    {
        self.heads.reserve(alloc)?;
        self.children.reserve(1)
    }

    // Appends a child, for which there is room.
    fn push(&mut self, head: Head, child: NodeId)
        requires room { HaveRoom self.old }
        requires new { IsAmong (heads_in self.old.heads) head → ⊥ }
        ensures split { self.new.split ≡ self.old.split }
        ensures heads { heads_in self.new.heads ≡ heads_in self.old.heads ++ head ∷ [] }
        ensures children { self.new.children.items ≡ self.old.children.items ++ child ∷ [] }
    {
        self.heads.push(head);
        self.children.push_reserved(child);
    }

    // Puts another child in the place of one.
    fn relink(&mut self, place: usize, child: NodeId)
        requires { place < length self.old.children.items }
        ensures split { self.new.split ≡ self.old.split }
        ensures heads { heads_in self.new.heads ≡ heads_in self.old.heads }
        ensures children { self.new.children.items ≡ set self.old.children.items place child }
    {
        self.children[place] = child;
    }

    // Takes out the child that has this head, and answers its place, which the last one takes.
    fn remove(&mut self, head: Head) -> usize
        requires among { IsAmong (heads_in self.old.heads) head }
        requires inside { (place : ℕ) → slice_get (heads_in self.old.heads) place ≡ Some head
            → place < length self.old.children.items }
        ensures place { slice_get (heads_in self.old.heads) result ≡ Some head }
        ensures split { self.new.split ≡ self.old.split }
        ensures heads { heads_in self.new.heads
            ≡ swap_remove (heads_in self.old.heads) result head }
        ensures children { (child : ℕ) → slice_get self.old.children.items result ≡ Some child
            → self.new.children.items ≡ swap_remove self.old.children.items result child }
    {
        let place = self.heads.remove(head);
        self.children.swap_remove(place);
        place
    }

    /// The children of a fork, and room for another.
    fn of(alloc: Global, fork: &Fork) -> Result<Branches, AllocError>
        ensures split { IfOk result (λ b. b.split ≡ fork_split fork.now) }
        ensures heads { IfOk result (λ b. heads_in b.heads ≡ fork_heads fork.now) }
        ensures children { IfOk result (λ b. b.children.items ≡ fork_children fork.now) }
        ensures room { IfOk result HaveRoom }
    {
        let heads = Heads::few(alloc, fork.heads())?;
        let mut children = Vec::with_capacity(alloc, FIRST_ROOM)?;
        children.extend_from_slice(fork.children())?;
        children.reserve(1)?;
        Ok(Branches {
            split: fork.split(),
            heads,
            children,
        })
    }
}

impl TreeNode {
    /// The root, which binds nothing, with no children.
    pub(crate) fn root(alloc: Global) -> Result<TreeNode, AllocError>
        ensures { IfOk result IsNewRoot }
    {
        let branches = Branches::new(alloc, 0);
        Ok(TreeNode {
            bindings: Bindings::new(alloc),
            below: Below::Root(Box::new(alloc, branches)?),
        })
    }

    /// An inner node with one child, and room for another.
    pub(crate) fn fork(
        alloc: Global,
        parent: NodeId,
        bindings: Bindings,
        split: u32,
        head: Head,
        child: NodeId,
    ) -> Result<TreeNode, AllocError>
        ensures { IfOk result (IsFork parent bindings split head child) }
    {
        let fork = Fork::new(split, head, child);
        Ok(TreeNode {
            bindings,
            below: Below::Fork(parent, Box::new(alloc, fork)?),
        })
    }

    /// A leaf with one posting.
    pub(crate) fn leaf(
        parent: NodeId,
        bindings: Bindings,
        posting: Posting,
    ) -> Result<TreeNode, AllocError>
        ensures leaf { IfOk result (IsLeafWith bindings posting) }
        ensures parent { IfOk result (λ node. node.parent ≡ Some parent) }
    {
        let slot = Slot::of(posting)?;
        Ok(TreeNode {
            bindings,
            below: Below::One(parent, slot),
        })
    }

    /// The node's parent, and none at the root.
    pub(crate) fn parent(&self) -> Option<NodeId>
        ensures { result ≡ self.now.parent }
    {
        match &self.below {
            Below::Root(_) => None,
            Below::Fork(parent, _) => Some(*parent),
            Below::Inner(parent, _) => Some(*parent),
            Below::One(parent, _) => Some(*parent),
            Below::Many(parent, _) => Some(*parent),
        }
    }

    /// The node's bindings.
    pub(crate) fn bindings(&self) -> &Bindings
        ensures { result.now ≡ self.now.bindings }
    {
        &self.bindings
    }

    /// The postings of a leaf. An inner node has none.
    pub(crate) fn postings(&self) -> Postings<'_>
        ensures { result ≡ postings_of (content_of self.now.content) }
    {
        match &self.below {
            Below::Root(_) => Postings::none(),
            Below::Fork(_, _) => Postings::none(),
            Below::Inner(_, _) => Postings::none(),
            Below::One(_, slot) => slot.postings(),
            Below::Many(_, postings) => postings.all(),
        }
    }

    /// The indicator by which the children differ, and none at a leaf.
    pub(crate) fn split(&self) -> Option<u32>
        ensures { result ≡ split_of (content_of self.now.content) }
    {
        match &self.below {
            Below::Root(branches) => Some(branches.split),
            Below::Fork(_, fork) => Some(fork.split()),
            Below::Inner(_, branches) => Some(branches.split),
            Below::One(_, _) => None,
            Below::Many(_, _) => None,
        }
    }

    /// The children. A leaf has none.
    pub(crate) fn children(&self) -> &[NodeId]
        ensures { result.now ≡ children_of (content_of self.now.content) }
    {
        match &self.below {
            Below::Root(branches) => branches.children.as_slice(),
            Below::Fork(_, fork) => fork.children(),
            Below::Inner(_, branches) => branches.children.as_slice(),
            Below::One(_, _) => Default::default(),
            Below::Many(_, _) => Default::default(),
        }
    }

    /// The heads of the children. A leaf has none.
    pub(crate) fn heads(&self) -> &[Head]
        ensures { result.now ≡ heads_of self.now.content }
    {
        match &self.below {
            Below::Root(branches) => branches.heads.as_slice(),
            Below::Fork(_, fork) => fork.heads(),
            Below::Inner(_, branches) => branches.heads.as_slice(),
            Below::One(_, _) => Default::default(),
            Below::Many(_, _) => Default::default(),
        }
    }

    /// A number above those of all variables among the heads.
    pub(crate) fn head_vars(&self) -> usize
        ensures below { AreVariablesBelow result (heads_of self.now.content) }
        ensures few { result ≤ 2 ^ 32 }
    {
        match &self.below {
            Below::Root(branches) => branches.heads.vars(),
            Below::Fork(_, fork) => beyond_variables(fork.heads()),
            Below::Inner(_, branches) => branches.heads.vars(),
            Below::One(_, _) => 0,
            Below::Many(_, _) => 0,
        }
    }

    /// The place of the child that has this head.
    pub(crate) fn child_place(&self, head: Head) -> Option<usize>
        ensures some { IfSome result (λ place. slice_get (heads_of self.now.content) place
            ≡ Some head) }
        ensures none { IfNone result (IsAmong (heads_of self.now.content) head → ⊥) }
    {
        self.below.child_place(head)
    }

    /// 1 where this is a leaf without a posting, else 0.
    pub(crate) fn unmerged(&self) -> u64
        ensures { result ≡ unmerged_of (content_of self.now.content) }
    {
        match &self.below {
            Below::Root(_) => 0,
            Below::Fork(_, _) => 0,
            Below::Inner(_, _) => 0,
            Below::One(_, slot) => u64::from(!slot.stands()),
            Below::Many(_, postings) => u64::from(postings.all().is_empty()),
        }
    }

    /// Makes room for one more child.
    pub(crate) fn reserve_child(&mut self, alloc: Global) -> Result<(), AllocError>
        requires inner { IsInnerNode self.old }
        requires distinct { AreDistinct (heads_of self.old.content) }
        ensures same { IsSameNode self.old self.new }
        ensures room { OnOk result (HasRoomForChild self.new) }
    {
        let below = match &mut self.below {
            Below::Root(branches) => return branches.reserve(alloc),
            Below::Fork(parent, fork) => {
                if fork.heads().len() < 2 {
                    return Ok(());
                }
                let branches = Branches::of(alloc, fork)?;
                Below::Inner(*parent, Box::new(alloc, branches)?)
            }
            Below::Inner(_, branches) => return branches.reserve(alloc),
            Below::One(_, _) => unreachable!(),
            Below::Many(_, _) => unreachable!(),
        };
        self.below = below;
        Ok(())
    }

    /// Appends a child, for which there is room.
    pub(crate) fn push_child(&mut self, head: Head, child: NodeId)
        requires room { HasRoomForChild self.old }
        requires new { IsAmong (heads_of self.old.content) head → ⊥ }
        ensures { GainsChild self.old self.new head child }
    {
        match &mut self.below {
            Below::Root(branches) => branches.push(head, child),
            Below::Fork(_, fork) => fork.push(head, child),
            Below::Inner(_, branches) => branches.push(head, child),
            Below::One(_, _) => unreachable!(),
            Below::Many(_, _) => unreachable!(),
        }
    }

    /// Puts the node below another, with other bindings.
    pub(crate) fn move_below(&mut self, parent: NodeId, bindings: Bindings)
        ensures { self.new ≡ moved_below self.old parent bindings }
    {
        let below = replace(&mut self.below, Below::One(parent, Slot::vacant()));
        self.below = below.put_below(parent);
        self.bindings = bindings;
    }

    /// The node, below another.
    pub(crate) fn put_below(self, parent: NodeId) -> TreeNode
        ensures { result ≡ moved_below self parent self.bindings }
    {
        let TreeNode { bindings, below } = self;
        TreeNode {
            bindings,
            below: below.put_below(parent),
        }
    }

    /// Gives the node other bindings, and another split where it has one.
    pub(crate) fn renumber(&mut self, bindings: Bindings, split: u32)
        ensures { self.new ≡ with_numbers bindings split self.old }
    {
        self.bindings = bindings;
        self.below.renumber(split);
    }

    /// Puts another child in the place of the one that has this head.
    pub(crate) fn relink(&mut self, head: Head, other: NodeId)
        requires { (child : ℕ) × HasChildBy self.old head child }
        ensures { (child : ℕ) → HasChildBy self.old head child
            → RelinksChild self.old self.new child other }
    {
        let Some(at) = self.below.child_place(head) else {
            unreachable!()
        };
        match &mut self.below {
            Below::Root(branches) => branches.relink(at, other),
            Below::Fork(_, fork) => fork.relink(at, other),
            Below::Inner(_, branches) => branches.relink(at, other),
            Below::One(_, _) => unreachable!(),
            Below::Many(_, _) => unreachable!(),
        }
    }

    /// Takes out the child that has this head. The last child takes its place.
    pub(crate) fn drop_child(&mut self, head: Head)
        requires { (child : ℕ) × HasChildBy self.old head child }
        ensures { (child : ℕ) → HasChildBy self.old head child
            → LosesChild self.old self.new child }
    {
        match &mut self.below {
            Below::Root(branches) => {
                branches.remove(head);
            }
            Below::Fork(_, fork) => {
                let Some(at) = place_of_head(fork.heads(), head) else {
                    unreachable!()
                };
                fork.remove(at);
            }
            Below::Inner(_, branches) => {
                branches.remove(head);
            }
            Below::One(_, _) => unreachable!(),
            Below::Many(_, _) => unreachable!(),
        }
    }

    /// The child that stands beside this one alone.
    pub(crate) fn child_besides(&self, child: NodeId) -> NodeId
        requires { (other : ℕ) × HasBesides self.now child other }
        ensures { (other : ℕ) → HasBesides self.now child other → result ≡ other }
    {
        besides(self.children(), child)
    }

    /// Appends a posting to those of a leaf.
    pub(crate) fn add_posting(&mut self, alloc: Global, posting: Posting) -> Result<(), AllocError>
        requires { IsLeafNode self.old }
        ensures stays { IsSameBut self.old self.new }
        ensures ok { OnOk result (postings_in self.new ≡ postings_in self.old ++ posting ∷ []) }
        ensures err { OnErr result (postings_in self.new ≡ postings_in self.old) }
    {
        let below = match &mut self.below {
            Below::Root(_) => unreachable!(),
            Below::Fork(_, _) => unreachable!(),
            Below::Inner(_, _) => unreachable!(),
            Below::One(parent, slot) => Below::with_another(alloc, *parent, *slot, posting)?,
            Below::Many(_, postings) => return postings.push(alloc, posting),
        };
        self.below = below;
        Ok(())
    }

    /// Takes a posting from those of a leaf.
    pub(crate) fn drop_posting(&mut self, posting: Posting)
        requires leaf { IsLeafNode self.old }
        requires there { IsAmong (postings_in self.old) posting }
        ensures stays { IsSameBut self.old self.new }
        ensures dropped { IsWithout (postings_in self.old) posting (postings_in self.new) }
    {
        match &mut self.below {
            Below::Root(_) => unreachable!(),
            Below::Fork(_, _) => unreachable!(),
            Below::Inner(_, _) => unreachable!(),
            Below::One(_, slot) => slot.empty(),
            Below::Many(_, postings) => postings.remove(posting),
        }
    }
}

// The other one of two children.
fn besides(children: &[NodeId], child: NodeId) -> NodeId
    requires { length children.now ≡ 2 }
    ensures { (other : ℕ) → IsPermutation (child ∷ other ∷ []) children.now → result ≡ other }
{
    if children[0] == child {
        children[1]
    } else {
        children[0]
    }
}
