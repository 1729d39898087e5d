// Indicators numbered anew, along each path in the order in which they are opened.
ghost use Rattle.std.specs.Prelude.{◌≡◌, ◌+◌, ◌<◌, ◌++◌, IfOk, IsTrue, OnErr, OnOk};
ghost use Rattle.si_legal.specs.Counts.{node_count};
ghost use Rattle.si_tree.specs.declared.renumber.TheConstants.{SPARE_NUMBERS};
ghost use Rattle.si_tree.specs.KeptNodes.{content_of};
ghost use Rattle.si_tree.specs.Reading.{children_of};
ghost use Rattle.si_tree.specs.Renumbers.{HasNotedSplit, split_in, visits, AreKeysOf, exchanged, IsRenumbering, Renumbers};

use crate::node::{NodeId, TreeNode};
use crate::numbers::{note_rights, renumbered};
use crate::tree::Tree;
use si_flat::Bindings;
use slab::Slab;
use std::alloc::AllocError;

// As few numbers as these are never worth a renumbering.
const SPARE_NUMBERS: u64 = 256;

// A number that is given pays for the visit of a node, or of so many cells.
const CELLS_A_NUMBER: usize = 16;

// A node that is to be numbered, and how many indicators are opened above it.
#[derive(Clone, Copy)]
struct Visit {
    node: NodeId,
    opened: u32,
}

// What a node is to have.
#[derive(Drop)]
struct Renumbered {
    node: NodeId,
    bindings: Bindings,
    split: u32,
}

// What all nodes are to have, the number above all indicators then, and how many cells of right
// sides there are.
#[derive(Drop)]
struct Renumbering {
    nodes: Vec<Renumbered>,
    next: u32,
    cells: usize,
}

impl Tree {
    /// Numbers the indicators anew: those that a node opens get the next numbers in order, from
    /// the number of those that are opened above it. At an error the tree is as before.
    pub fn renumber(&mut self) -> Result<(), AllocError>
        ensures ok { OnOk result (Renumbers self.old self.new) }
        ensures err { OnErr result (self.new ≡ self.old) }
    {
        // Should it fail, it isn't due again before the numbers have doubled.
        self.renumbered_next = self.next;
        let Renumbering { nodes, next, cells } = self.renumbering()?;
        exchange(&mut self.nodes, nodes);
        self.next = next;
        self.renumbered_next = next.max(worth_of(cells));
        Ok(())
    }

    /// Whether so many numbers were given since the last renumbering that they pay for the next
    /// one, which visits each node once, with all its cells.
    pub fn should_renumber(&self) -> bool
        ensures { IsTrue result → node_count self.now + SPARE_NUMBERS < self.now.next }
    {
        let spare = 2 * u64::from(self.renumbered_next) + SPARE_NUMBERS;
        u64::from(self.next) > spare.saturating_add(self.nodes.len() as u64)
    }

    // What all nodes are to have.
    fn renumbering(&self) -> Result<Renumbering, AllocError>
        ensures { IfOk result (IsRenumbering self.now) }
    {
        let mut numbers = vec![in self.alloc; 0u32; self.next as usize]?;
        let mut left = Vec::new(self.alloc);
        left.push(Visit {
            node: self.root,
            opened: 1,
        })?;
        let mut nodes = Vec::with_capacity(self.alloc, self.nodes.len())?;
        let mut next: u32 = 1;
        let mut cells: usize = 0;
        while let Some(visit) = left.pop() {
            let node = &self.nodes[visit.node.key as usize];
            let opened = note_rights(&mut numbers, node.bindings(), visit.opened);
            nodes.push(Renumbered {
                node: visit.node,
                bindings: renumbered(self.alloc, numbers.as_slice(), node.bindings())?,
                split: split_in(node, numbers.as_slice()),
            })?;
            stack(&mut left, node.children(), opened)?;
            next = next.max(opened);
            cells = cells.saturating_add(node.bindings().cells());
        }
        Ok(Renumbering { nodes, next, cells })
    }
}

// How many numbers pay for a visit of so many cells.
fn worth_of(cells: usize) -> u32 {
    u32::try_from(cells / CELLS_A_NUMBER).unwrap_or(u32::MAX)
}

// The number that is noted for the split, and any at a leaf.
fn split_in(node: &TreeNode, numbers: &[u32]) -> u32
    requires { HasNotedSplit (content_of node.now.content) numbers.now }
    ensures { result ≡ split_in (content_of node.now.content) numbers.now }
{
    match node.split() {
        Some(split) => numbers[split as usize],
        None => 0,
    }
}

// Has the children wait. So many indicators are opened above them.
fn stack(left: &mut Vec<Visit>, children: &[NodeId], opened: u32) -> Result<(), AllocError>
    ensures { OnOk result (left.new.items ≡ left.old.items ++ visits opened children.now) }
{
    for child in children {
        left.push(Visit {
            node: *child,
            opened,
        })?;
    }
    Ok(())
}

// Gives all these nodes what they are to have.
fn exchange(nodes: &mut Slab<TreeNode>, all: Vec<Renumbered>)
    requires { AreKeysOf nodes.old all.items }
    ensures { nodes.new ≡ exchanged nodes.old all.items }
{
    for one in all {
        let Renumbered {
            node,
            bindings,
            split,
        } = one;
        let there = &mut nodes[node.key as usize];
        there.renumber(bindings, split);
    }
}
