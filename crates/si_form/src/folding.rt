// Folded terms, from the numbers of classes.
ghost use Rattle.std.specs.Prelude.{◌≡◌, ◌<◌, List, None, Some, length, slice_get, slice_index_or, reverse};
ghost use Rattle.std.specs.Prelude.{IfOk, OnOk};
ghost use Rattle.std.specs.List.{AllByRecursion};
ghost use Rattle.si_flat.specs.Cells.{Variable, Term};
ghost use Rattle.si_form.specs.Folding.{HasTerms, HasSymbol, UnfoldsClass, leaders_of, sizes_of, part_size, node_size, HasPartsBefore};
ghost use Rattle.si_form.specs.Folding.{AreSizes, WritesCells, CanFold, HasFolded, IsFolding};

use crate::classes::{Classes, Node};
use crate::leaders::leaders;
use indexmap::IndexSet;
use si_flat::Cell;
use si_unify::Slots;
use std::alloc::{AllocError, Global};
use std::marker::Model;

/// What is written for a class.
#[derive(Clone, Copy)]
struct Written {
    // The slot of its leader, if it has one, whose variable is written where the class is a part of
    // another,
    leader: Option<usize>,
    // and how many cells are written for it by itself.
    size: u32,
}

/// Classes, and what is written for each.
pub(crate) struct Folding {
    classes: Classes,
    written: Vec<Written>,
}

// It does what a derived one would, and is quicker to check (docs/PROVING.md, "Minutes").
impl Drop for Folding {
    fn drop(self) {
        let Folding {
            classes: _classes,
            written: _written,
        } = self;
    }
}

impl Model for Folding {
    ghost use Rattle.si_form.specs.Folding.{Folded, folded_of, IsFolding};

    ghost Value = { Folded };

    ghost view = { folded_of };

    ghost invariant = { λ f. IsFolding (folded_of f) };
}

// The symbol of a class and its arity. The classes of the arguments are piled up, the first one on
// top.
fn descend(
    nodes: &IndexSet<Node>,
    left: &mut Vec<usize>,
    class: usize,
) -> Result<(u32, u32), AllocError>
    requires { HasSymbol nodes.now.keys class }
    ensures { IfOk result (UnfoldsClass nodes.now.keys (reverse left.old.items)
        (reverse left.new.items) class) }
{
    let mut front = class;
    loop {
        match nodes.get_index(front) {
            Some(
                &Node::With {
                    front: before,
                    argument,
                },
            ) => {
                left.push(argument)?;
                front = before;
            }
            Some(&Node::Head { sym, arity }) => return Ok((sym, arity)),
            Some(&Node::Variable(_)) => unreachable!(),
            None => unreachable!(),
        }
    }
}

// How many cells are written for a class as a part of another: one for its leader, if it has one.
fn part_size(written: &[Written], class: usize) -> u32
    requires { class < length written.now }
    ensures { result ≡ part_size (slice_index_or (leaders_of written.now) class None)
        (slice_index_or (sizes_of written.now) class 0) }
{
    let Written { leader, size } = written[class];
    match leader {
        Some(_) => 1,
        None => size,
    }
}

// How many cells are written for a class, from what is written for those before.
fn node_size(written: &[Written], node: Node) -> u32
    requires { HasPartsBefore (length written.now) node }
    ensures { result ≡ node_size (sizes_of written.now) (leaders_of written.now) node }
{
    match node {
        Node::Variable(_) => 1,
        Node::Head { .. } => 1,
        Node::With { front, argument } => {
            written[front]
                .size
                .saturating_add(part_size(written, argument))
        }
    }
}

// What is written for each class. One that is too large to be written has the largest size.
fn written_for(
    alloc: Global,
    nodes: &IndexSet<Node>,
    leaders: &[Option<usize>],
) -> Result<Vec<Written>, AllocError>
    requires terms { HasTerms nodes.now.keys }
    requires led { length leaders.now ≡ length nodes.now.keys }
    ensures leaders { IfOk result (λ written. leaders_of written.items ≡ leaders.now) }
    ensures sizes { IfOk result (λ written. AreSizes nodes.now.keys leaders.now
        (length nodes.now.keys) (sizes_of written.items)) }
{
    let mut written = Vec::new(alloc);
    for class in 0..nodes.len() {
        let Some(&node) = nodes.get_index(class) else {
            unreachable!()
        };
        let leader = leaders[class];
        let size = node_size(&written, node);
        written.push(Written { leader, size })?;
    }
    Ok(written)
}

impl Folding {
    /// Finds the leaders and the sizes of these classes.
    pub(crate) fn of(alloc: Global, classes: Classes) -> Result<Folding, AllocError>
        requires terms { HasTerms classes.nodes.keys }
        requires inside { AllByRecursion (λ n. n < length classes.nodes.keys)
            classes.of_slots.items }
        ensures nodes { IfOk result (λ f. f.nodes ≡ classes.nodes.keys) }
        ensures classes { IfOk result (λ f. f.classes ≡ classes.of_slots.items) }
    {
        let leaders = leaders(alloc, &classes)?;
        let written = written_for(alloc, &classes.nodes, &leaders)?;
        Ok(Folding { classes, written })
    }

    /// The class of the variable of a slot.
    pub(crate) fn class_at(&self, slot: usize) -> usize
        requires { slot < length self.now.classes }
        ensures class { slice_get self.now.classes slot ≡ Some result }
        ensures folded { IsFolding self.now }
    {
        self.classes.of_slots[slot]
    }

    /// The slot of the leader of a class.
    pub(crate) fn leader_of(&self, class: usize) -> Option<usize>
        requires { class < length self.now.nodes }
        ensures { result ≡ slice_index_or self.now.leaders class None }
    {
        self.written[class].leader
    }

    // Writes the symbol of a class, and piles up the classes of its arguments.
    fn write_symbol(
        &self,
        left: &mut Vec<usize>,
        cells: &mut Vec<Cell>,
        class: usize,
    ) -> Result<(), AllocError>
        requires { HasSymbol self.now.nodes class }
        ensures { OnOk result (WritesCells self.now (reverse left.old.items)
            (reverse left.new.items) cells.old.items cells.new.items class) }
    {
        let (sym, arity) = descend(&self.classes.nodes, left, class)?;
        let len = self.written[class].size;
        cells.push(Cell::App { sym, arity, len })?;
        Ok(())
    }

    /// The cells of what a class stands for, its proper parts folded.
    pub(crate) fn fold(
        &self,
        alloc: Global,
        slots: &Slots,
        class: usize,
    ) -> Result<Vec<Cell>, AllocError>
        requires none { slots.now.inds ≡ 0 }
        requires folds { (f : Variable → Term) × (known : List Term) × (t : Term)
            × CanFold slots.now self.now class f known t }
        ensures { IfOk result (λ cells. HasFolded slots.now self.now class cells.items) }
    {
        let mut left = Vec::new(alloc);
        let mut cells = Vec::new(alloc);
        self.write_symbol(&mut left, &mut cells, class)?;
        for _ in 1..self.written[class].size {
            let Some(next) = left.pop() else {
                unreachable!()
            };
            let Some(slot) = self.leader_of(next) else {
                self.write_symbol(&mut left, &mut cells, next)?;
                continue;
            };
            cells.push(slots.cell_of(slot))?;
        }
        Ok(cells)
    }
}
