// Classes of terms that a list of bindings makes equal, each with a number.
ghost use Rattle.std.specs.Prelude.{◌≡◌, ◌+◌, ◌<◌, ◌≤◌, length, set, reverse, IfOk};
ghost use Rattle.std.specs.List.{AllByRecursion};
ghost use Rattle.si_flat.specs.Cells.{IsWhole};
ghost use Rattle.si_unify.specs.Solving.{slot_count, CellIsInRange, AreInRange};
ghost use Rattle.si_unify.specs.Solving.{IsAcyclic, IsBinding};
ghost use Rattle.si_form.specs.Classes.{Interns, Applies, argument_count, NumbersCell, HasClass, HasSingles, HasClasses};

use crate::order::order;
use crate::uses::uses;
use indexmap::IndexSet;
use si_flat::Cell;
use si_trail::Trail;
use si_unify::Slots;
use std::alloc::{AllocError, Global};

/// What the terms of a class are, by the numbers of other classes. Equal terms have one number.
#[derive(Clone, Copy, PartialEq, Eq, Hash)]
pub(crate) enum Node {
    /// A variable, by its slot.
    Variable(usize),
    /// A symbol, without its arguments.
    Head { sym: u32, arity: u32 },
    /// A term with one argument more.
    With { front: usize, argument: usize },
}

/// The classes of terms, and those of the variables, by their slots.
#[derive(Drop)]
pub(crate) struct Classes {
    pub(crate) nodes: IndexSet<Node>,
    pub(crate) of_slots: Vec<usize>,
}

// The number of a node.
fn intern(nodes: &mut IndexSet<Node>, node: Node) -> Result<usize, AllocError>
    ensures { IfOk result (Interns nodes.old.keys nodes.new.keys node) }
{
    let (number, _) = nodes.insert_full(node)?;
    Ok(number)
}

// The number of a symbol with the arguments whose numbers are piled up, the first one on top.
fn apply(
    nodes: &mut IndexSet<Node>,
    numbers: &mut Vec<usize>,
    sym: u32,
    arity: u32,
) -> Result<usize, AllocError>
    requires { arity ≤ length numbers.old.items }
    ensures applied { IfOk result (Applies nodes.old.keys nodes.new.keys
        (reverse numbers.old.items) (reverse numbers.new.items)
        (record { number = sym; arity = arity })) }
    ensures taken { IfOk result (λ n. length numbers.old.items
        ≡ arity + length numbers.new.items) }
{
    let mut front = intern(nodes, Node::Head { sym, arity })?;
    for _ in 0..arity {
        let Some(argument) = numbers.pop() else {
            unreachable!()
        };
        front = intern(nodes, Node::With { front, argument })?;
    }
    Ok(front)
}

// The number of the term that begins with the cell, where those of its arguments are piled up.
fn number_of(
    nodes: &mut IndexSet<Node>,
    numbers: &mut Vec<usize>,
    slots: &Slots,
    classes: &[usize],
    cell: Cell,
) -> Result<usize, AllocError>
    requires room { slot_count slots.now ≤ length classes.now }
    requires range { CellIsInRange slots.now cell }
    requires enough { argument_count cell ≤ length numbers.old.items }
    ensures numbered { IfOk result (NumbersCell slots.now classes.now nodes.old.keys nodes.new.keys
        (reverse numbers.old.items) (reverse numbers.new.items) cell) }
    ensures taken { IfOk result (λ n. length numbers.old.items
        ≡ argument_count cell + length numbers.new.items) }
{
    match cell {
        Cell::App { sym, arity, .. } => apply(nodes, numbers, sym, arity),
        Cell::Query(number) => Ok(classes[slots.query_slot(number)]),
        Cell::Entry(number) => Ok(classes[slots.entry_slot(number)]),
        Cell::Ind(number) => Ok(classes[slots.indicator_slot(number)]),
    }
}

// The number of a term, from those of its variables.
fn class_of(
    alloc: Global,
    nodes: &mut IndexSet<Node>,
    slots: &Slots,
    classes: &[usize],
    cells: &[Cell],
) -> Result<usize, AllocError>
    requires room { slot_count slots.now ≤ length classes.now }
    requires whole { IsWhole cells.now }
    requires range { AreInRange slots.now cells.now }
    ensures { IfOk result (HasClass nodes.old.keys nodes.new.keys slots.now classes.now
        cells.now) }
{
    let mut numbers = Vec::new(alloc);
    let mut at = cells.len();
    while at > 1 {
        at -= 1;
        let number = number_of(nodes, &mut numbers, slots, classes, cells[at])?;
        numbers.push(number)?;
    }
    number_of(nodes, &mut numbers, slots, classes, cells[0])
}

// For each variable a class of its own.
fn single_classes(alloc: Global, slots: &Slots) -> Result<Classes, AllocError>
    ensures { IfOk result (λ c. HasSingles slots.now c.nodes.keys c.of_slots.items
        (slot_count slots.now)) }
{
    let mut nodes = IndexSet::new(alloc);
    let mut of_slots = Vec::new(alloc);
    for slot in 0..slots.count() {
        let number = intern(&mut nodes, Node::Variable(slot))?;
        of_slots.push(number)?;
    }
    Ok(Classes { nodes, of_slots })
}

// Gives a slot another class.
fn change(of_slots: &mut Vec<usize>, slot: usize, number: usize)
    requires { slot < length of_slots.old.items }
    ensures { of_slots.new.items ≡ set of_slots.old.items slot number }
{
    of_slots[slot] = number;
}

/// The classes that a list of bindings makes: two terms have one number where it makes them equal.
pub(crate) fn find_classes<'a>(
    alloc: Global,
    slots: &Slots,
    trail: &Trail<&'a [Cell]>,
) -> Result<Classes, AllocError>
    requires bindings { AllByRecursion (IsBinding slots.now) trail.now.pairs }
    requires triangular { IsAcyclic slots.now trail.now.pairs }
    ensures { IfOk result (λ c. HasClasses slots.now trail.now.pairs c.nodes.keys
        c.of_slots.items) }
{
    let lists = uses(alloc, slots, trail)?;
    let mut left = order(alloc, &lists)?;
    let Classes {
        mut nodes,
        mut of_slots,
    } = single_classes(alloc, slots)?;
    // From the last to the first: the variables in a value come before its own.
    while let Some(slot) = left.pop() {
        let Some(value) = trail.get(slot) else {
            unreachable!()
        };
        let number = class_of(alloc, &mut nodes, slots, &of_slots, value)?;
        change(&mut of_slots, slot, number);
    }
    Ok(Classes { nodes, of_slots })
}
