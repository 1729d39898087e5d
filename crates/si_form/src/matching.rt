// Matching: which slices of one term the variables of another stand for.
ghost use Rattle.std.specs.Prelude.{◌≡◌, ◌<◌, ◌↔◌, IsTrue, IfOk, [], length};
ghost use Rattle.si_flat.specs.Cells.{IsWhole};
ghost use Rattle.si_form.specs.Answers.{AreNumbered};
ghost use Rattle.si_form.specs.Matching.{variable_number, HasKnown, StepsOnCell, IsMatched};

use si_flat::{Cell, Owner, sub};
use si_unify::have_same_symbol;
use smallvec::SmallVec;
use std::alloc::AllocError;

/// A variable, by its number, and the slice that it stands for.
#[derive(Clone, Copy, Default)]
pub(crate) struct Image<'a> {
    pub(crate) number: u32,
    pub(crate) value: &'a [Cell],
}

/// Images of variables, in order. A few take no memory.
pub(crate) type Images<'a> = SmallVec<Image<'a>, 4>;

// The number of a variable of this owner.
pub(crate) fn variable_number(owner: Owner, cell: Cell) -> Option<u32>
    ensures { result ≡ variable_number owner cell }
{
    match (owner, cell) {
        (Owner::Query, Cell::Query(number)) => Some(number),
        (Owner::Entry, Cell::Entry(number)) => Some(number),
        _ => None,
    }
}

// Whether both are the same cell.
fn is_same(left: Cell, right: Cell) -> bool
    ensures { IsTrue result ↔ (left ≡ right) }
{
    match (left, right) {
        (
            Cell::App { sym, arity, len },
            Cell::App {
                sym: other_sym,
                arity: other_arity,
                len: other_len,
            },
        ) => sym == other_sym && arity == other_arity && len == other_len,
        (Cell::Query(number), Cell::Query(other)) => number == other,
        (Cell::Entry(number), Cell::Entry(other)) => number == other,
        (Cell::Ind(number), Cell::Ind(other)) => number == other,
        _ => false,
    }
}

// Whether the slices have the same cells.
pub(crate) fn are_same(left: &[Cell], right: &[Cell]) -> bool
    ensures { IsTrue result ↔ (left.now ≡ right.now) }
{
    if left.len() != right.len() {
        return false;
    }
    for i in 0..left.len() {
        if !is_same(left[i], right[i]) {
            return false;
        }
    }
    true
}

// Whether the variable stands for this slice; one that hasn't been met does so from now on.
fn stands_for<'a>(
    images: &mut Images<'a>,
    number: u32,
    value: &'a [Cell],
) -> Result<bool, AllocError>
    ensures { IfOk result (HasKnown number value.entry images.old.items images.new.items) }
{
    if let Some(image) = images.as_slice().get(number as usize) {
        return Ok(are_same(image.value, value));
    }
    images.push(Image { number, value })?;
    Ok(true)
}

// How many cells of the target match this cell of the pattern, from the place on.
fn step<'a>(
    owner: Owner,
    cell: Cell,
    target: &'a [Cell],
    at: usize,
    images: &mut Images<'a>,
) -> Result<Option<usize>, AllocError>
    requires whole { IsWhole target.now }
    requires inside { at < length target.now }
    ensures { IfOk result (StepsOnCell owner cell target.now at images.old.items images.new.items) }
{
    let Some(number) = variable_number(owner, cell) else {
        if have_same_symbol(cell, target[at]) {
            return Ok(Some(1));
        }
        return Ok(None);
    };
    let value = sub(target, at);
    if stands_for(images, number, value)? {
        return Ok(Some(value.len()));
    }
    Ok(None)
}

/// Whether the pattern matches the target; the images are then those of its variables in order.
pub(crate) fn matches<'a>(
    owner: Owner,
    pattern: &[Cell],
    target: &'a [Cell],
    images: &mut Images<'a>,
) -> Result<bool, AllocError>
    requires pattern { IsWhole pattern.now }
    requires target { IsWhole target.now }
    requires numbered { AreNumbered owner pattern.now }
    requires none { images.old.items ≡ [] }
    ensures { IfOk result (IsMatched owner pattern.now target.now images.new.items) }
{
    let mut at = 0;
    for &cell in pattern {
        let Some(span) = step(owner, cell, target, at, images)? else {
            return Ok(false);
        };
        at += span;
    }
    Ok(true)
}
