// Places in the values of the bindings and in the two terms.
use crate::slots::Slots;
use si_flat::Cell;

/// A place in a text: a cell of the value of a slot, or of one of the two terms.
#[derive(Clone, Copy, PartialEq, Eq, Hash)]
pub(crate) struct Spot {
    pub(crate) base: usize,
    pub(crate) at: usize,
}

/// Two spots that are to be equal.
#[derive(Clone, Copy, PartialEq, Eq, Hash)]
pub(crate) struct SpotPair {
    pub(crate) left: Spot,
    pub(crate) right: Spot,
}

/// A subterm of a text, and where it stands.
#[derive(Clone, Copy)]
pub(crate) struct Subterm<'a> {
    pub(crate) spot: Spot,
    pub(crate) cells: &'a [Cell],
}

/// Two terms that are to be made equal.
#[derive(Clone, Copy)]
pub(crate) struct Question<'a> {
    pub(crate) slots: Slots,
    pub(crate) left: &'a [Cell],
    pub(crate) right: &'a [Cell],
}
