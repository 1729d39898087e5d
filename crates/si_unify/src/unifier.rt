// The solver at work: the question, the bindings so far, and the pairs that are left.
ghost use Rattle.std.specs.Prelude.{◌≡◌, ◌+◌, ◌^◌, ◌<◌, length};
ghost use Rattle.si_flat.specs.Cells.{Term};
ghost use Rattle.si_unify.specs.Spots.{text, at_spot, SpotStandsFor, ComesTo};
ghost use Rattle.si_unify.specs.Unifying.{HasSpot, HasSubterm, IsUnifying};

use crate::heights::Heights;
use crate::spots::{Question, Spot, SpotPair, Subterm};
use indexmap::IndexSet;
use si_flat::{Cell, sub};
use si_trail::Trail;

/// An attempt to make two terms equal, in memory that is lent.
#[derive(Drop)]
pub(crate) struct Unifier<'s, 'a> {
    pub(crate) question: Question<'a>,
    /// The bindings. What was bound before stands first.
    pub(crate) trail: &'s mut Trail<&'a [Cell]>,
    /// The pairs of spots whose arguments are made equal, in the order in which they came up.
    pub(crate) keys: &'s mut IndexSet<SpotPair>,
    /// Which of two variables is bound to the other.
    pub(crate) heights: &'s mut Heights,
}

impl<'s, 'a> Unifier<'s, 'a> {
    // The cells among which a spot is: the first term's, the second's, or those of a slot's value.
    fn text(&self, spot: Spot) -> &'a [Cell]
        requires { HasSpot self.now spot }
        ensures { result.now ≡ text self.now.question self.now.trail.now.pairs spot.base }
    {
        let count = self.question.slots.count();
        if spot.base == count {
            return self.question.left;
        }
        if spot.base == count + 1 {
            return self.question.right;
        }
        match self.trail.get(spot.base) {
            Some(value) => value,
            None => unreachable!(),
        }
    }

    // The cells of the term at a spot.
    pub(crate) fn cells_at(&self, spot: Spot) -> &'a [Cell]
        requires underway { IsUnifying self.now }
        requires spot { HasSpot self.now spot }
        ensures subterm { HasSubterm self.now (at_spot spot result) }
        ensures small { spot.at + length result.now < 2 ^ 64 }
    {
        sub(self.text(spot), spot.at)
    }

    // Goes down a chain of variables that are bound to variables.
    pub(crate) fn follow(&self, from: Subterm<'a>) -> Subterm<'a>
        requires underway { IsUnifying self.now }
        requires subterm { HasSubterm self.now from }
        ensures comes { (t : Term) → SpotStandsFor self.now.question self.now.trail.now.pairs
            from.entry.spot t → ComesTo self.now.question self.now.trail.now.pairs t result.spot }
        ensures subterm { HasSubterm self.now result }
    {
        let mut reached = from;
        for _ in 0..self.trail.mark() {
            let Some(slot) = self.question.slots.slot_of(reached.cells[0]) else {
                return reached;
            };
            match self.trail.get(slot) {
                Some(value) => {
                    reached = Subterm {
                        spot: Spot { base: slot, at: 0 },
                        cells: value,
                    }
                }
                None => return reached,
            }
        }
        // Each binding was passed once, so none is left.
        reached
    }
}
