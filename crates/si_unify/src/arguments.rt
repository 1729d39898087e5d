// All equations that follow from one: argument by argument.
ghost use Rattle.std.specs.Prelude.{◌≡◌, ◌+◌, ◌^◌, ◌<◌, [], length, IfOk, OnErr};
ghost use Rattle.si_defs.specs.Substitutions.{Grows};
ghost use Rattle.si_unify.specs.Spots.{left_spot, right_spot, spots_of};
ghost use Rattle.si_unify.specs.Unifying.{HasSubterm, AreApart, IsUnifying, SpotsLackRoom, KeepsQuestion, MakesMeet, MakesCompared, MakesClosed};

use crate::spots::{Spot, Subterm};
use crate::symbols::have_same_symbol;
use crate::unifier::Unifier;
use si_flat::sub;
use std::alloc::AllocError;

impl<'s, 'a> Unifier<'s, 'a> {
    // Compares two spots whose symbols are the same, argument by argument.
    fn compare(&mut self, left: Subterm<'a>, right: Subterm<'a>) -> Result<bool, AllocError>
        requires underway { IsUnifying self.old }
        requires apart { AreApart self.old (spots_of left right) }
        requires left { HasSubterm self.old left }
        requires right { HasSubterm self.old right }
        requires left_small { left.spot.at + length left.cells.now < 2 ^ 64 }
        requires right_small { right.spot.at + length right.cells.now < 2 ^ 64 }
        ensures compared { IfOk result (MakesCompared self.old self.new
            (spots_of left.entry right.entry)) }
        ensures grows { Grows self.old.trail.now.pairs self.new.trail.now.pairs }
        ensures full { OnErr result (SpotsLackRoom self.old) }
        ensures keeps_question { KeepsQuestion self.old self.new }
    {
        let mut i = 1;
        let mut j = 1;
        while i < left.cells.len() {
            if have_same_symbol(left.cells[i], right.cells[j]) {
                i += 1;
                j += 1;
                continue;
            }
            let left_part = Subterm {
                spot: Spot {
                    base: left.spot.base,
                    at: left.spot.at + i,
                },
                cells: sub(left.cells, i),
            };
            let right_part = Subterm {
                spot: Spot {
                    base: right.spot.base,
                    at: right.spot.at + j,
                },
                cells: sub(right.cells, j),
            };
            if !self.meet(left_part, right_part)? {
                return Ok(false);
            }
            i += left_part.cells.len();
            j += right_part.cells.len();
        }
        Ok(true)
    }

    // Makes the two terms of the question equal. It does what `meet` does at their first cells, but
    // compares their arguments at once: no other equation comes to this pair.
    pub(crate) fn meet_terms(&mut self) -> Result<bool, AllocError>
        requires underway { IsUnifying self.old }
        requires none { self.old.keys.now.keys ≡ [] }
        requires left_small { length self.old.question.left.now < 2 ^ 64 }
        requires right_small { length self.old.question.right.now < 2 ^ 64 }
        ensures met { IfOk result (MakesMeet self.old self.new (left_spot self.old.question)
            (right_spot self.old.question)) }
        ensures grows { Grows self.old.trail.now.pairs self.new.trail.now.pairs }
        ensures full { OnErr result (SpotsLackRoom self.old) }
        ensures keeps_question { KeepsQuestion self.old self.new }
    {
        let count = self.question.slots.count();
        let left = Subterm {
            spot: Spot { base: count, at: 0 },
            cells: self.question.left,
        };
        let right = Subterm {
            spot: Spot {
                base: count + 1,
                at: 0,
            },
            cells: self.question.right,
        };
        if have_same_symbol(left.cells[0], right.cells[0]) {
            return self.compare(left, right);
        }
        self.meet(left, right)
    }

    // Compares the pairs, and those that come up, until none is left.
    pub(crate) fn close(&mut self) -> Result<bool, AllocError>
        requires underway { IsUnifying self.old }
        ensures closed { IfOk result (MakesClosed self.old self.new) }
        ensures grows { Grows self.old.trail.now.pairs self.new.trail.now.pairs }
        ensures full { OnErr result (SpotsLackRoom self.old) }
        ensures keeps_question { KeepsQuestion self.old self.new }
    {
        let mut next = 0;
        while next < self.keys.len() {
            let pair = self.keys[next];
            let left = Subterm {
                spot: pair.left,
                cells: self.cells_at(pair.left),
            };
            let right = Subterm {
                spot: pair.right,
                cells: self.cells_at(pair.right),
            };
            if !self.compare(left, right)? {
                return Ok(false);
            }
            next += 1;
        }
        Ok(true)
    }
}
