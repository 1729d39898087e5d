// One equation: between the heads at two spots.
ghost use Rattle.std.specs.Prelude.{◌≡◌, ◌<◌, ◌≤◌, false, Ok, IfOk, OnOk, OnErr};
ghost use Rattle.si_unify.specs.Heights.{is_right_lower};
ghost use Rattle.si_unify.specs.Rooms.{spot_pairs_room};
ghost use Rattle.si_unify.specs.Solving.{slot_count};
ghost use Rattle.si_unify.specs.Spots.{same_slot, IsAdded, HasNoRoomFor};
ghost use Rattle.si_unify.specs.Unifying.{HasSubterm, HasEnd, IsUnifying, SpotsLackRoom, KeepsQuestion, MakesMeet};

use crate::heights::Heights;
use crate::slots::Slots;
use crate::spots::{SpotPair, Subterm};
use crate::symbols::have_same_symbol;
use crate::unifier::Unifier;
use indexmap::IndexSet;
use si_flat::Cell;
use std::alloc::AllocError;

// Whether both are the slot of one variable.
fn same_slot(left: Option<usize>, right: Option<usize>) -> bool
    ensures { result ≡ same_slot left right }
{
    match (left, right) {
        (Some(left), Some(right)) => left == right,
        _ => false,
    }
}

// Whether both variables may be bound, and the right one is to be bound to the left one.
fn turns(
    heights: &mut Heights,
    slots: &Slots,
    left: Option<usize>,
    right: Option<usize>,
) -> Result<bool, AllocError>
    ensures turned { IfOk result (λ turned. turned
        ≡ is_right_lower heights.old.items left right) }
    ensures full { OnErr result (heights.old.room < slot_count slots.now) }
    ensures keeps { heights.old.room ≤ heights.new.room }
{
    match (left, right) {
        (Some(left), Some(right)) => heights.turns(slots.count(), left, right),
        _ => Ok(false),
    }
}

// Puts a pair of spots after the others where it isn't among them. It is looked up first: of a
// pair that comes again `insert_full` doesn't say that it takes no room.
fn add_pair(keys: &mut IndexSet<SpotPair>, pair: SpotPair) -> Result<(), AllocError>
    ensures added { OnOk result (IsAdded keys.old.keys pair keys.new.keys) }
    ensures full { OnErr result (HasNoRoomFor keys.old.keys (spot_pairs_room keys.old) pair) }
    ensures keeps { spot_pairs_room keys.old ≤ spot_pairs_room keys.new }
{
    if keys.contains(&pair) {
        return Ok(());
    }
    keys.insert_full(pair)?;
    Ok(())
}

impl<'s, 'a> Unifier<'s, 'a> {
    // Makes two spots equal of which neither is a bound variable's: it binds a variable, or adds
    // the two to the pairs that are to be compared.
    fn meet_ends(&mut self, left: Subterm<'a>, right: Subterm<'a>) -> Result<bool, AllocError>
        requires underway { IsUnifying self.old }
        requires left { HasSubterm self.old left }
        requires right { HasSubterm self.old right }
        requires left_end { HasEnd self.old left.spot }
        requires right_end { HasEnd self.old right.spot }
        ensures met { IfOk result (MakesMeet self.old self.new left.entry.spot right.entry.spot) }
        ensures no { result ≡ Ok false → self.new.trail.now.pairs ≡ self.old.trail.now.pairs }
        ensures err { OnErr result (self.new.trail.now.pairs ≡ self.old.trail.now.pairs) }
        ensures full { OnErr result (SpotsLackRoom self.old) }
        ensures keeps_question { KeepsQuestion self.old self.new }
    {
        let left_cell = left.cells[0];
        let right_cell = right.cells[0];
        if same_slot(
            self.question.slots.slot_of(left_cell),
            self.question.slots.slot_of(right_cell),
        ) {
            return Ok(true);
        }
        let left_free = self.question.slots.free_slot(left_cell);
        let right_free = self.question.slots.free_slot(right_cell);
        if turns(self.heights, &self.question.slots, left_free, right_free)? {
            if let Some(slot) = right_free {
                self.trail.bind(slot, left.cells);
                return Ok(true);
            }
        }
        if let Some(slot) = left_free {
            self.trail.bind(slot, right.cells);
            return Ok(true);
        }
        if let Some(slot) = right_free {
            self.trail.bind(slot, left.cells);
            return Ok(true);
        }
        if !have_same_symbol(left_cell, right_cell) {
            return Ok(false);
        }
        if let Cell::App { arity: 0, .. } = left_cell {
            return Ok(true);
        }
        let pair = SpotPair {
            left: left.spot,
            right: right.spot,
        };
        add_pair(self.keys, pair)?;
        Ok(true)
    }

    // Makes two spots equal.
    pub(crate) fn meet(&mut self, left: Subterm<'a>, right: Subterm<'a>) -> Result<bool, AllocError>
        requires underway { IsUnifying self.old }
        requires left { HasSubterm self.old left }
        requires right { HasSubterm self.old right }
        ensures met { IfOk result (MakesMeet self.old self.new left.entry.spot right.entry.spot) }
        ensures no { result ≡ Ok false → self.new.trail.now.pairs ≡ self.old.trail.now.pairs }
        ensures err { OnErr result (self.new.trail.now.pairs ≡ self.old.trail.now.pairs) }
        ensures full { OnErr result (SpotsLackRoom self.old) }
        ensures keeps_question { KeepsQuestion self.old self.new }
    {
        let left_end = self.follow(left);
        let right_end = self.follow(right);
        self.meet_ends(left_end, right_end)
    }
}
