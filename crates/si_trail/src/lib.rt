//! A trail of bindings, which can be undone.
//!
//! A [`Trail`] has a number of slots. Contracts see it as the list of pairs of a slot and its value
//! in the order in which they were bound; no slot stands twice. All its memory is taken when it is
//! made.
#![tactic(auto)]

ghost use Rattle.std.specs.Prelude.{◌≡◌, ◌<◌, ◌≤◌, [], ◌∷◌, ◌++◌, IfOk, None, length, take, drop, option_copied};
ghost use Rattle.si_trail.specs.Trails.{value_at, AreUnbound, IsSlotOf, HasDistinctSlots, HasSlotsBelow};

use std::alloc::{AllocError, Global};
use std::marker::Model;

mod memory;

pub use memory::SlotMemory;

// No more slots than this: then a word of 32 bits counts the bindings.
const MOST_SLOTS: usize = u32::MAX as usize;

/// Bindings of slots to values, in the order in which they were made.
#[derive(Drop)]
pub struct Trail<T> {
    slots: usize,
    // Where the binding of each slot stands. What is left of bindings that were undone, and of
    // trails before this one, is told by looking there (Briggs and Torczon 1993).
    places: Vec<u32>,
    // The bindings, in order.
    bound: Vec<(usize, T)>,
}

impl<T> Model for Trail<T> {
    ghost use Rattle.std.specs.Prelude.{vec_capacity};
    ghost use Rattle.si_trail.specs.Bound.{IsTableOf};
    ghost use Rattle.si_trail.specs.Trails.{Trail as Seen, trail_code};

    ghost Value = { Seen T };

    ghost coded = { trail_code T.code };

    ghost view = { λ t. record { slots = t.slots; pairs = t.bound.items } };

    ghost invariant = { λ t.
        IsTableOf t.places.items t.slots (vec_capacity t.bound) t.bound.items };
}

impl<T: Copy> Trail<T> {
    /// A trail with so many slots, none of which is bound.
    ///
    /// # Errors
    ///
    /// `AllocError` where there is no memory, as there never is for 2^32 slots or more.
    pub fn with_slots(alloc: Global, n: usize) -> Result<Trail<T>, AllocError>
        ensures { IfOk result (λ t. t ≡ record { slots = n; pairs = [] }) }
    {
        Trail::with_memory(alloc, SlotMemory::new(alloc), n)
    }

    /// The same in memory that is lent. Nothing in it is cleared, so this costs what it lacks.
    ///
    /// # Errors
    ///
    /// `AllocError` as above. The memory is given up then.
    pub fn with_memory(alloc: Global, memory: SlotMemory, n: usize) -> Result<Trail<T>, AllocError>
        ensures { IfOk result (λ t. t ≡ record { slots = n; pairs = [] }) }
    {
        if n > MOST_SLOTS {
            return Err(AllocError);
        }
        let mut places = memory.places;
        if places.len() < n {
            places.resize(n, 0)?;
        }
        Ok(Trail {
            slots: n,
            places,
            bound: Vec::with_capacity(alloc, n)?,
        })
    }

    /// Its memory, to be lent to another trail.
    pub fn into_memory(self) -> SlotMemory {
        SlotMemory {
            places: self.places,
        }
    }

    /// The number of slots.
    pub fn slots(&self) -> usize
        ensures number { result ≡ self.now.slots }
        ensures distinct { HasDistinctSlots self.now.pairs }
        ensures below { HasSlotsBelow self.now.slots self.now.pairs }
    {
        self.slots
    }

    /// The number of bindings. It is what [`Trail::undo`] takes to come back here.
    pub fn mark(&self) -> usize
        ensures number { result ≡ length self.now.pairs }
        ensures distinct { HasDistinctSlots self.now.pairs }
    {
        self.bound.len()
    }

    /// The slot of the binding with this number from 0.
    pub fn slot(&self, n: usize) -> usize
        requires { n < length self.now.pairs }
        ensures { IsSlotOf self.now.pairs n result }
    {
        self.bound[n].0
    }

    /// The value that the slot is bound to.
    #[inline(always)]
    pub fn get(&self, slot: usize) -> Option<&T>
        ensures { option_copied result ≡ value_at self.now.pairs slot }
    {
        let Some(place) = self.places.get(slot) else {
            return None;
        };
        match self.bound.get(*place as usize) {
            Some(binding) => {
                if binding.0 == slot {
                    Some(&binding.1)
                } else {
                    None
                }
            }
            None => None,
        }
    }

    /// Binds a slot.
    #[inline(always)]
    pub fn bind(&mut self, slot: usize, value: T)
        requires in_range { slot < self.old.slots }
        requires unbound { value_at self.old.pairs slot ≡ None }
        ensures pairs { self.new.pairs ≡ self.old.pairs ++ (slot, value) ∷ [] }
        ensures slots { self.new.slots ≡ self.old.slots }
    {
        self.places[slot] = self.bound.len() as u32;
        self.bound.push_reserved((slot, value));
    }

    /// Undoes all bindings but the first so many.
    pub fn undo(&mut self, mark: usize)
        requires { mark ≤ length self.old.pairs }
        ensures pairs { self.new.pairs ≡ take mark self.old.pairs }
        ensures slots { self.new.slots ≡ self.old.slots }
        ensures unbound { AreUnbound self.new.pairs (drop mark self.old.pairs) }
    {
        self.bound.truncate(mark);
    }
}
