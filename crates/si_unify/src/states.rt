// How far the search for a circle has come with each slot.
ghost use Rattle.std.specs.Prelude.{◌≡◌, ◌≢◌, ◌<◌, ◌≤◌, [], Some, length, set, slice_get, OnOk, OnErr};
ghost use Rattle.si_unify.specs.declared.states.State.TheVariants.{New};
ghost use Rattle.si_unify.specs.States.{AreNew};

use std::alloc::{AllocError, Global};
use std::marker::Model;

/// How far the search for a circle has come with a slot.
#[derive(Clone, Copy)]
pub(crate) enum State {
    /// It hasn't been met.
    New,
    /// Its value is being searched.
    Open,
    /// No circle goes through it.
    Done,
}

/// The states of slots. Contracts see a list, and the number of slots that there is room for.
#[derive(Drop)]
pub(crate) struct States {
    states: Vec<State>,
    // The slots that aren't new. There is room for every slot that is still new.
    met: Vec<usize>,
}

impl Model for States {
    ghost use Rattle.std.specs.Prelude.{min, vec_capacity};
    ghost use Rattle.si_unify.specs.States.{SlotStates, AreMet, HasRoomForSlots};

    ghost Value = { SlotStates };

    ghost view = { λ s. record {
      items = s.states.items;
      room = min (vec_capacity s.states) (vec_capacity s.met);
    } };

    ghost invariant = { λ s. AreMet s.states.items s.met.items
        × HasRoomForSlots s.states.items s.met.items (vec_capacity s.met) };
}

impl States {
    /// The states of no slot.
    pub(crate) fn new(alloc: Global) -> States
        ensures { result.items ≡ [] }
    {
        States {
            states: Vec::new(alloc),
            met: Vec::new(alloc),
        }
    }

    /// Makes room for so many slots, nine bytes for each. No other call takes memory.
    pub(crate) fn make_room(&mut self, count: usize) -> Result<(), AllocError>
        requires { AreNew self.old.items }
        ensures fresh { AreNew self.new.items }
        ensures long { OnOk result (count ≤ length self.new.items) }
        ensures full { OnErr result (self.old.room < count) }
        ensures keeps { self.old.room ≤ self.new.room }
        ensures enough { OnOk result (count ≤ self.new.room) }
    {
        if self.states.len() < count {
            self.met.reserve(count)?;
            self.states.resize(count, State::New)?;
        }
        Ok(())
    }

    /// The state of a slot.
    pub(crate) fn at(&self, slot: usize) -> State
        requires { slot < length self.now.items }
        ensures { slice_get self.now.items slot ≡ Some result }
    {
        self.states[slot]
    }

    /// Gives a slot this state, which isn't new.
    pub(crate) fn change(&mut self, slot: usize, state: State)
        requires slot { slot < length self.old.items }
        requires state { state ≢ New }
        ensures items { self.new.items ≡ set self.old.items slot state }
        ensures room { self.new.room ≡ self.old.room }
    {
        if let State::New = self.states[slot] {
            self.met.push_reserved(slot);
        }
        self.states[slot] = state;
    }

    /// Makes all slots new.
    pub(crate) fn reset(&mut self)
        ensures items { AreNew self.new.items }
        ensures room { self.new.room ≡ self.old.room }
    {
        while let Some(slot) = self.met.pop() {
            self.states[slot] = State::New;
        }
    }
}
