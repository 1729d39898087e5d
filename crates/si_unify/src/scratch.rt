// Memory to work in, which is lent from call to call.
ghost use Rattle.std.specs.Prelude.{◌≡◌, ◌*◌, ◌<◌, ◌^◌, [], OnOk, OnErr};
ghost use Rattle.std.specs.Option.{SomeIff};
ghost use Rattle.si_unify.specs.Rooms.{IsEnoughToSolve, IsNoLessRoom, most_spots};
ghost use Rattle.si_unify.specs.Scratch.{HoldNothing, buffers_room};
ghost use Rattle.si_unify.specs.States.{AreNew};

use crate::circles::Visit;
use crate::heights::Heights;
use crate::slots::Slots;
use crate::spots::SpotPair;
use crate::states::States;
use indexmap::IndexSet;
use std::alloc::{AllocError, Global};
use std::marker::Model;

// How many pairs of spots there may be over so many slots, where neither term and no value has more
// cells. `None` where that doesn't fit in a word.
fn most_spot_pairs(count: usize, cells: usize) -> Option<usize>
    requires { count < 2 ^ 34 }
    ensures { SomeIff result (most_spots count cells * most_spots count cells < 2 ^ 64)
        (most_spots count cells * most_spots count cells) }
{
    let spots = (count + 2).checked_mul(cells)?;
    spots.checked_mul(spots)
}

/// What one call of the solver works in.
#[derive(Drop)]
pub(crate) struct Buffers {
    /// The pairs of spots whose arguments are made equal, in the order in which they came up.
    pub(crate) keys: IndexSet<SpotPair>,
    /// Which of two variables is bound to the other.
    pub(crate) heights: Heights,
    /// How far the search for a circle has come with each slot.
    pub(crate) states: States,
    /// What is left of that search.
    pub(crate) visits: Vec<Visit>,
}

impl Buffers {
    // Makes room for all terms and bindings over these slots, where none has more than `cells`.
    fn reserve(&mut self, slots: &Slots, cells: usize) -> Result<(), AllocError>
        requires { HoldNothing self.old }
        ensures clear { HoldNothing self.new }
        ensures enough { OnOk result (IsEnoughToSolve slots.now cells (buffers_room self.new)) }
        ensures full { OnErr result (IsEnoughToSolve slots.now cells (buffers_room self.old) → ⊥) }
        ensures keeps { IsNoLessRoom (buffers_room self.old) (buffers_room self.new) }
    {
        let count = slots.count();
        let room = self.keys.capacity();
        let spot_pairs = most_spot_pairs(count, cells).ok_or(AllocError)?;
        if room < spot_pairs {
            self.keys.reserve(spot_pairs)?;
        }
        self.heights.make_room(count)?;
        self.states.make_room(count)?;
        // The number of visits fits in a word, as that of the pairs of spots does.
        self.visits.reserve(count * (cells + 2))
    }

    /// Empties the buffers, and keeps their memory.
    pub(crate) fn clear(&mut self)
        ensures keys { self.new.keys.keys ≡ [] }
        ensures heights { self.new.heights.items ≡ [] }
        ensures states { AreNew self.new.states.items }
        ensures visits { self.new.visits.items ≡ [] }
        ensures keeps { IsNoLessRoom (buffers_room self.old) (buffers_room self.new) }
    {
        // Clearing the set costs as much as it ever held.
        if !self.keys.is_empty() {
            self.keys.clear();
        }
        self.heights.reset();
        self.states.reset();
        self.visits.clear();
    }
}

/// Memory for [`solve_with`](crate::solve_with) to work in.
///
/// It is made once and lent to each call. It is empty between calls, whatever they answered, and
/// keeps what its buffers grew to: a call that needs no more takes no memory. Contracts see how
/// much fits in it.
pub struct Scratch {
    pub(crate) buffers: Buffers,
}

// It does what a derived one would, and is quicker to check (docs/PROVING.md, "Minutes").
impl Drop for Scratch {
    fn drop(self) {
        let Scratch { buffers: _buffers } = self;
    }
}

impl Model for Scratch {
    ghost use Rattle.si_unify.specs.Rooms.{SolverRoom};
    ghost use Rattle.si_unify.specs.Scratch.{HoldNothing, buffers_room};

    ghost Value = { SolverRoom };

    ghost view = { λ s. buffers_room s.buffers };

    ghost invariant = { λ s. HoldNothing s.buffers };
}

impl Scratch {
    /// Empty buffers. It takes no memory.
    pub fn new(alloc: Global) -> Scratch {
        Scratch {
            buffers: Buffers {
                keys: IndexSet::new(alloc),
                heights: Heights::new(alloc),
                states: States::new(alloc),
                visits: Vec::new(alloc),
            },
        }
    }

    /// Makes room to solve any equation over these slots in which neither term and no value has
    /// more than so many cells. [`solve_with`](crate::solve_with) is never refused then.
    ///
    /// There is room for each pair of spots, which grow with the square of the slots times the
    /// cells, so this is for small terms.
    ///
    /// # Errors
    ///
    /// `AllocError` where there isn't so much memory, but never where there was room already. The
    /// room is no less than before.
    pub fn reserve(&mut self, slots: &Slots, cells: usize) -> Result<(), AllocError>
        ensures enough { OnOk result (IsEnoughToSolve slots.now cells self.new) }
        ensures full { OnErr result (IsEnoughToSolve slots.now cells self.old → ⊥) }
        ensures keeps { IsNoLessRoom self.old self.new }
    {
        self.buffers.reserve(slots, cells)
    }
}
