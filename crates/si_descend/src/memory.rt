// What one search of a tree lends to the next.
ghost use Rattle.std.specs.Prelude.{◌≡◌, [], IfOk};

use crate::pending::Pending;
use si_flat::Cell;
use si_trail::{SlotMemory, Trail};
use std::alloc::{AllocError, Global};
use std::marker::Model;

/// The memory of searches, which one lends to the next, whatever their trees and queries. So none
/// makes anything ready for each number that a tree has had. Nothing is promised of it.
#[derive(Drop)]
pub struct SearchMemory {
    alloc: Global,
    slots: SlotMemory,
    pending: Vec<Pending>,
}

impl Model for SearchMemory {
    ghost Value = { Unit {0} };

    ghost view = { λ m. tt };
}

impl SearchMemory {
    /// It takes no memory yet.
    pub fn new(alloc: Global) -> SearchMemory {
        SearchMemory {
            alloc,
            slots: SlotMemory::new(alloc),
            pending: Vec::new(alloc),
        }
    }

    /// A trail with so many slots, none of which is bound.
    pub(crate) fn trail<'a>(&mut self, slots: usize) -> Result<Trail<&'a [Cell]>, AllocError>
        ensures { IfOk result (λ t. t ≡ record { slots = slots; pairs = [] }) }
    {
        let memory = std::mem::replace(&mut self.slots, SlotMemory::new(self.alloc));
        Trail::with_memory(self.alloc, memory, slots)
    }

    /// A list for the nodes that are still to be visited.
    pub(crate) fn pending(&mut self) -> Vec<Pending> {
        std::mem::replace(&mut self.pending, Vec::new(self.alloc))
    }

    /// What the trail and the list took serves another search.
    pub(crate) fn take_back(&mut self, trail: Trail<&[Cell]>, pending: Vec<Pending>) {
        self.slots = trail.into_memory();
        self.pending = pending;
    }
}
