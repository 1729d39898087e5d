// The memory in which a trail notes where slots are bound.
use std::alloc::Global;
use std::marker::Model;

/// Where the slots of trails were bound. It is lent from one trail to the next, and never cleared:
/// no trail takes what is left there for a binding of its own. Nothing is promised of it.
#[derive(Drop)]
pub struct SlotMemory {
    pub(crate) places: Vec<u32>,
}

impl Model for SlotMemory {
    ghost Value = { Unit {0} };

    ghost view = { λ p. tt };
}

impl SlotMemory {
    /// None yet. It takes no memory.
    pub fn new(alloc: Global) -> SlotMemory {
        SlotMemory {
            places: Vec::new(alloc),
        }
    }
}
