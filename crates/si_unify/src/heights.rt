// How long the chains of variables are that end at each slot.
ghost use Rattle.std.specs.Prelude.{◌≡◌, ◌<◌, ◌≤◌, [], IfOk, OnOk, OnErr};
ghost use Rattle.si_unify.specs.Heights.{height, is_lower, IsRaised, HaveMet};

use std::alloc::{AllocError, Global};
use std::marker::Model;

/// The heights of slots: no chain of variables that were bound to variables in this call, and that
/// ends at a slot, is longer than its height. Contracts see a list, past whose end all heights are
/// 0, and the number of slots that it has room for.
///
/// Of two variables the lower one is bound to the higher one. So as many variables as two to the
/// power of its height come to a slot, and no chain is longer than a logarithm of their number.
#[derive(Drop)]
pub(crate) struct Heights {
    heights: Vec<u8>,
}

impl Model for Heights {
    ghost use Rattle.std.specs.Prelude.{vec_capacity};
    ghost use Rattle.si_unify.specs.Heights.{SlotHeights};

    ghost Value = { SlotHeights };

    ghost view = { λ h. record { items = h.heights.items; room = vec_capacity h.heights } };
}

impl Heights {
    /// All heights are 0. It takes no memory.
    pub(crate) fn new(alloc: Global) -> Heights
        ensures { result.items ≡ [] }
    {
        Heights {
            heights: Vec::new(alloc),
        }
    }

    /// Makes room for so many slots, a byte for each.
    pub(crate) fn make_room(&mut self, count: usize) -> Result<(), AllocError>
        requires { self.old.items ≡ [] }
        ensures items { self.new.items ≡ [] }
        ensures full { OnErr result (self.old.room < count) }
        ensures keeps { self.old.room ≤ self.new.room }
        ensures enough { OnOk result (count ≤ self.new.room) }
    {
        self.heights.reserve(count)
    }

    fn height(&self, slot: usize) -> u8
        ensures { result ≡ height self.now.items slot }
    {
        *self.heights.get(slot).unwrap_or(&0)
    }

    // Makes a slot, of so many, higher by one.
    fn raise(&mut self, count: usize, slot: usize) -> Result<(), AllocError>
        ensures raised { OnOk result (IsRaised count slot self.old.items self.new.items) }
        ensures full { OnErr result (self.old.room < count) }
        ensures keeps { self.old.room ≤ self.new.room }
    {
        if self.heights.len() < count {
            self.heights.resize(count, 0)?;
        }
        if slot < self.heights.len() {
            self.heights[slot] = self.heights[slot].saturating_add(1);
        }
        Ok(())
    }

    /// Whether the right one of two variables is to be bound to the left one. If not, then the left
    /// one is to be bound to the right one. There are so many slots.
    pub(crate) fn turns(
        &mut self,
        count: usize,
        left: usize,
        right: usize,
    ) -> Result<bool, AllocError>
        ensures turned { IfOk result (λ turned. turned ≡ is_lower self.old.items right left) }
        ensures met { OnOk result (HaveMet count left right self.old.items self.new.items) }
        ensures full { OnErr result (self.old.room < count) }
        ensures keeps { self.old.room ≤ self.new.room }
    {
        let left_height = self.height(left);
        let right_height = self.height(right);
        if left_height == right_height {
            self.raise(count, right)?;
        }
        Ok(left_height > right_height)
    }

    /// Makes all heights 0, and keeps the memory.
    pub(crate) fn reset(&mut self)
        ensures items { self.new.items ≡ [] }
        ensures keeps { self.old.room ≤ self.new.room }
    {
        self.heights.clear();
    }
}
