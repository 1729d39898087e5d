// Where the items of a list stand among its slots.
ghost use Rattle.std.specs.Prelude.{◌≡◌, ◌≤◌, ◌*◌, ℕ, IfSome, IfNone, Some, length, slice_get};
ghost use Rattle.si_defs.specs.Substitutions.{IsAmong};
ghost use Rattle.si_keyed.specs.Keyed.{HasKey};
ghost use Rattle.si_keyed.specs.Placed.{placed_items, HasPlace};

use crate::keyed::Kept;
use crate::ranks::Ranks;
use slab::Slab;
use std::marker::Model;

/// Where the items of a list stand among its slots. Places rise as positions do, and the place of a
/// key is found by one read. So keys are put in order by their places.
///
/// Contracts see the keys and items, in order, each after its place.
#[derive(Drop)]
pub struct Places<'a, T> {
    pub(crate) slots: &'a [Option<Kept<T>>],
    pub(crate) places: &'a Slab<usize>,
    pub(crate) ranks: &'a Ranks,
}

impl<'a, T> Model for Places<'a, T> {
    ghost use Rattle.std.specs.Prelude.{List, ℕ, ◌<◌, ◌^◌, length};

    ghost Value = { List (ℕ × (ℕ × T)) };

    ghost use Rattle.si_keyed.specs.KeyedSlots.{HaveFewHoles, IsIndexed};
    ghost use Rattle.si_keyed.specs.Placed.{placed_from};

    ghost view = { λ p. placed_from 0 p.slots.now };

    ghost invariant = { λ p. IsIndexed p.slots.now p.places.now p.ranks.now
        × HaveFewHoles p.slots.now × (length p.slots.now < 2 ^ 64) };
}

impl<'a, T> Places<'a, T> {
    /// The place of the item with this key.
    pub fn place(&self, key: usize) -> usize
        requires { HasKey (placed_items self.now) key }
        ensures there { (item : T) × IsAmong self.now (result, (key, item)) }
        ensures few { result ≤ 2 * length self.now }
    {
        self.places[key]
    }

    /// The item at this place, if there is one.
    pub fn get(&self, place: usize) -> Option<&'a T>
        ensures some { IfSome result (λ item. (key : ℕ)
            × IsAmong self.now (place, (key, item.now))) }
        ensures none { IfNone result (HasPlace self.now place → ⊥) }
    {
        let slots = self.slots;
        let slot = slots.get(place)?;
        let kept = slot.as_ref()?;
        Some(&kept.item)
    }

    /// The position of the item at this place, and the item.
    pub fn at(&self, place: usize) -> (usize, &'a T)
        requires { HasPlace self.now place }
        ensures { (key : ℕ) × (slice_get self.now result.0 ≡ Some (place, (key, result.1.now))) }
    {
        let slots = self.slots;
        let kept = slots[place].as_ref().unwrap();
        (self.ranks.before(place), &kept.item)
    }
}
