// Where the postings of a list stand, hashed.
ghost use Rattle.std.specs.Prelude.{◌<◌};

use crate::postings::{Slot, is_at};
use si_legal::Posting;
use std::alloc::{AllocError, Global};
use std::marker::Model;

// In what is free no place is noted.
const FREE: u32 = u32::MAX;

// Nor in what a posting left; but what was noted past it is still found.
const LEFT: u32 = u32::MAX - 1;

/// Where postings stand, hashed by open addressing with linear probing (Knuth, The Art of Computer
/// Programming, volume 3, section 6.4): the place of a posting is noted in the first part of the
/// table in which none is, from the one on that the posting names. What a posting left is noted
/// anew, so one that goes and comes again takes no further part. Nothing is promised of a place:
/// who takes it looks whether the posting stands there.
#[derive(Drop)]
pub(crate) struct HashedPlaces {
    table: Vec<u32>,
}

impl Model for HashedPlaces {
    ghost use Rattle.std.specs.Prelude.{◌<◌, length};

    ghost Value = { Unit {0} };

    ghost view = { λ p. tt };

    ghost invariant = { λ p. 0 < length p.table.items };
}

impl HashedPlaces {
    /// The places of all postings that stand in slots, and of one more after them.
    pub(crate) fn of(
        alloc: Global,
        slots: &[Slot],
        last: Slot,
    ) -> Result<HashedPlaces, AllocError> {
        let mut places = HashedPlaces {
            table: vec![in alloc; FREE; size_for(slots.len())]?,
        };
        places.note_all(slots);
        places.note(last, slots.len());
        Ok(places)
    }

    /// Whether one more place can be noted where so many slots were: of four parts one stays free.
    pub(crate) fn has_room(&self, slots: usize) -> bool {
        slots < self.table.len() - self.table.len() / 4
    }

    /// Notes the place of a posting.
    pub(crate) fn note(&mut self, slot: Slot, place: usize) {
        let Ok(place) = u32::try_from(place) else {
            return;
        };
        if place >= LEFT {
            return;
        }
        let first = first_for(slot.kept(), self.table.len());
        let (front, back) = self.table.split_at_mut(first);
        for part in back.iter_mut().chain(front.iter_mut()) {
            if *part >= LEFT {
                *part = place;
                return;
            }
        }
    }

    /// The place of a posting, if one is noted at which it stands. It isn't noted any more then.
    pub(crate) fn take(&mut self, slots: &[Slot], posting: Posting) -> Option<usize> {
        let first = first_for(posting, self.table.len());
        let (front, back) = self.table.split_at_mut(first);
        for part in back.iter_mut().chain(front.iter_mut()) {
            if *part == FREE {
                return None;
            }
            let place = *part as usize;
            if is_at(slots, place, posting) {
                *part = LEFT;
                return Some(place);
            }
        }
        None
    }

    /// Notes all places anew, after the slots were closed. It takes no memory.
    pub(crate) fn renew(&mut self, slots: &[Slot]) {
        self.table.truncate(size_for(slots.len()));
        self.table.shrink_to_fit();
        for part in self.table.iter_mut() {
            *part = FREE;
        }
        self.note_all(slots);
    }

    // Notes the places of all postings that stand in slots.
    fn note_all(&mut self, slots: &[Slot]) {
        for place in 0..slots.len() {
            let slot = slots[place];
            if slot.stands() {
                self.note(slot, place);
            }
        }
    }
}

// The part of a table of this size from which on a posting is looked for.
fn first_for(posting: Posting, size: usize) -> usize
    requires { 0 < size }
    ensures { result < size }
{
    let hash = (posting.clause as u64).wrapping_mul(0x9e37_79b9_7f4a_7c15)
        ^ u64::from(posting.entry).wrapping_mul(0xc2b2_ae3d_27d4_eb4f);
    (hash ^ hash >> 32) as usize % size
}

// How large a table is made for one place more than there are slots.
fn size_for(slots: usize) -> usize
    ensures { 0 < result }
{
    slots.saturating_mul(2).saturating_add(2)
}
