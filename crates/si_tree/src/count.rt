// How many postings a list has.
ghost use Rattle.std.specs.Prelude.{◌≡◌, ◌+◌, ◌-◌, IfOk, OnErr, OnOk};
ghost use Rattle.si_tree.specs.Slots.{count_in};

use crate::places::HashedPlaces;
use crate::postings::{Slot, are_in_order};
use si_legal::Posting;
use std::alloc::{AllocError, Global};

// A list of more slots than this rises, or its places are hashed.
const SHORT: usize = 16;

/// How many postings a list has. The number shares the room of the mark that says whether their
/// places are hashed, as they are in a long list that doesn't rise.
#[derive(Drop)]
pub(crate) enum PostingCount {
    Plain(u32),
    Hashed(u32, Box<HashedPlaces>),
}

impl PostingCount {
    /// The number.
    pub(crate) fn number(&self) -> usize
        ensures { result ≡ count_in self.now }
    {
        match self {
            PostingCount::Plain(count) => *count as usize,
            PostingCount::Hashed(count, _) => *count as usize,
        }
    }

    /// Counts one more, for which a slot is about to be pushed. Where a long list would stop
    /// rising, its places are hashed: as many as came since it was last short, so each pays for a
    /// few. At an error all is as before.
    pub(crate) fn add(
        &mut self,
        alloc: Global,
        slots: &[Slot],
        slot: Slot,
    ) -> Result<(), AllocError>
        ensures ok { OnOk result (count_in self.new ≡ count_in self.old + 1) }
        ensures err { OnErr result (count_in self.new ≡ count_in self.old) }
    {
        let more = match self {
            PostingCount::Plain(count) => {
                let more = one_more(*count)?;
                if slots.len() < SHORT || rise_with(slots, slot) {
                    *count = more;
                    return Ok(());
                }
                more
            }
            PostingCount::Hashed(count, places) => {
                let more = one_more(*count)?;
                if places.has_room(slots.len()) {
                    places.note(slot, slots.len());
                } else {
                    **places = HashedPlaces::of(alloc, slots, slot)?;
                }
                *count = more;
                return Ok(());
            }
        };
        let places = HashedPlaces::of(alloc, slots, slot)?;
        *self = PostingCount::Hashed(more, Box::new(alloc, places)?);
        Ok(())
    }

    /// Counts one less, and answers its place, if that is hashed. It takes no memory.
    pub(crate) fn take(&mut self, slots: &[Slot], posting: Posting) -> Option<usize>
        ensures { count_in self.new ≡ count_in self.old - 1 }
    {
        match self {
            PostingCount::Plain(count) => {
                *count = count.saturating_sub(1);
                None
            }
            PostingCount::Hashed(count, places) => {
                *count = count.saturating_sub(1);
                places.take(slots, posting)
            }
        }
    }

    /// Hashes the places anew after slots were closed, unless few are left. It takes no memory.
    pub(crate) fn renew(&mut self, slots: &[Slot])
        ensures { count_in self.new ≡ count_in self.old }
    {
        let PostingCount::Hashed(count, places) = self else {
            return;
        };
        if slots.len() > SHORT {
            places.renew(slots);
            return;
        }
        *self = PostingCount::Plain(*count);
    }
}

// One more. A number beyond 32 bits is answered as want of memory.
fn one_more(count: u32) -> Result<u32, AllocError>
    ensures { IfOk result (λ more. more ≡ count + 1) }
{
    match count.checked_add(1) {
        Some(more) => Ok(more),
        None => Err(AllocError),
    }
}

// Whether slots still rise with one more. Those of a list that isn't short are known to rise.
fn rise_with(slots: &[Slot], slot: Slot) -> bool {
    let Some(last) = slots.last() else {
        return true;
    };
    if !are_in_order(last.kept(), slot.kept()) {
        return false;
    }
    slots.len() > SHORT || rise(slots)
}

// Whether slots rise.
fn rise(slots: &[Slot]) -> bool {
    for place in 1..slots.len() {
        if !are_in_order(slots[place - 1].kept(), slots[place].kept()) {
            return false;
        }
    }
    true
}
