// The postings of a leaf.
ghost use Rattle.std.specs.Prelude.{◌≡◌, ◌↔◌, ◌<◌, ◌≤◌, ◌^◌, ◌⊎◌, [], ◌∷◌, ◌++◌, ◌+◌, ◌==◌, IfOk, IsFalse, IsTrue, OnErr, OnOk, false, length, true, vec_capacity, vec_len, Some, slice_get};
ghost use Rattle.si_defs.specs.Substitutions.{IsAmong};
ghost use Rattle.si_legal.specs.declared.Posting as posting;
ghost use Rattle.si_tree.specs.Changes.{IsWithout};
ghost use Rattle.si_tree.specs.Slots.{filled_slot, posting_in, standing, stands, HasPostingAt};

use crate::count::PostingCount;
use si_legal::Posting;
use std::alloc::{AllocError, Global};
use std::marker::Model;
use std::slice;

// A list that is full gets room for a quarter more, and for so many besides.
const LEAST_ROOM: usize = 3;

// What is added to the entry of a posting that goes, so that its slot keeps its order. No entry of
// a posting that stands has so great a number.
const GONE: u32 = 1 << 31;

/// A posting, or the place of one that went.
#[derive(Clone, Copy)]
pub(crate) struct Slot {
    clause: u32,
    entry: u32,
}

/// The postings of a leaf, in order. Contracts see the list. One that goes leaves its slot empty,
/// so that no other is moved; where most slots are empty, they are closed.
#[derive(Drop)]
pub(crate) struct PostingList {
    slots: Vec<Slot>,
    count: PostingCount,
}

impl Model for PostingList {
    ghost use Rattle.std.specs.Prelude.{◌≡◌, List, length};
    ghost use Rattle.si_legal.specs.declared.Posting.{Posting};
    ghost use Rattle.si_tree.specs.Slots.{count_in, standing};

    ghost Value = { List Posting };

    ghost view = { λ p. standing p.slots.items };

    ghost invariant = { λ p. count_in p.count ≡ length (standing p.slots.items) };
}

/// The postings of a node, in order. Contracts see the list.
#[derive(Drop)]
pub struct Postings<'a> {
    slots: &'a [Slot],
    count: usize,
}

impl<'a> Model for Postings<'a> {
    ghost use Rattle.std.specs.Prelude.{◌≡◌, List, length};
    ghost use Rattle.si_legal.specs.declared.Posting.{Posting};
    ghost use Rattle.si_tree.specs.Slots.{standing};

    ghost Value = { List Posting };

    ghost view = { λ p. standing p.slots.now };

    ghost invariant = { λ p. p.count ≡ length (standing p.slots.now) };
}

impl PostingList {
    /// The posting of a slot, which stands there, and another.
    pub(crate) fn two(
        alloc: Global,
        first: Slot,
        posting: Posting,
    ) -> Result<PostingList, AllocError>
        requires { stands first ≡ true }
        ensures { IfOk result (λ postings. postings ≡ posting_in first ∷ posting ∷ []) }
    {
        let second = Slot::of(posting)?;
        let mut slots = Vec::with_capacity(alloc, LEAST_ROOM)?;
        slots.push_reserved(first);
        slots.push_reserved(second);
        Ok(PostingList {
            slots,
            count: PostingCount::Plain(2),
        })
    }

    /// All of them.
    pub(crate) fn all(&self) -> Postings<'_>
        ensures { result ≡ self.now }
    {
        Postings {
            slots: self.slots.as_slice(),
            count: self.count.number(),
        }
    }

    /// Appends a posting. At an error the list is as before.
    pub(crate) fn push(&mut self, alloc: Global, posting: Posting) -> Result<(), AllocError>
        ensures ok { OnOk result (self.new ≡ self.old ++ posting ∷ []) }
        ensures err { OnErr result (self.new ≡ self.old) }
    {
        let slot = Slot::of(posting)?;
        make_room(&mut self.slots)?;
        self.count.add(alloc, self.slots.as_slice(), slot)?;
        self.slots.push_reserved(slot);
        Ok(())
    }

    /// Takes out a posting. It takes no memory.
    pub(crate) fn remove(&mut self, posting: Posting)
        requires { IsAmong self.old posting }
        ensures { IsWithout self.old posting self.new }
    {
        let count = self.count.number();
        let noted = self.count.take(self.slots.as_slice(), posting);
        let place = place_of(self.slots.as_slice(), count, noted, posting);
        empty(&mut self.slots, place);
        self.close();
    }

    // Closes the empty slots where they are most. Of the slots passed here more than half were
    // emptied since the last time, so each removal pays for less than two.
    fn close(&mut self)
        ensures { self.new ≡ self.old }
    {
        if self.slots.len() / 2 <= self.count.number() {
            return;
        }
        self.slots.retain(|slot| slot.entry < GONE);
        self.slots.shrink_to_fit();
        self.count.renew(self.slots.as_slice());
    }
}

impl<'a> Postings<'a> {
    /// No postings.
    pub(crate) fn none() -> Postings<'a>
        ensures { result ≡ [] }
    {
        Postings {
            slots: Default::default(),
            count: 0,
        }
    }

    /// How many there are.
    pub fn len(&self) -> usize
        ensures { result ≡ length self.now }
    {
        self.count
    }

    /// Whether there are none.
    pub fn is_empty(&self) -> bool
        ensures { result ≡ (length self.now == 0) }
    {
        self.count == 0
    }

    /// The posting with this number from 0, found by a walk over the slots; `append_to` has all of
    /// them in one walk.
    pub fn at(&self, n: usize) -> Posting
        requires { n < length self.now }
        ensures { slice_get self.now n ≡ Some result }
    {
        let mut left = n;
        for slot in self.slots {
            if !slot.stands() {
                continue;
            }
            if left == 0 {
                return slot.posting();
            }
            left -= 1;
        }
        unreachable!()
    }

    /// Appends them to others, which have no less room then. At an error these are as before, and
    /// there was no room for them.
    pub fn append_to(&self, others: &mut Vec<Posting>) -> Result<(), AllocError>
        ensures ok { OnOk result (others.new.items ≡ others.old.items ++ self.now) }
        ensures err { OnErr result (others.new.items ≡ others.old.items) }
        ensures full { OnErr result (vec_capacity others.old
            < vec_len others.old + length self.now) }
        ensures keeps { vec_capacity others.old ≤ vec_capacity others.new }
    {
        others.reserve(self.count)?;
        for slot in self.slots {
            if slot.entry >= GONE {
                continue;
            }
            others.push_reserved(slot.posting());
        }
        Ok(())
    }
}

impl Slot {
    /// The slot in which the posting stands. A posting that no slot can hold is answered as want of
    /// memory: its clause has a key beyond 32 bits, or its entry a number beyond 31.
    pub(crate) fn of(posting: Posting) -> Result<Slot, AllocError>
        ensures is { IfOk result (λ slot. slot ≡ filled_slot posting) }
        ensures stands { IfOk result (λ slot. stands slot ≡ true) }
        ensures err { OnErr result ((2 ^ 32 ≤ posting.clause) ⊎ (2 ^ 31 ≤ posting.entry)) }
    {
        let Ok(clause) = u32::try_from(posting.clause) else {
            return Err(AllocError);
        };
        if posting.entry >= GONE {
            return Err(AllocError);
        }
        Ok(Slot {
            clause,
            entry: posting.entry,
        })
    }

    /// A slot in which none stands.
    pub(crate) fn vacant() -> Slot {
        Slot {
            clause: 0,
            entry: GONE,
        }
    }

    /// Whether a posting stands there still.
    pub(crate) fn stands(&self) -> bool
        ensures { result ≡ stands self.now }
    {
        self.entry < GONE
    }

    /// The posting that stands there, where one does.
    pub(crate) fn postings(&self) -> Postings<'_>
        ensures { result ≡ standing (self.now ∷ []) }
    {
        Postings {
            slots: slice::from_ref(self),
            count: usize::from(self.stands()),
        }
    }

    /// Empties the slot.
    pub(crate) fn empty(&mut self)
        ensures { stands self.new ≡ false }
    {
        self.entry = self.entry.saturating_add(GONE);
    }

    /// The posting that stands there, or that stood there last.
    pub(crate) fn kept(&self) -> Posting {
        Posting {
            clause: self.clause as usize,
            entry: self.entry % GONE,
        }
    }

    // The posting that the slot is read as, which stands there where the slot isn't empty.
    fn posting(&self) -> Posting
        ensures clause { result.clause ≡ self.now.clause }
        ensures entry { result.entry ≡ self.now.entry }
    {
        Posting {
            clause: self.clause as usize,
            entry: self.entry,
        }
    }
}

// Makes room for one more.
fn make_room(slots: &mut Vec<Slot>) -> Result<(), AllocError>
    ensures same { slots.new.items ≡ slots.old.items }
    ensures room { OnOk result (length slots.new.items < vec_capacity slots.new) }
{
    let len = slots.len();
    if len < slots.capacity() {
        return Ok(());
    }
    slots.reserve_exact(len / 4 + LEAST_ROOM)
}

// Empties a slot.
fn empty(slots: &mut Vec<Slot>, place: usize)
    requires { place < length slots.old.items }
    ensures { (p : posting.Posting) → HasPostingAt slots.old.items place p
        → IsWithout (standing slots.old.items) p (standing slots.new.items) }
{
    slots[place].entry = slots[place].entry.saturating_add(GONE);
}

/// Whether one posting may stand before another where they rise.
pub(crate) fn are_in_order(one: Posting, other: Posting) -> bool
    ensures { IsTrue result ↔ (one.clause < other.clause)
        ⊎ ((one.clause ≡ other.clause) × (one.entry ≤ other.entry)) }
{
    one.clause < other.clause || one.clause == other.clause && one.entry <= other.entry
}

// The place of a posting. It is sought where it was noted; where the first and the last one stand
// if so far the oldest or the newest went; and by halves, as most lists rise. Only in a short list
// is each place looked at.
fn place_of(slots: &[Slot], count: usize, noted: Option<usize>, posting: Posting) -> usize
    requires { IsAmong (standing slots.now) posting }
    ensures { HasPostingAt slots.now result posting }
{
    let first = noted.unwrap_or(slots.len().saturating_sub(count));
    if is_at(slots, first, posting) {
        return first;
    }
    let last = count.saturating_sub(1);
    if is_at(slots, last, posting) {
        return last;
    }
    let likely = place_if_rising(slots, posting);
    if is_at(slots, likely, posting) {
        return likely;
    }
    place_from_ends(slots, posting)
}

/// Whether the posting stands at this place.
pub(crate) fn is_at(slots: &[Slot], place: usize, posting: Posting) -> bool
    ensures yes { IsTrue result → HasPostingAt slots.now place posting }
    ensures no { IsFalse result → HasPostingAt slots.now place posting → ⊥ }
{
    let Some(slot) = slots.get(place) else {
        return false;
    };
    slot.clause as usize == posting.clause && slot.entry == posting.entry && slot.entry < GONE
}

// The place of a posting among slots that rise. Among others it is some place.
fn place_if_rising(slots: &[Slot], posting: Posting) -> usize {
    let mut low = 0;
    let mut count = slots.len();
    while count > 1 {
        let half = count / 2;
        if are_in_order(slots[low + half].kept(), posting) {
            low += half;
        }
        count -= half;
    }
    low
}

// The place of a posting, sought from both ends.
fn place_from_ends(slots: &[Slot], posting: Posting) -> usize
    requires { IsAmong (standing slots.now) posting }
    ensures { HasPostingAt slots.now result posting }
{
    for place in 0..slots.len() {
        if is_at(slots, place, posting) {
            return place;
        }
        let other = slots.len() - 1 - place;
        if is_at(slots, other, posting) {
            return other;
        }
    }
    unreachable!()
}
