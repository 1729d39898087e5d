// A list whose items are found by key and by position, and from which any item can be taken.
ghost use Rattle.std.specs.Prelude.{◌≡◌, ◌<◌, ◌≤◌, ◌+◌, ◌*◌, ◌-◌, ◌^◌, [], ◌∷◌, ◌++◌, IfOk, IfErr, OnOk, OnErr, IfSome, IfNone, Some, length, slice_get, slice_set, vec_capacity};
ghost use Rattle.slab.specs.Slab.{get, slab_len, ContainsKey, HasRoomFor, Updates};
ghost use Rattle.si_defs.specs.Substitutions.{IsAmong, AreDistinct};
ghost use Rattle.si_keyed.specs.Halves.{sum_of};
ghost use Rattle.si_keyed.specs.Keyed.{item_keys, HasKey, HasKeyAt, IsTakenOut, HasFewHoles};
ghost use Rattle.si_keyed.specs.Placed.{placed_items, PlacesRise, HaveMarks};
ghost use Rattle.si_keyed.specs.KeyedSlots.{kept, flags, marked, without_holes, HaveFewHoles, IsLinked, KnowsKeys, IsIndexed};
ghost use Rattle.std.specs.Iterator.{YieldsFirstBy, item_count};

use crate::places::Places;
use crate::ranks::Ranks;
use slab::Slab;
use std::alloc::{AllocError, Global};
use std::marker::Model;

/// An item with its key.
#[derive(Drop)]
pub(crate) struct Kept<T> {
    pub(crate) key: usize,
    pub(crate) item: T,
}

/// A list in the order of insertion. An item goes by a key, which it keeps while it is there, and
/// can be taken from anywhere without a pass over the items after it: a hole is left, and where
/// most slots are holes, they are closed.
///
/// Each item has a mark. The marks stand in one slice, by slot, so that all are read without the
/// items.
///
/// Contracts see the list of the keys and items, that of the keys and marks, and the number of
/// slots.
#[derive(Drop)]
pub struct KeyedList<T, M: Copy> {
    alloc: Global,
    slots: Vec<Option<Kept<T>>>,
    // The mark of the item in each slot. A hole still has that of the item that was there.
    marks: Vec<M>,
    // The place of each key's item among the slots.
    places: Slab<usize>,
    // How many items stand at each place, so that positions are found.
    ranks: Ranks,
}

impl<T, M: Copy> Model for KeyedList<T, M> {
    ghost use Rattle.std.specs.Prelude.{◌≡◌, length};
    ghost use Rattle.si_keyed.specs.Keyed.{Keyed, keyed_code};

    ghost Value = { Keyed T M };

    ghost coded = { keyed_code T.code M.code };

    ghost use Rattle.si_keyed.specs.KeyedSlots.{seen, HaveFewHoles, IsIndexed};

    ghost view = { λ l. seen l.slots.items l.marks.items };

    ghost invariant = { λ l. IsIndexed l.slots.items l.places l.ranks
        × HaveFewHoles l.slots.items × (length l.marks.items ≡ length l.slots.items) };
}

impl<T, M: Copy> KeyedList<T, M> {
    /// The empty list.
    pub fn new(alloc: Global) -> KeyedList<T, M>
        ensures { result ≡ record { items = []; marks = []; slots = 0 } }
    {
        KeyedList {
            alloc,
            slots: Vec::new(alloc),
            marks: Vec::new(alloc),
            places: Slab::new(alloc),
            ranks: Ranks::new(alloc),
        }
    }

    /// The number of items. No two have the same key.
    pub fn len(&self) -> usize
        ensures number { result ≡ length self.now.items }
        ensures distinct { AreDistinct (item_keys self.now.items) }
    {
        self.places.len()
    }

    /// The item with this key.
    pub fn get(&self, key: usize) -> Option<&T>
        ensures some { IfSome result (λ item. IsAmong self.now.items (key, item.now)) }
        ensures none { IfNone result (HasKey self.now.items key → ⊥) }
    {
        let place = *self.places.get(key)?;
        let Some(kept) = &self.slots[place] else {
            unreachable!()
        };
        Some(&kept.item)
    }

    /// The key and the item at a position.
    pub fn at(&self, position: usize) -> (usize, &T)
        requires { position < length self.now.items }
        ensures { slice_get self.now.items position ≡ Some (result.0, result.1.now) }
    {
        let kept = kept_at(self.slots.as_slice(), &self.ranks, position);
        (kept.key, &kept.item)
    }

    /// The key of the last item.
    pub fn last_key(&self) -> Option<usize>
        ensures some { IfSome result (λ key. HasKeyAt self.now.items
            (length self.now.items - 1) key) }
        ensures none { IfNone result (self.now.items ≡ []) }
    {
        let last = self.places.len().checked_sub(1)?;
        let kept = kept_at(self.slots.as_slice(), &self.ranks, last);
        Some(kept.key)
    }

    /// The position of the item with this key.
    pub fn position(&self, key: usize) -> usize
        requires { HasKey self.now.items key }
        ensures { HasKeyAt self.now.items result key }
    {
        self.ranks.before(self.places[key])
    }

    /// Where the items stand.
    pub fn places(&self) -> Places<'_, T>
        ensures items { placed_items result ≡ self.now.items }
        ensures rise { PlacesRise result }
    {
        self.marked_places().0
    }

    /// Where the items stand, and the marks by those places. A place without an item has some mark
    /// too.
    pub fn marked_places(&self) -> (Places<'_, T>, &[M])
        ensures items { placed_items result.0 ≡ self.now.items }
        ensures rise { PlacesRise result.0 }
        ensures marks { HaveMarks result.0 self.now.marks result.1.now }
        ensures few { length result.1.now ≤ 2 * length self.now.items + 1 }
    {
        let places = Places {
            slots: self.slots.as_slice(),
            places: &self.places,
            ranks: &self.ranks,
        };
        (places, self.marks.as_slice())
    }

    /// The keys and items, in order.
    pub fn iter(&self) -> KeyedItems<'_, T>
        ensures { result ≡ self.now.items }
    {
        KeyedItems {
            slots: self.slots.as_slice(),
        }
    }
}

impl<T: Drop, M: Copy> KeyedList<T, M> {
    /// Appends an item with its mark, and answers its key. Where memory runs out, the list is as
    /// before, and the item is handed back.
    pub fn push(&mut self, item: T, mark: M) -> Result<usize, T>
        ensures pushed { IfOk result (λ key. self.new.items ≡ self.old.items ++ (key, item) ∷ []) }
        ensures marked { IfOk result (λ key. self.new.marks ≡ self.old.marks ++ (key, mark) ∷ []) }
        ensures fresh { IfOk result (λ key. HasKey self.old.items key → ⊥) }
        ensures unmarked { IfOk result (λ key. HasKey self.old.marks key → ⊥) }
        ensures few_holes { HasFewHoles self.new }
        ensures handed_back { IfErr result (λ back. back ≡ item) }
        ensures err { OnErr result (self.new ≡ self.old) }
    {
        let room = make_room(
            self.alloc,
            &mut self.slots,
            &mut self.marks,
            &mut self.places,
            &mut self.ranks,
        );
        if room.is_err() {
            return Err(item);
        }
        let key = self.places.insert_reserved(self.slots.len());
        self.slots.push(Some(Kept { key, item })).unwrap();
        self.marks.push(mark).unwrap();
        Ok(key)
    }

    /// Takes out the item with this key. It takes no memory.
    pub fn remove(&mut self, key: usize) -> T
        requires { HasKey self.old.items key }
        ensures taken { IsTakenOut self.old.items key result self.new.items }
        ensures marks { (mark : M) × IsTakenOut self.old.marks key mark self.new.marks }
        ensures few_holes { HasFewHoles self.new }
    {
        let place = self.places.remove(key);
        self.ranks.lower(place);
        let taken = self.slots[place].take().unwrap();
        close_if_sparse(
            &mut self.slots,
            &mut self.marks,
            &mut self.places,
            &mut self.ranks,
        );
        taken.item
    }
}

/// Makes room for one more item, and counts it already. At an error all is as before.
fn make_room<T, M: Copy>(
    alloc: Global,
    slots: &mut Vec<Option<Kept<T>>>,
    marks: &mut Vec<M>,
    places: &mut Slab<usize>,
    ranks: &mut Ranks,
) -> Result<(), AllocError>
    requires { IsIndexed slots.old.items places.old ranks.old }
    ensures slots { OnOk result (length slots.old.items < vec_capacity slots.new) }
    ensures marks { OnOk result (length marks.old.items < vec_capacity marks.new) }
    ensures places { OnOk result (HasRoomFor places.new 1) }
    ensures counted { OnOk result (ranks.new ≡ ranks.old ++ 1 ∷ []) }
    ensures err { OnErr result (ranks.new ≡ ranks.old) }
    ensures same_slots { slots.new.items ≡ slots.old.items }
    ensures same_marks { marks.new.items ≡ marks.old.items }
    ensures same_places { places.new.slots ≡ places.old.slots }
{
    slots.reserve(1)?;
    marks.reserve(1)?;
    places.reserve(1)?;
    ranks.push(alloc)
}

/// The item at a position.
fn kept_at<'a, T>(slots: &'a [Option<Kept<T>>], ranks: &Ranks, position: usize) -> &'a Kept<T>
    requires counted { ranks.now ≡ flags slots.now }
    requires inside { position < length (kept slots.now) }
    requires small { sum_of ranks.now < 2 ^ 64 }
    ensures { slice_get (kept slots.now) position ≡ Some (result.now.key, result.now.item) }
{
    let (place, _) = ranks.find(position);
    slots[place].as_ref().unwrap()
}

/// Closes the holes where they are more than the items.
fn close_if_sparse<T: Drop, M: Copy>(
    slots: &mut Vec<Option<Kept<T>>>,
    marks: &mut Vec<M>,
    places: &mut Slab<usize>,
    ranks: &mut Ranks,
)
    requires indexed { IsIndexed slots.old.items places.old ranks.old }
    requires marked { length marks.old.items ≡ length slots.old.items }
    ensures same { kept slots.new.items ≡ kept slots.old.items }
    ensures same_marks { marked slots.new.items marks.new.items
        ≡ marked slots.old.items marks.old.items }
    ensures marked { length marks.new.items ≡ length slots.new.items }
    ensures indexed { IsIndexed slots.new.items places.new ranks.new }
    ensures few_holes { HaveFewHoles slots.new.items }
{
    if places.len() >= slots.len() / 2 {
        return;
    }
    close_marks(slots.as_slice(), marks);
    slots.retain(|slot| slot.is_some());
    renumber(slots.as_slice(), places);
    ranks.refill(slots.len());
}

/// Leaves the marks of items alone.
fn close_marks<T, M: Copy>(slots: &[Option<Kept<T>>], marks: &mut Vec<M>)
    requires { length marks.old.items ≡ length slots.now }
    ensures { marks.new.items ≡ without_holes slots.now marks.old.items }
{
    let mut count = 0;
    for (place, slot) in slots.iter().enumerate() {
        if slot.is_some() {
            put_mark(marks, count, place);
            count += 1;
        }
    }
    marks.truncate(count);
}

/// Puts the mark of one place in the other.
fn put_mark<M: Copy>(marks: &mut Vec<M>, to: usize, from: usize)
    requires { to ≤ from × from < length marks.old.items }
    ensures { (mark : M) × (slice_get marks.old.items from ≡ Some mark)
        × (marks.new.items ≡ slice_set marks.old.items to mark) }
{
    marks[to] = marks[from];
}

/// Has the key of each item lead to its place.
fn renumber<T>(slots: &[Option<Kept<T>>], places: &mut Slab<usize>)
    requires { KnowsKeys (kept slots.now) (λ key. get places.old key) }
    ensures linked { IsLinked slots.now (λ key. get places.new key) }
    ensures number { slab_len places.new ≡ slab_len places.old }
{
    for (place, slot) in slots.iter().enumerate() {
        if let Some(kept) = slot {
            lead(kept.key, place, places);
        }
    }
}

/// Has a key lead to another place.
fn lead(key: usize, place: usize, places: &mut Slab<usize>)
    requires { ContainsKey places.old key }
    ensures updates { Updates places.old places.new key (Some place) }
    ensures number { slab_len places.new ≡ slab_len places.old }
{
    let Some(noted) = places.get_mut(key) else {
        unreachable!()
    };
    *noted = place;
}

/// The keys and items of a list, in order, seen as the list of those that are left.
#[derive(Drop)]
pub struct KeyedItems<'a, T> {
    slots: &'a [Option<Kept<T>>],
}

impl<'a, T> Model for KeyedItems<'a, T> {
    ghost use Rattle.std.specs.Prelude.{List, ℕ};

    ghost Value = { List (ℕ × T) };

    ghost use Rattle.si_keyed.specs.KeyedSlots.{kept};

    ghost view = { λ items. kept items.slots.now };
}

impl<'a, T> Iterator for KeyedItems<'a, T> {
    type Item = (usize, &'a T);

    ghost next_gives = { YieldsFirstBy (λ item. (item.0, item.1.now)) (λ rest. rest) };

    ghost remaining = { item_count (λ rest. rest) };

    fn next(&mut self) -> Option<(usize, &'a T)> {
        while let Some((slot, rest)) = self.slots.split_first() {
            self.slots = rest;
            if let Some(kept) = slot {
                return Some((kept.key, &kept.item));
            }
        }
        None
    }
}
