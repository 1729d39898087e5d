// Where the postings of all clauses stand.
ghost use Rattle.std.specs.Prelude.{◌≡◌, ◌<◌, ℕ, [], ◌++◌, IfOk, OnOk, length};
ghost use Rattle.si_forest.specs.Notes.{notes_in, notes_of, keyed_span, AreSpans, HasNotes, HasPlaceForNotes, HasRoomForLocations, IsSpanWithin, KeepNotes};

use crate::location::Location;
use std::alloc::{AllocError, Global};

/// Which part of the list of locations a key has.
#[derive(Clone, Copy)]
pub(crate) struct Span {
    start: u32,
    len: u32,
}

/// The locations of the postings of all clauses, in one list. A clause has a span of it by its key:
/// these are its notes.
#[derive(Drop)]
pub(crate) struct Notes {
    locations: Vec<Location>,
    spans: Vec<Span>,
    // How many of the locations are in no span. It decides when they are closed.
    holes: usize,
}

impl Notes {
    /// No notes.
    pub(crate) fn new(alloc: Global) -> Notes
        ensures spans { AreSpans result }
        ensures none { (key : ℕ) → notes_of result key ≡ [] }
    {
        Notes {
            locations: Vec::new(alloc),
            spans: Vec::new(alloc),
            holes: 0,
        }
    }

    /// The notes of a key. There are none where no clause has the key.
    pub(crate) fn get(&self, key: usize) -> &[Location]
        requires { AreSpans self.now }
        ensures { result.now ≡ notes_of self.now key }
    {
        let Some(span) = self.spans.get(key) else {
            return Default::default();
        };
        &self.locations[span.start as usize..][..span.len as usize]
    }

    /// Makes place and room for so many notes of a key. All notes are as before.
    pub(crate) fn reserve(&mut self, key: usize, count: usize) -> Result<(), AllocError>
        requires { AreSpans self.old }
        ensures spans { AreSpans self.new }
        ensures keeps { KeepNotes self.old self.new }
        ensures place { OnOk result (HasPlaceForNotes self.new key count) }
    {
        make_place(&mut self.spans, key)?;
        make_room(&mut self.locations, count)
    }

    /// Gives a key these notes, for which there is place and room.
    pub(crate) fn set(&mut self, key: usize, notes: &[Location])
        requires spans { AreSpans self.old }
        requires place { HasPlaceForNotes self.old key (length notes.now) }
        ensures spans { AreSpans self.new }
        ensures set { HasNotes self.old self.new key notes.now }
    {
        let span = append(&mut self.locations, notes);
        self.put(key, span);
    }

    /// Takes the notes of a key away. It takes no memory, but to close the holes, which stay where
    /// there is none.
    pub(crate) fn clear(&mut self, alloc: Global, key: usize)
        requires { AreSpans self.old }
        ensures spans { AreSpans self.new }
        ensures none { HasNotes self.old self.new key [] }
    {
        if key >= self.spans.len() {
            return;
        }
        self.put(key, Span { start: 0, len: 0 });
        self.close(alloc);
    }

    // Puts a span in the place of the one that a key has.
    fn put(&mut self, key: usize, span: Span)
        requires spans { AreSpans self.old }
        requires place { key < length self.old.spans.items }
        requires within { IsSpanWithin (length self.old.locations.items) span }
        ensures spans { AreSpans self.new }
        ensures put { HasNotes self.old self.new key (notes_in self.old.locations.items span) }
    {
        self.holes = self.holes.saturating_add(self.spans[key].len as usize);
        self.spans[key] = span;
    }

    // Closes the holes, where they are more than half of the list plus one for each key.
    fn close(&mut self, alloc: Global)
        requires { AreSpans self.old }
        ensures spans { AreSpans self.new }
        ensures keeps { KeepNotes self.old self.new }
    {
        let most = self.spans.len().saturating_add(self.locations.len() / 2);
        if self.holes <= most {
            return;
        }
        if let Ok(notes) = self.closed(alloc) {
            *self = notes;
        }
    }

    // The same notes, with nothing between them.
    fn closed(&self, alloc: Global) -> Result<Notes, AllocError>
        requires { AreSpans self.now }
        ensures spans { IfOk result AreSpans }
        ensures keeps { IfOk result (KeepNotes self.now) }
    {
        let left = self.locations.len().saturating_sub(self.holes);
        let mut locations = Vec::with_capacity(alloc, left)?;
        let mut spans = Vec::with_capacity(alloc, self.spans.len())?;
        for key in 0..self.spans.len() {
            let notes = self.get(key);
            make_room(&mut locations, notes.len())?;
            let span = append(&mut locations, notes);
            spans.push(span)?;
        }
        Ok(Notes {
            locations,
            spans,
            holes: 0,
        })
    }
}

// Makes a place for the span of this key.
fn make_place(spans: &mut Vec<Span>, key: usize) -> Result<(), AllocError>
    ensures same { (other : ℕ)
        → keyed_span spans.new.items other ≡ keyed_span spans.old.items other }
    ensures place { OnOk result (key < length spans.new.items) }
{
    while spans.len() <= key {
        spans.push(Span { start: 0, len: 0 })?;
    }
    Ok(())
}

// Appends notes, for which there is room, and answers their span.
fn append(locations: &mut Vec<Location>, notes: &[Location]) -> Span
    requires { HasRoomForLocations locations.old (length notes.now) }
    ensures items { locations.new.items ≡ locations.old.items ++ notes.now }
    ensures span { notes_in locations.new.items result ≡ notes.now }
    ensures within { IsSpanWithin (length locations.new.items) result }
{
    let span = Span {
        start: locations.len() as u32,
        len: notes.len() as u32,
    };
    let Ok(()) = locations.extend_from_slice(notes) else {
        unreachable!()
    };
    span
}

// Makes room for so many more. A list that is full gets room for a quarter more besides. Where 32
// bits don't count them, or those before them, it is answered as want of memory.
fn make_room(locations: &mut Vec<Location>, more: usize) -> Result<(), AllocError>
    ensures same { locations.new.items ≡ locations.old.items }
    ensures room { OnOk result (HasRoomForLocations locations.new more) }
{
    let len = locations.len();
    if len > u32::MAX as usize || more > u32::MAX as usize {
        return Err(AllocError);
    }
    if locations.capacity() - len >= more {
        return Ok(());
    }
    locations.reserve_exact(more.saturating_add(len / 4))
}
