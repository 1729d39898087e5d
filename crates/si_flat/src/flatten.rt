// Entries and patterns as flat terms.
ghost use Rattle.std.specs.Prelude.{◌≡◌, [], IfOk, OnOk, OnErr, map};
ghost use Rattle.si_defs.specs.Clauses.{IsSoundPattern};
ghost use Rattle.si_defs.specs.Entries.{distinct_variables, pattern_entry};
ghost use Rattle.si_term.specs.Terms.{symbol_of};
ghost use Rattle.si_term.specs.Meaning.{entry_of, pattern_of};
ghost use Rattle.si_flat.specs.Cells.{IsWhole};
ghost use Rattle.si_flat.specs.Rooms.{IsNoLess};
ghost use Rattle.si_flat.specs.Flattening.{met_extra};
ghost use Rattle.si_flat.specs.Flattened.{IsSoundEntry, IsEnoughFor, FillsEntry, FlattensEntry, FlattensPattern};

use crate::walk::WrittenEntry;
use crate::{Cell, Flat, Owner};
use si_term::{Entry, Pattern, SymTable, Syms, Texts, copy_texts};
use std::alloc::{AllocError, Global};
use std::marker::Model;

/// The flat term of a pattern.
#[derive(Drop)]
pub struct FlatQuery {
    pub flat: Flat,
    /// The symbols that the table lacks, each once, in the order of their first occurrence. The
    /// one at place `k` has the number `FIRST_EXTRA + 2 * k`.
    pub extra: Syms,
}

/// A pattern's flat term with the names of its variables, in the order of their numbers.
#[derive(Drop)]
pub struct NamedQuery {
    pub query: FlatQuery,
    pub names: Texts,
}

impl WrittenEntry<'_> {
    // What was written, as a query.
    pub(crate) fn into_query(self, alloc: Global) -> Result<FlatQuery, AllocError>
        requires { IsWhole self.cells.items }
        ensures { IfOk result (λ q. (q.flat ≡ self.entry.cells.items)
            × (map symbol_of q.extra ≡ met_extra self.entry.met)) }
    {
        let extra = self.met.extra_symbols(alloc)?;
        Ok(FlatQuery {
            flat: Flat::with_room(self.cells),
            extra,
        })
    }
}

/// The flat term of an entry, with the table's numbers for its symbols. Its variables are numbered
/// from 0 in the order of their first occurrence. `None` where the table lacks a symbol.
///
/// The predicate of a negative literal has the number that is one above.
pub fn flatten_entry<T: SymTable>(
    alloc: Global,
    table: &T,
    entry: Entry<'_>,
) -> Result<Option<Flat>, AllocError>
    requires { IsSoundEntry (entry_of entry) }
    ensures { IfOk result (FlattensEntry (T.pairs table.now) (entry_of entry.entry)) }
{
    let mut written = WrittenEntry::new(alloc);
    written.write(table, Owner::Entry, entry)?;
    if written.met.has_extra() {
        return Ok(None);
    }
    Ok(Some(Flat::from_vec(written.cells)))
}

/// The flat term of a pattern, numbered in the same way, as a query's. Symbols that the table lacks
/// have numbers of their own.
pub fn flatten_pattern<T: SymTable>(
    alloc: Global,
    table: &T,
    pattern: &Pattern,
) -> Result<FlatQuery, AllocError>
    requires { IsSoundPattern (pattern_of pattern.now) }
    ensures { IfOk result (FlattensPattern (T.pairs table.now) (pattern_of pattern.now)) }
{
    let mut written = WrittenEntry::new(alloc);
    written.write(table, Owner::Query, pattern.as_entry())?;
    written.into_query(alloc)
}

/// Does the same as [`flatten_pattern`], and keeps the names of the variables, which are met in the
/// same walk.
pub fn flatten_with_names<T: SymTable>(
    alloc: Global,
    table: &T,
    pattern: &Pattern,
) -> Result<NamedQuery, AllocError>
    requires { IsSoundPattern (pattern_of pattern.now) }
    ensures query { IfOk result (λ named. FlattensPattern (T.pairs table.now)
        (pattern_of pattern.now) named.query) }
    ensures names { IfOk result (λ named. named.names
        ≡ distinct_variables (pattern_entry (pattern_of pattern.now))) }
{
    let mut written = WrittenEntry::new(alloc);
    written.write(table, Owner::Query, pattern.as_entry())?;
    let names = copy_texts(alloc, written.met.names())?;
    let query = written.into_query(alloc)?;
    Ok(NamedQuery { query, names })
}

/// Memory in which entries are made flat one after the other: for scans. Contracts see the cells
/// and the names, and how much fits in the memory that it grew to.
#[derive(Drop)]
pub struct EntryBuffer<'a> {
    written: WrittenEntry<'a>,
}

impl<'a> Model for EntryBuffer<'a> {
    ghost use Rattle.std.specs.Prelude.{vec_capacity};
    ghost use Rattle.si_flat.specs.Flattened.{Buffer};
    ghost use Rattle.si_flat.specs.Flattening.{met_names, room_of};

    ghost Value = { Buffer };

    ghost view = { λ b. record {
      cells = b.written.cells.items;
      names = met_names b.written.met;
      room = room_of b.written.met (vec_capacity b.written.cells);
    } };
}

impl<'a> EntryBuffer<'a> {
    /// An empty buffer. It takes no memory.
    pub fn new(alloc: Global) -> EntryBuffer<'a>
        ensures cells { result.cells ≡ [] }
        ensures names { result.names ≡ [] }
    {
        EntryBuffer {
            written: WrittenEntry::new(alloc),
        }
    }

    /// Puts the flat term of an entry in place of what the buffer held: the cells that
    /// [`flatten_entry`] gives, and the names of the entry's variables in the order of their
    /// numbers. It tells whether the table has each of the symbols. Where it lacks one, what the
    /// buffer shows is no entry's.
    ///
    /// # Errors
    ///
    /// `AllocError` where there is no memory; the buffer is empty then. It never comes where what
    /// the buffer grew to is enough for the entry, as it is once it was filled in.
    pub fn fill<T: SymTable>(&mut self, table: &T, entry: Entry<'a>) -> Result<bool, AllocError>
        requires { IsSoundEntry (entry_of entry) }
        ensures filled { IfOk result (FillsEntry (T.pairs table.now) (entry_of entry.entry)
            self.new.cells self.new.names) }
        ensures err { OnErr result ((self.new.cells ≡ []) × (self.new.names ≡ [])) }
        ensures full { OnErr result (IsEnoughFor (T.pairs table.now) (entry_of entry.entry)
            self.old.room → ⊥) }
        ensures enough { OnOk result (IsEnoughFor (T.pairs table.now) (entry_of entry.entry)
            self.new.room) }
        ensures keeps { IsNoLess self.old.room self.new.room }
    {
        match self.written.write(table, Owner::Entry, entry) {
            Ok(()) => Ok(!self.written.met.has_extra()),
            Err(refused) => {
                self.written.clear();
                Err(refused)
            }
        }
    }

    /// The cells.
    pub fn cells(&self) -> &[Cell]
        ensures { result.now ≡ self.now.cells }
    {
        self.written.cells.as_slice()
    }

    /// The names of the variables, in the order of their numbers.
    pub fn names(&self) -> &[&'a [u8]]
        ensures { map (λ name. name.now) result.now ≡ self.now.names }
    {
        self.written.met.names()
    }
}
