// A walk over a term of the program, which writes its cells.
ghost use Rattle.std.specs.Prelude.{◌≡◌, ◌<◌, ◌≤◌, ◌-◌, ◌^◌, [], OnOk, OnErr, length, map, slice_set, vec_capacity};
ghost use Rattle.si_defs.specs.Terms.{row, size, sizes};
ghost use Rattle.si_defs.specs.declared.TheConstants.{MOST_OCCURRENCES};
ghost use Rattle.si_term.specs.Terms.{term_of};
ghost use Rattle.si_term.specs.Meaning.{entry_of};
ghost use Rattle.si_flat.specs.declared.Cell.TheVariants.{App};
ghost use Rattle.si_flat.specs.Cells.{variable_cell};
ghost use Rattle.si_flat.specs.Rooms.{IsNoLess};
ghost use Rattle.si_defs.specs.Entries.{whole_of};
ghost use Rattle.si_flat.specs.Flattened.{is_positive, IsEnoughFor};
ghost use Rattle.si_flat.specs.Flattening.{owners_variable, met_names, met_extra, room_of, walk_state, MayMeet, Flattens, FitsRoom, WritesEntry, term_piece, terms_piece};

use crate::met::{FIRST_EXTRA, Met};
use crate::{Cell, Owner};
use si_term::{Entry, SymTable, Term};
use std::alloc::{AllocError, Global};

// Room for so many cells is made at once: most entries of a prover's clauses have no more.
pub(crate) const FEW_CELLS: usize = 16;

/// What the numbers of symbols and the kind of variables go by.
#[derive(Clone, Copy)]
pub(crate) struct Scheme {
    /// Whether the atom is that of a positive literal, or a term by itself.
    pub(crate) positive: bool,
    pub(crate) owner: Owner,
    /// The number of the first symbol that isn't in the table.
    pub(crate) first: u32,
}

/// What was met, and the cells that were written.
#[derive(Drop)]
pub(crate) struct WrittenEntry<'a> {
    pub(crate) met: Met<'a>,
    pub(crate) cells: Vec<Cell>,
}

impl<'a> WrittenEntry<'a> {
    // Nothing was met or written.
    pub(crate) fn new(alloc: Global) -> WrittenEntry<'a>
        ensures names { met_names result.met ≡ [] }
        ensures extra { met_extra result.met ≡ [] }
        ensures cells { result.cells.items ≡ [] }
    {
        WrittenEntry {
            met: Met::new(alloc),
            cells: Vec::new(alloc),
        }
    }

    // Forgets what was met and written, and keeps the room.
    pub(crate) fn clear(&mut self)
        ensures names { met_names self.new.met ≡ [] }
        ensures extra { met_extra self.new.met ≡ [] }
        ensures cells { self.new.cells.items ≡ [] }
        ensures keeps { IsNoLess (room_of self.old.met (vec_capacity self.old.cells))
            (room_of self.new.met (vec_capacity self.new.cells)) }
    {
        self.met.clear();
        self.cells.clear();
    }

    // Writes the cells of an entry, in place of what was written.
    pub(crate) fn write<T: SymTable>(
        &mut self,
        table: &T,
        owner: Owner,
        entry: Entry<'a>,
    ) -> Result<(), AllocError>
        requires { size (whole_of (entry_of entry)) ≤ MOST_OCCURRENCES }
        ensures flat { OnOk result (WritesEntry (T.pairs table.now) owner (entry_of entry.entry)
            self.new) }
        ensures full { OnErr result (IsEnoughFor (T.pairs table.now) (entry_of entry.entry)
            (room_of self.old.met (vec_capacity self.old.cells)) → ⊥) }
        ensures enough { OnOk result (IsEnoughFor (T.pairs table.now) (entry_of entry.entry)
            (room_of self.new.met (vec_capacity self.new.cells))) }
        ensures keeps { IsNoLess (room_of self.old.met (vec_capacity self.old.cells))
            (room_of self.new.met (vec_capacity self.new.cells)) }
    {
        let scheme = Scheme {
            positive: is_positive(entry),
            owner,
            first: FIRST_EXTRA,
        };
        self.clear();
        self.cells.reserve(FEW_CELLS)?;
        write_term(table, scheme, entry.whole(), &mut self.met, &mut self.cells)
    }
}

// Whether it is a positive literal, or a term by itself.
fn is_positive(entry: Entry<'_>) -> bool
    ensures { result ≡ is_positive (entry_of entry.entry) }
{
    match entry {
        Entry::Lit(literal) => literal.positive,
        Entry::Sub(_) => true,
    }
}

impl Owner {
    // The cell of a variable.
    pub(crate) fn cell(self, number: u32) -> Cell
        ensures { result ≡ variable_cell (owners_variable self number) }
    {
        match self {
            Owner::Query => Cell::Query(number),
            Owner::Entry => Cell::Entry(number),
        }
    }
}

// Appends the cells of a term.
#[cycle(write)]
pub(crate) fn write_term<'a, T: SymTable>(
    table: &T,
    scheme: Scheme,
    term: &'a Term,
    met: &mut Met<'a>,
    cells: &mut Vec<Cell>,
) -> Result<(), AllocError>
    requires room { MayMeet scheme met.old (size (term_of term.now)) }
    ensures flat { OnOk result (Flattens (T.pairs table.now) scheme
        (walk_state met.old cells.old.items) (walk_state met.new cells.new.items)
        (term_piece (term_of term.now))) }
    ensures full { OnErr result (FitsRoom (T.pairs table.now)
        (room_of met.old (vec_capacity cells.old)) (walk_state met.old cells.old.items)
        (term_piece (term_of term.now)) (size (term_of term.now)) → ⊥) }
    ensures keeps { IsNoLess (room_of met.old (vec_capacity cells.old))
        (room_of met.new (vec_capacity cells.new)) }
{
    match term {
        Term::Var(name) => {
            let number = met.variable(name.as_bytes())?;
            cells.push(scheme.owner.cell(number))?;
            Ok(())
        }
        Term::App(symbol, arguments) => {
            let arity = symbol.arity;
            let number = met.symbol(table, scheme, symbol)?;
            let at = cells.len();
            cells.push(Cell::App {
                sym: number,
                arity,
                len: 1,
            })?;
            write_terms(table, scheme, arguments.as_slice(), met, cells)?;
            close(cells, at, number, arity);
            Ok(())
        }
    }
}

// Puts the cell of a symbol before its arguments, which are all that follows.
pub(crate) fn close(cells: &mut Vec<Cell>, at: usize, number: u32, arity: u32)
    requires inside { at < length cells.old.items }
    requires short { length cells.old.items - at < 2 ^ 32 }
    ensures cells { cells.new.items ≡ slice_set cells.old.items at
        (App number arity (length cells.old.items - at)) }
    ensures capacity { vec_capacity cells.new ≡ vec_capacity cells.old }
{
    let len = (cells.len() - at) as u32;
    cells[at] = Cell::App {
        sym: number,
        arity,
        len,
    };
}

#[cycle(write)]
fn write_terms<'a, T: SymTable>(
    table: &T,
    scheme: Scheme,
    terms: &'a [Term],
    met: &mut Met<'a>,
    cells: &mut Vec<Cell>,
) -> Result<(), AllocError>
    requires room { MayMeet scheme met.old (sizes (row (map term_of terms.now))) }
    ensures flat { OnOk result (Flattens (T.pairs table.now) scheme
        (walk_state met.old cells.old.items) (walk_state met.new cells.new.items)
        (terms_piece (row (map term_of terms.now)))) }
    ensures full { OnErr result (FitsRoom (T.pairs table.now)
        (room_of met.old (vec_capacity cells.old)) (walk_state met.old cells.old.items)
        (terms_piece (row (map term_of terms.now))) (sizes (row (map term_of terms.now))) → ⊥) }
    ensures keeps { IsNoLess (room_of met.old (vec_capacity cells.old))
        (room_of met.new (vec_capacity cells.new)) }
{
    for i in 0..terms.len() {
        write_term(table, scheme, &terms[i], met, cells)?;
    }
    Ok(())
}
