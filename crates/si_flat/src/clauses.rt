// Clauses as flat terms.
ghost use Rattle.std.specs.Prelude.{◌≡◌, ◌+◌, [], IfOk, OnOk, OnErr, map, vec_capacity};
ghost use Rattle.si_defs.specs.Clauses.{AreSoundLiterals, literals_size};
ghost use Rattle.si_term.specs.Meaning.{literal_of};
ghost use Rattle.si_flat.specs.Rooms.{IsNoLess};
ghost use Rattle.si_flat.specs.Flattening.{MayMeet, Flattens, FitsRoom, room_of, walk_state};
ghost use Rattle.si_flat.specs.FlatClauses.{FlattensClause, FlattensClauses, IsEnoughForClause, clause_scheme, literals_piece, clause_piece};

use crate::met::{FIRST_EXTRA, Met};
use crate::walk::{Scheme, WrittenEntry, close, write_term};
use crate::{Cell, Flat, Owner};
use si_term::{Literal, Literals, Sym, SymTable};
use std::alloc::{AllocError, Global};
use std::marker::Model;

/// The number of the head of a clause. It is odd, and no symbol's.
const CLAUSE_HEAD: u32 = 4_294_967_295;

// The table that lacks each symbol.
struct NoSymbols;

impl SymTable for NoSymbols {
    ghost pairs = { λ t. [] };

    fn id_of(&self, _sym: &Sym) -> Option<u32> {
        None
    }

    fn sym_at(&self, _id: u32) -> Option<&Sym> {
        None
    }
}

/// The flat terms of two clauses or formulas: of each one term, with the atoms of its literals in
/// order below a head that is no symbol.
///
/// The variables of `c` are a query's, and those of `d` an entry's. Both are numbered from 0 in the
/// order of their first occurrence in the whole list. The symbols of both together have even
/// numbers from 0, and the predicate of a negative literal the number that is one above.
pub fn flatten_clauses<'a>(
    alloc: Global,
    c: &'a Literals,
    d: &'a Literals,
) -> Result<(Flat, Flat), AllocError>
    requires c { AreSoundLiterals (map literal_of c.now) }
    requires d { AreSoundLiterals (map literal_of d.now) }
    ensures { IfOk result (FlattensClauses (map literal_of c.now) (map literal_of d.now)) }
{
    let mut met = Met::new(alloc);
    let mut first = Vec::new(alloc);
    write_clause(
        &NoSymbols,
        Owner::Query,
        0,
        c.as_slice(),
        &mut met,
        &mut first,
    )?;
    met.forget_variables();
    let mut second = Vec::new(alloc);
    write_clause(
        &NoSymbols,
        Owner::Entry,
        0,
        d.as_slice(),
        &mut met,
        &mut second,
    )?;
    Ok((Flat::from_vec(first), Flat::from_vec(second)))
}

/// Memory in which clauses are made flat one after the other, each as one term: the atoms of its
/// literals in order below a head that is no symbol. It keeps what it grew to, so a call that needs
/// no more takes no memory. Contracts see the cells, and how much fits in that memory.
#[derive(Drop)]
pub struct ClauseBuffer<'a> {
    written: WrittenEntry<'a>,
}

impl<'a> Model for ClauseBuffer<'a> {
    ghost use Rattle.std.specs.Prelude.{vec_capacity};
    ghost use Rattle.si_flat.specs.FlatClauses.{ClauseCells};
    ghost use Rattle.si_flat.specs.Flattening.{room_of};

    ghost Value = { ClauseCells };

    ghost view = { λ b. record {
      cells = b.written.cells.items;
      room = room_of b.written.met (vec_capacity b.written.cells);
    } };
}

impl<'a> ClauseBuffer<'a> {
    /// An empty buffer. It takes no memory.
    pub fn new(alloc: Global) -> ClauseBuffer<'a>
        ensures { result.cells ≡ [] }
    {
        ClauseBuffer {
            written: WrittenEntry::new(alloc),
        }
    }

    /// Puts the flat term of a clause or formula in place of what the buffer held, with the
    /// table's numbers for its symbols. Its variables are the owner's, numbered from 0 in the
    /// order of their first occurrence. Symbols that the table lacks are numbered from
    /// `FIRST_EXTRA` on, so clauses of which at most one has such symbols are flat by one
    /// numbering.
    ///
    /// # Errors
    ///
    /// `AllocError` where there is no memory; the buffer is empty then. It never comes where what
    /// the buffer grew to is enough for the clause, as it is once it was filled in.
    pub fn fill<T: SymTable>(
        &mut self,
        table: &T,
        owner: Owner,
        literals: &'a [Literal],
    ) -> Result<(), AllocError>
        requires { AreSoundLiterals (map literal_of literals.now) }
        ensures flat { OnOk result (FlattensClause (T.pairs table.now) owner
            (map literal_of literals.now) self.new.cells) }
        ensures err { OnErr result (self.new.cells ≡ []) }
        ensures full { OnErr result (IsEnoughForClause (T.pairs table.now)
            (map literal_of literals.now) self.old.room → ⊥) }
        ensures enough { OnOk result (IsEnoughForClause (T.pairs table.now)
            (map literal_of literals.now) self.new.room) }
        ensures keeps { IsNoLess self.old.room self.new.room }
    {
        match self.written.write_clause(table, owner, literals) {
            Ok(()) => Ok(()),
            Err(refused) => {
                self.written.clear();
                Err(refused)
            }
        }
    }

    /// The cells.
    pub fn cells(&self) -> &[Cell]
        ensures { result.now ≡ self.now.cells }
    {
        self.written.cells.as_slice()
    }
}

impl<'a> WrittenEntry<'a> {
    // Writes the cells of a clause, in place of what was written.
    fn write_clause<T: SymTable>(
        &mut self,
        table: &T,
        owner: Owner,
        literals: &'a [Literal],
    ) -> Result<(), AllocError>
        requires { AreSoundLiterals (map literal_of literals.now) }
        ensures flat { OnOk result (FlattensClause (T.pairs table.now) owner
            (map literal_of literals.now) self.new.cells.items) }
        ensures full { OnErr result (IsEnoughForClause (T.pairs table.now)
            (map literal_of literals.now)
            (room_of self.old.met (vec_capacity self.old.cells)) → ⊥) }
        ensures enough { OnOk result (IsEnoughForClause (T.pairs table.now)
            (map literal_of literals.now)
            (room_of self.new.met (vec_capacity self.new.cells))) }
        ensures keeps { IsNoLess (room_of self.old.met (vec_capacity self.old.cells))
            (room_of self.new.met (vec_capacity self.new.cells)) }
    {
        self.clear();
        write_clause(
            table,
            owner,
            FIRST_EXTRA,
            literals,
            &mut self.met,
            &mut self.cells,
        )
    }
}

// Writes the cells of a clause. The symbols outside the table are numbered from `first` on.
fn write_clause<'a, T: SymTable>(
    table: &T,
    owner: Owner,
    first: u32,
    literals: &'a [Literal],
    met: &mut Met<'a>,
    cells: &mut Vec<Cell>,
) -> Result<(), AllocError>
    requires empty { cells.old.items ≡ [] }
    requires room { MayMeet (clause_scheme owner first) met.old (literals_size
        (map literal_of literals.now)) }
    ensures flat { OnOk result (Flattens (T.pairs table.now) (clause_scheme owner first)
        (walk_state met.old []) (walk_state met.new cells.new.items)
        (clause_piece (map literal_of literals.now))) }
    ensures full { OnErr result (FitsRoom (T.pairs table.now)
        (room_of met.old (vec_capacity cells.old)) (walk_state met.old [])
        (clause_piece (map literal_of literals.now))
        (1 + literals_size (map literal_of literals.now)) → ⊥) }
    ensures keeps { IsNoLess (room_of met.old (vec_capacity cells.old))
        (room_of met.new (vec_capacity cells.new)) }
{
    cells.push(Cell::App {
        sym: CLAUSE_HEAD,
        arity: 0,
        len: 1,
    })?;
    write_literals(table, owner, first, literals, met, cells)?;
    close(cells, 0, CLAUSE_HEAD, literals.len() as u32);
    Ok(())
}

// Appends the cells of the atoms.
fn write_literals<'a, T: SymTable>(
    table: &T,
    owner: Owner,
    first: u32,
    literals: &'a [Literal],
    met: &mut Met<'a>,
    cells: &mut Vec<Cell>,
) -> Result<(), AllocError>
    requires room { MayMeet (clause_scheme owner first) met.old (literals_size
        (map literal_of literals.now)) }
    ensures flat { OnOk result (Flattens (T.pairs table.now) (clause_scheme owner first)
        (walk_state met.old cells.old.items) (walk_state met.new cells.new.items)
        (literals_piece (map literal_of literals.now))) }
    ensures full { OnErr result (FitsRoom (T.pairs table.now)
        (room_of met.old (vec_capacity cells.old)) (walk_state met.old cells.old.items)
        (literals_piece (map literal_of literals.now))
        (literals_size (map literal_of literals.now)) → ⊥) }
    ensures keeps { IsNoLess (room_of met.old (vec_capacity cells.old))
        (room_of met.new (vec_capacity cells.new)) }
{
    for i in 0..literals.len() {
        let literal = &literals[i];
        let scheme = Scheme {
            positive: literal.positive,
            owner,
            first,
        };
        write_term(table, scheme, &literal.atom, met, cells)?;
    }
    Ok(())
}
