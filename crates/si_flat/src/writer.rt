// A query's term whose cells are written one after the other.
ghost use Rattle.std.specs.Prelude.{◌≡◌, ◌<◌, ◌≤◌, ◌-◌, ◌^◌, ℕ, IfNone, IfOk, IfSome, OnOk, length};
ghost use Rattle.si_defs.specs.Symbols.{Numbering};
ghost use Rattle.si_defs.specs.Clauses.{IsSoundPattern, Pattern};
ghost use Rattle.si_defs.specs.Substitutions.{IsAmong};
ghost use Rattle.si_defs.specs.Terms as terms;
ghost use Rattle.si_defs.specs.declared.TheConstants.{MOST_OCCURRENCES};
ghost use Rattle.si_term.specs.Terms.{symbol_of};
ghost use Rattle.si_flat.specs.Flattened.{FlattensPattern};
ghost use Rattle.si_flat.specs.Flattening.{empty_walk, term_piece, IsWritten, WritesPattern};
ghost use Rattle.si_flat.specs.Writing.{Opens, PutsSymbol, WritesPiece};

use crate::flatten::FlatQuery;
use crate::met::with_sign;
use crate::walk::{FEW_CELLS, WrittenEntry, close};
use crate::{Cell, Owner};
use si_term::{Sym, SymTable};
use std::alloc::{AllocError, Global};
use std::marker::Model;

/// The cells of a query's term while they are written, and the variables that were met: for readers
/// that make no term. Contracts see both.
#[derive(Drop)]
pub struct QueryWriter<'a> {
    written: WrittenEntry<'a>,
}

impl<'a> Model for QueryWriter<'a> {
    ghost use Rattle.si_flat.specs.Flattening.{WalkState, walk_state};

    ghost Value = { WalkState };

    ghost view = { λ w. walk_state w.written.met w.written.cells.items };
}

/// The place of a symbol's cell that isn't written yet. Contracts see it.
#[derive(Drop)]
pub struct Gap {
    place: usize,
}

impl Model for Gap {
    ghost use Rattle.std.specs.Prelude.{ℕ};

    ghost Value = { ℕ };

    ghost view = { λ gap. gap.place };
}

impl<'a> QueryWriter<'a> {
    /// Nothing was written. There is room for the cells of most queries.
    pub fn new(alloc: Global) -> Result<QueryWriter<'a>, AllocError>
        ensures { IfOk result (λ w. w ≡ empty_walk) }
    {
        let mut written = WrittenEntry::new(alloc);
        written.cells.reserve(FEW_CELLS)?;
        Ok(QueryWriter { written })
    }

    /// Writes the cell of a variable.
    pub fn variable(&mut self, name: &'a [u8]) -> Result<(), AllocError>
        requires { length self.old.names ≤ MOST_OCCURRENCES }
        ensures { OnOk result ((pairs : Numbering) → WritesPiece pairs self.old self.new
            (term_piece (terms.var name.now))) }
    {
        let number = self.written.met.variable(name)?;
        self.written.cells.push(Owner::Query.cell(number))?;
        Ok(())
    }

    /// Leaves a place for the cell of a symbol, whose arguments are written next.
    pub fn open(&mut self) -> Result<Gap, AllocError>
        ensures { IfOk result (λ gap. Opens gap self.old self.new) }
    {
        let place = self.written.cells.len();
        self.written.cells.push(Cell::Query(0))?;
        Ok(Gap { place })
    }

    /// Puts the cell of a symbol in the place that was left for it. Its arguments are all that was
    /// written after that. `None` where the table lacks the symbol.
    pub fn close<T: SymTable>(
        &mut self,
        table: &T,
        gap: Gap,
        symbol: &Sym,
        positive: bool,
    ) -> Option<()>
        requires inside { gap < length self.old.cells }
        requires short { length self.old.cells - gap < 2 ^ 32 }
        ensures put { IfSome result (λ _. PutsSymbol (T.pairs table.now) (symbol_of symbol.now)
            positive gap self.old self.new) }
        ensures lacks { IfNone result ((n : ℕ)
            → IsAmong (T.pairs table.now) (symbol_of symbol.now, n) → ⊥) }
    {
        let number = table.id_of(symbol)?;
        let signed = with_sign(number, positive, symbol.side);
        close(&mut self.written.cells, gap.place, signed, symbol.arity);
        Some(())
    }

    /// What was written, as the query of the pattern whose cells these are.
    pub fn into_query(self, alloc: Global) -> Result<FlatQuery, AllocError>
        requires { IsWritten self }
        ensures { IfOk result (λ q. (pairs : Numbering) (p : Pattern) → IsSoundPattern p
            → WritesPattern pairs p self.entry → FlattensPattern pairs p q) }
    {
        self.written.into_query(alloc)
    }
}
