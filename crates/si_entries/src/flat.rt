// A walk through the flat terms of a clause's entries.
ghost use Rattle.std.specs.Prelude.{◌≡◌, ◌≤◌, List, IfOk, length, drop};
ghost use Rattle.si_defs.specs.Symbols.{Numbering};
ghost use Rattle.si_defs.specs.Clauses.{IsSoundClause};
ghost use Rattle.si_defs.specs.Entries.{Entry as Given};
ghost use Rattle.si_term.specs.Meaning.{clause_of};
ghost use Rattle.si_entries.specs.FlatWalks.{AreLeft, AreLeftAtStart, GivesNext, GivesFlat, GivesSubterm, IsAtLiteralEnd, from_symbol};

use crate::numbers::{MetVariables, write_anew};
use si_flat::{Cell, EntryBuffer, sub};
use si_term::{Clause, Entry, Literal, SymTable};
use std::alloc::{AllocError, Global};

/// A walk through the flat terms of a clause's entries, in their order. Each literal is made flat
/// once; the flat terms of its subterms are read off its cells. It keeps the memory that it grew to
/// from entry to entry.
#[derive(Drop)]
pub struct FlatEntries<'a> {
    literals: &'a [Literal],
    // The literal that it is in.
    literal: EntryBuffer<'a>,
    // The place of the first of its cells that wasn't passed.
    at: usize,
    met: MetVariables,
    // The entry that it went to last.
    cells: Vec<Cell>,
}

impl<'a> FlatEntries<'a> {
    /// All entries of a clause are left. It takes no memory yet.
    pub fn new(alloc: Global, clause: &'a Clause) -> FlatEntries<'a>
        requires { IsSoundClause (clause_of clause.now) }
        ensures { AreLeftAtStart (clause_of clause.now) result }
    {
        FlatEntries {
            literals: clause.literals.as_slice(),
            literal: EntryBuffer::new(alloc),
            at: 0,
            met: MetVariables::new(alloc),
            cells: Vec::new(alloc),
        }
    }

    /// Goes to the next entry, and tells whether it is a literal; `None` at the end. The table has
    /// the numbers of the symbols, and is the same at each call. After an error the walk is of no
    /// use.
    pub fn next<T: SymTable>(&mut self, table: &T) -> Result<Option<bool>, AllocError>
        requires { (left : List Given) × AreLeft (T.pairs table.now) self.old left }
        ensures { IfOk result (GivesFlat (T.pairs table.now) self.old self.new) }
    {
        if self.next_subterm()? {
            return Ok(Some(false));
        }
        self.next_literal(table)
    }

    /// The cells of the flat term of the entry that it went to last.
    pub fn cells(&self) -> &[Cell]
        ensures { result.now ≡ self.now.cells.items }
    {
        self.cells.as_slice()
    }
}

impl<'a> FlatEntries<'a> {
    /// Goes to the next subterm in the literal, if there is one.
    fn next_subterm(&mut self) -> Result<bool, AllocError>
        requires { (numbers : Numbering) × ((left : List Given) × AreLeft numbers self.old left) }
        ensures { IfOk result (GivesSubterm self.old self.new) }
    {
        let cells = self.literal.cells();
        let at = next_symbol(cells, self.at);
        if at == cells.len() {
            return Ok(false);
        }
        write_anew(sub(cells, at), &mut self.met, &mut self.cells)?;
        self.at = at + 1;
        Ok(true)
    }

    /// Goes to the next literal; `None` at the end.
    fn next_literal<T: SymTable>(&mut self, table: &T) -> Result<Option<bool>, AllocError>
        requires { (left : List Given) × IsAtLiteralEnd (T.pairs table.now) self.old left }
        ensures { IfOk result (λ o. (left : List Given)
            → IsAtLiteralEnd (T.pairs table.now) self.old left
            → GivesNext (T.pairs table.now) self.new o left) }
    {
        let Some((literal, others)) = self.literals.split_first() else {
            return Ok(None);
        };
        if !self.literal.fill(table, Entry::Lit(literal))? {
            unreachable!()
        }
        self.cells.clear();
        self.cells.extend_from_slice(self.literal.cells())?;
        self.literals = others;
        self.at = 1;
        Ok(Some(true))
    }
}

/// The place of the first symbol's cell from a place on; where there is none, the number of cells.
fn next_symbol(cells: &[Cell], from: usize) -> usize
    requires { from ≤ length cells.now }
    ensures within { result ≤ length cells.now }
    ensures symbol { drop result cells.now ≡ from_symbol (drop from cells.now) }
{
    let mut at = from;
    while at < cells.len() {
        if let Cell::App { .. } = cells[at] {
            return at;
        }
        at += 1;
    }
    at
}
