// What the trees of an index are to hold: the postings and terms of the entries that are kept,
// worked out from the clauses.
use crate::seen::{Seen, SeenTree, Span, items_at};
use si_flat::Cell;
use si_index::Index;
use si_legal::Posting;
use si_sign::Signature;
use si_term::{Clause, Literal, Sym, SymTable, Term};
use std::alloc::{AllocError, Global};

/// An entry that is kept.
#[derive(Clone, Copy)]
pub struct Kept {
    /// Whether it is a literal.
    pub literal: bool,
    pub posting: Posting,
    pub term: Span,
}

/// All entries that are kept.
#[derive(Drop)]
pub struct KeptEntries<'a> {
    entries: Vec<Kept>,
    /// Their terms, without the lengths of subterms.
    cells: Vec<Cell>,
    /// The variables of the entry that is written, in the order of their first occurrence.
    names: Vec<&'a [u8]>,
    /// The posting of the next entry.
    next: Posting,
}

// Stands for a number that a symbol should have and hasn't. No tree has it.
const NONE: u32 = u32::MAX;

/// The symbol's number, if it has one that is even and leads back to it.
fn number_of(signature: &Signature, symbol: &Sym) -> u32 {
    let Some(number) = signature.id_of(symbol) else {
        return NONE;
    };
    let Some(back) = signature.sym_at(number) else {
        return NONE;
    };
    if number % 2 == 0 && back.is(symbol) {
        number
    } else {
        NONE
    }
}

impl<'a> KeptEntries<'a> {
    /// None is kept.
    pub fn new(alloc: Global) -> KeptEntries<'a> {
        KeptEntries {
            entries: Vec::new(alloc),
            cells: Vec::new(alloc),
            names: Vec::new(alloc),
            next: Posting {
                clause: 0,
                entry: 0,
            },
        }
    }

    /// The number of a variable, by its first occurrence in the entry.
    fn variable(&mut self, name: &'a [u8]) -> Result<u32, AllocError> {
        let mut number: u32 = 0;
        for other in self.names.as_slice() {
            if *other == name {
                return Ok(number);
            }
            number = number.saturating_add(1);
        }
        self.names.push(name)?;
        Ok(number)
    }

    /// Appends the cells of a term. Its head's number is one more where it is a negative literal.
    #[cycle(put)]
    fn put_term(
        &mut self,
        signature: &Signature,
        term: &'a Term,
        more: u32,
    ) -> Result<(), AllocError> {
        match term {
            Term::Var(name) => {
                let number = self.variable(name.as_bytes())?;
                self.cells.push(Cell::Entry(number))?;
                Ok(())
            }
            Term::App(symbol, arguments) => {
                self.cells.push(Cell::App {
                    sym: number_of(signature, symbol).saturating_add(more),
                    arity: symbol.arity,
                    len: 0,
                })?;
                self.put_terms(signature, arguments.as_slice())
            }
        }
    }

    #[cycle(put)]
    fn put_terms(&mut self, signature: &Signature, terms: &'a [Term]) -> Result<(), AllocError> {
        for i in 0..terms.len() {
            self.put_term(signature, &terms[i], 0)?;
        }
        Ok(())
    }

    /// Appends the next entry: a term, or the atom of a literal with its sign.
    fn put_entry(
        &mut self,
        signature: &Signature,
        term: &'a Term,
        sign: Option<bool>,
    ) -> Result<(), AllocError> {
        let from = self.cells.len();
        self.names.clear();
        let more = u32::from(sign == Some(false));
        self.put_term(signature, term, more)?;
        let to = self.cells.len();
        self.entries.push(Kept {
            literal: sign.is_some(),
            posting: self.next,
            term: Span { from, to },
        })?;
        self.next.entry = self.next.entry.saturating_add(1);
        Ok(())
    }

    /// Appends the entries that a term has: itself and what is inside it, in preorder. A variable
    /// is none.
    #[cycle(entries)]
    fn put_subterm(&mut self, signature: &Signature, term: &'a Term) -> Result<(), AllocError> {
        match term {
            Term::Var(_) => Ok(()),
            Term::App(_, arguments) => {
                self.put_entry(signature, term, None)?;
                self.put_subterms(signature, arguments.as_slice())
            }
        }
    }

    #[cycle(entries)]
    fn put_subterms(&mut self, signature: &Signature, terms: &'a [Term]) -> Result<(), AllocError> {
        for i in 0..terms.len() {
            self.put_subterm(signature, &terms[i])?;
        }
        Ok(())
    }

    /// Appends the entries that a literal has.
    fn put_literal(
        &mut self,
        signature: &Signature,
        literal: &'a Literal,
    ) -> Result<(), AllocError> {
        self.put_entry(signature, &literal.atom, Some(literal.positive))?;
        match &literal.atom {
            Term::Var(_) => Ok(()),
            Term::App(_, arguments) => self.put_subterms(signature, arguments.as_slice()),
        }
    }

    /// Appends the entries of the clause with this key.
    fn put_clause(
        &mut self,
        signature: &Signature,
        key: usize,
        clause: &'a Clause,
    ) -> Result<(), AllocError> {
        self.next = Posting {
            clause: key,
            entry: 0,
        };
        for literal in clause.literals.as_slice() {
            self.put_literal(signature, literal)?;
        }
        Ok(())
    }

    /// Appends the entries of all clauses.
    pub fn put_all(&mut self, index: &'a Index) -> Result<(), AllocError> {
        for (key, clause) in index.kept() {
            self.put_clause(index.signature(), key, clause)?;
        }
        Ok(())
    }

    /// No two entries have the same posting.
    pub fn do_postings_differ(&self) -> bool {
        let entries = self.entries.as_slice();
        for (place, entry) in entries.iter().enumerate() {
            for other in &entries[..place] {
                if entry.posting == other.posting {
                    return false;
                }
            }
        }
        true
    }

    /// Whether the leaf has the entry's posting and its term.
    fn stands_in(&self, seen: &SeenTree<'_>, leaf: &Seen<'_>, entry: &Kept) -> bool {
        seen.postings_in(leaf.postings).contains(&entry.posting)
            && seen.term(leaf.term) == items_at(self.cells.as_slice(), entry.term)
    }

    /// Under the term of each entry of this kind stands its posting.
    pub fn do_entries_stand(&self, seen: &SeenTree<'_>, literal: bool) -> bool {
        for entry in self.entries.as_slice() {
            if entry.literal != literal {
                continue;
            }
            let nodes = seen.nodes.as_slice();
            if !nodes.iter().any(|node| self.stands_in(seen, node, entry)) {
                return false;
            }
        }
        true
    }

    /// There are no more postings than entries of this kind.
    pub fn are_all(&self, seen: &SeenTree<'_>, literal: bool) -> bool {
        let mut count: usize = 0;
        for entry in self.entries.as_slice() {
            if entry.literal == literal {
                count = count.saturating_add(1);
            }
        }
        count == seen.postings.len()
    }
}
