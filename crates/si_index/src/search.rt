// How an entry stands in a relation to a pattern.
ghost use Rattle.std.specs.Prelude.{◌≡◌, IfOk};
ghost use Rattle.si_term.specs.Meaning.{entry_of};
ghost use Rattle.si_state.specs.Answers.{Stands};
ghost use Rattle.si_index.specs.Searching.{numbers_of, pattern_in, term_in, IsReadyToSearch, IsKnownEntry, SolvesTerm};

use crate::index::Index;
use si_defs::Relation;
use si_flat::{EntryBuffer, FlatQuery};
use si_form::{CountedQuery, Scratch, Solution, canonical_counted};
use si_keyed::Places;
use si_sign::Signature;
use si_term::{Clause, Entry, Pattern};
use std::alloc::{AllocError, Global};

/// What is searched for, and where.
#[derive(Drop)]
pub(crate) struct Search<'a> {
    pub(crate) alloc: Global,
    pub(crate) index: &'a Index,
    /// The clauses of the index, by their slots.
    pub(crate) slots: Places<'a, Clause>,
    pub(crate) signature: &'a Signature,
    pub(crate) relation: Relation,
    pub(crate) pattern: &'a Pattern,
    /// The pattern with the numbers of the signature.
    pub(crate) query: FlatQuery,
}

/// The memory that a search works in, lent from entry to entry.
#[derive(Drop)]
pub(crate) struct Workspace<'a> {
    pub(crate) buffer: EntryBuffer<'a>,
    scratch: Scratch,
    pub(crate) met: Vec<&'a [u8]>,
}

impl<'a> Workspace<'a> {
    /// It takes no memory yet.
    pub(crate) fn new(alloc: Global) -> Workspace<'a> {
        Workspace {
            buffer: EntryBuffer::new(alloc),
            scratch: Scratch::new(alloc),
            met: Vec::new(alloc),
        }
    }
}

impl<'a> Search<'a> {
    /// The canonical list of an entry that stands in the relation. All entries with the same flat
    /// term have it. The query is this search's. It isn't inlined, as most entries have the list
    /// of one before them.
    #[inline(never)]
    pub(crate) fn solve(
        &self,
        query: &CountedQuery<'_>,
        workspace: &mut Workspace<'a>,
        entry: Entry<'a>,
    ) -> Result<Solution, AllocError>
        requires ready { IsReadyToSearch self.now }
        requires query { query.now ≡ self.now.query.flat }
        requires known { IsKnownEntry (numbers_of self.now) (entry_of entry) }
        requires stands { Stands self.now.relation (pattern_in self.now) (entry_of entry) }
        ensures { IfOk result (SolvesTerm self.now (term_in self.now (entry_of entry.entry))) }
    {
        if !workspace.buffer.fill(self.signature, entry)? {
            unreachable!()
        }
        let Some(solution) = canonical_counted(
            &mut workspace.scratch,
            self.alloc,
            self.relation,
            query,
            workspace.buffer.cells(),
        )?
        else {
            unreachable!()
        };
        Ok(solution)
    }
}
