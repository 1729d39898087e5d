// What is asked, and whether an entry is among the answers.
ghost use Rattle.std.specs.Prelude.{◌≡◌, ◌↔◌, IsTrue, IfOk};
ghost use Rattle.si_term.specs.Meaning.{entry_of};
ghost use Rattle.si_legal.specs.KeptTrees as kept_trees;
ghost use Rattle.si_index.specs.Searching.{IsKnownEntry};
ghost use Rattle.si_scan.specs.Scans.{IsReadyToScan, Wants, numbers_of};

use si_defs::Relation;
use si_flat::EntryBuffer;
use si_form::{CountedQuery, Scratch, canonical_counted};
use si_sign::Signature;
use si_term::Entry;
use std::alloc::{AllocError, Global};

/// A question: whether literals are asked for, in which relation, and the query.
#[derive(Drop)]
pub(crate) struct Question<'a> {
    pub(crate) literal: bool,
    pub(crate) relation: Relation,
    pub(crate) query: CountedQuery<'a>,
    pub(crate) signature: &'a Signature,
}

/// The memory that entries are compared in, lent from one to the next.
#[derive(Drop)]
pub(crate) struct Workspace<'a> {
    alloc: Global,
    buffer: EntryBuffer<'a>,
    scratch: Scratch,
}

impl<'a> Workspace<'a> {
    /// It takes no memory yet.
    pub(crate) fn new(alloc: Global) -> Workspace<'a> {
        Workspace {
            alloc,
            buffer: EntryBuffer::new(alloc),
            scratch: Scratch::new(alloc),
        }
    }
}

/// Whether the entry is a literal.
fn is_literal(entry: Entry<'_>) -> bool
    ensures { result ≡ kept_trees.is_literal (entry_of entry.entry) }
{
    match entry {
        Entry::Lit(_) => true,
        Entry::Sub(_) => false,
    }
}

impl<'a> Question<'a> {
    /// Whether the entry is among the answers.
    pub(crate) fn is_answered(
        &self,
        workspace: &mut Workspace<'a>,
        entry: Entry<'a>,
    ) -> Result<bool, AllocError>
        requires ready { IsReadyToScan self.now }
        requires known { IsKnownEntry (numbers_of self.now) (entry_of entry) }
        ensures { IfOk result (λ b. IsTrue b ↔ Wants self.now (entry_of entry.entry)) }
    {
        if is_literal(entry) != self.literal {
            return Ok(false);
        }
        if !workspace.buffer.fill(self.signature, entry)? {
            unreachable!()
        }
        let Some(_) = canonical_counted(
            &mut workspace.scratch,
            workspace.alloc,
            self.relation,
            &self.query,
            workspace.buffer.cells(),
        )?
        else {
            return Ok(false);
        };
        Ok(true)
    }
}
