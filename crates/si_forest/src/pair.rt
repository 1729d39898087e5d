// Both trees: one posting comes or goes, and those of one clause.
ghost use Rattle.std.specs.Prelude.{◌≡◌, ◌≤◌, IfOk, OnErr, OnOk, [], length, vec_capacity};
ghost use Rattle.si_defs.specs.Entries.{entries};
ghost use Rattle.si_defs.specs.declared.TheConstants.{MOST_OCCURRENCES};
ghost use Rattle.si_flat.specs.Cells.{Term, StandsFor};
ghost use Rattle.si_term.specs.Meaning.{clause_of};
ghost use Rattle.si_legal.specs.Legal.{IsLegal};
ghost use Rattle.si_legal.specs.Trees.{StandsIn};
ghost use Rattle.si_held.specs.TwoTrees.{AddsClause, AreLegal, IsNewKey, MayAddClause, tree_for};
ghost use Rattle.si_insert.specs.Inserting.{MayInsert};
ghost use Rattle.si_forest.specs.OnePosting.{GainsOne, KeepsTree, LosesOne};
ghost use Rattle.si_forest.specs.Pairs.{two_of, AreAlone, ChangeOnly, GainOne, LoseEach, LoseOne, StayStored};
ghost use Rattle.si_forest.specs.Locations.{AreLocated};

use crate::location::Location;
use si_entries::FlatEntries;
use si_flat::Cell;
use si_insert::{Openings, insert_cells};
use si_legal::Posting;
use si_term::{Clause, SymTable, entry_count};
use si_tree::{NodeId, Tree};
use std::alloc::{AllocError, Global};

/// Both trees, and the memory of insertions into them.
#[derive(Drop)]
pub(crate) struct Pair {
    pub(crate) literals: Tree,
    pub(crate) subterms: Tree,
    pub(crate) openings: Openings,
}

impl Pair {
    /// Two trees that store nothing.
    pub(crate) fn new(alloc: Global) -> Result<Pair, AllocError>
        ensures { IfOk result (λ pair. AreAlone (two_of pair)) }
    {
        Ok(Pair {
            literals: Tree::new(alloc)?,
            subterms: Tree::new(alloc)?,
            openings: Openings::new(alloc),
        })
    }

    /// The tree of entries of this kind.
    pub(crate) fn tree(&self, literal: bool) -> &Tree
        ensures { result.now ≡ tree_for literal (two_of self.now) }
    {
        if literal {
            &self.literals
        } else {
            &self.subterms
        }
    }

    /// Puts a posting for each entry of a clause into its tree, and answers where they stand. At an
    /// error none is left.
    pub(crate) fn add_clause<T: SymTable>(
        &mut self,
        alloc: Global,
        table: &T,
        key: usize,
        clause: &Clause,
    ) -> Result<Vec<Location>, AllocError>
        requires legal { AreLegal (two_of self.old) }
        requires may { MayAddClause (T.pairs table.now) key (clause_of clause.now)
            (two_of self.old) }
        ensures adds { OnOk result (AddsClause (T.pairs table.now) key (clause_of clause.now)
            (two_of self.old) (two_of self.new)) }
        ensures located { IfOk result (λ all. AreLocated key all.items (two_of self.new)) }
        ensures few { IfOk result (λ all. length all.items
            ≤ length (entries (clause_of clause.now))) }
        ensures err { OnErr result (IsNewKey key (two_of self.new)) }
        ensures change { ChangeOnly key (two_of self.old) (two_of self.new) }
    {
        let mut locations = Vec::with_capacity(alloc, entry_count(clause) as usize)?;
        match self.insert_all(alloc, table, key, clause, &mut locations) {
            Ok(()) => Ok(locations),
            Err(error) => {
                self.remove_clause(alloc, key, locations.as_slice());
                Err(error)
            }
        }
    }

    /// Takes the postings of a clause from where they stand.
    pub(crate) fn remove_clause(&mut self, alloc: Global, key: usize, locations: &[Location])
        requires legal { AreLegal (two_of self.old) }
        requires located { AreLocated key locations.now (two_of self.old) }
        requires few { length locations.now ≤ MOST_OCCURRENCES }
        ensures change { ChangeOnly key (two_of self.old) (two_of self.new) }
        ensures gone { IsNewKey key (two_of self.new) }
        ensures each { LoseEach key (two_of self.old) (two_of self.new) }
    {
        for (entry, location) in locations.iter().enumerate() {
            let posting = Posting {
                clause: key,
                entry: entry as u32,
            };
            self.remove(alloc, location.literal(), location.leaf(), posting);
        }
    }

    // Puts a posting for each entry of a clause into its tree, and appends where each stands. At an
    // error those that were put before it are left.
    fn insert_all<T: SymTable>(
        &mut self,
        alloc: Global,
        table: &T,
        key: usize,
        clause: &Clause,
        locations: &mut Vec<Location>,
    ) -> Result<(), AllocError>
        requires legal { AreLegal (two_of self.old) }
        requires may { MayAddClause (T.pairs table.now) key (clause_of clause.now)
            (two_of self.old) }
        requires empty { locations.old.items ≡ [] }
        requires room { length (entries (clause_of clause.now)) ≤ vec_capacity locations.old }
        ensures ok { OnOk result (AddsClause (T.pairs table.now) key (clause_of clause.now)
            (two_of self.old) (two_of self.new)) }
        ensures change { ChangeOnly key (two_of self.old) (two_of self.new) }
        ensures located { AreLocated key locations.new.items (two_of self.new) }
        ensures few { length locations.new.items ≤ length (entries (clause_of clause.now)) }
    {
        let mut entries = FlatEntries::new(alloc, clause);
        while let Some(literal) = entries.next(table)? {
            let posting = Posting {
                clause: key,
                entry: locations.len() as u32,
            };
            let location = self.place(alloc, literal, entries.cells(), posting)?;
            locations.push_reserved(location);
        }
        Ok(())
    }

    // Puts a posting under the term of these cells into the tree of its kind, and answers where it
    // stands. A leaf whose number is too large for a location is no memory.
    fn place(
        &mut self,
        alloc: Global,
        literal: bool,
        cells: &[Cell],
        posting: Posting,
    ) -> Result<Location, AllocError>
        requires legal { AreLegal (two_of self.old) }
        requires may { MayInsert (tree_for literal (two_of self.old)) cells.now posting }
        ensures kind { IfOk result (λ at. at.literal ≡ literal) }
        ensures ok { IfOk result (λ at. (t : Term) → StandsFor cells.now t
            → GainOne (two_of self.old) (two_of self.new) literal t posting at.leaf) }
        ensures err { OnErr result (StayStored (two_of self.old) (two_of self.new)) }
    {
        let leaf = self.insert(alloc, literal, cells, posting)?;
        let Some(location) = Location::new(literal, leaf) else {
            self.remove(alloc, literal, leaf, posting);
            return Err(AllocError);
        };
        Ok(location)
    }

    // Puts a posting under the term of these cells into the tree of its kind.
    fn insert(
        &mut self,
        alloc: Global,
        literal: bool,
        cells: &[Cell],
        posting: Posting,
    ) -> Result<NodeId, AllocError>
        requires legal { AreLegal (two_of self.old) }
        requires may { MayInsert (tree_for literal (two_of self.old)) cells.now posting }
        ensures ok { IfOk result (λ leaf. (t : Term) → StandsFor cells.now t
            → GainOne (two_of self.old) (two_of self.new) literal t posting leaf) }
        ensures err { OnErr result (StayStored (two_of self.old) (two_of self.new)) }
    {
        if literal {
            put(
                alloc,
                &mut self.openings,
                &mut self.literals,
                cells,
                posting,
            )
        } else {
            put(
                alloc,
                &mut self.openings,
                &mut self.subterms,
                cells,
                posting,
            )
        }
    }

    // Takes a posting from the leaf that it stands in.
    fn remove(&mut self, alloc: Global, literal: bool, leaf: NodeId, posting: Posting)
        requires legal { AreLegal (two_of self.old) }
        requires stands { (t : Term)
            × StandsIn (tree_for literal (two_of self.old)) leaf t posting }
        ensures { LoseOne (two_of self.old) (two_of self.new) literal posting leaf }
    {
        if literal {
            take(alloc, &mut self.literals, leaf, posting);
        } else {
            take(alloc, &mut self.subterms, leaf, posting);
        }
    }
}

// Inserts a posting, told by what is stored.
fn put(
    alloc: Global,
    openings: &mut Openings,
    tree: &mut Tree,
    cells: &[Cell],
    posting: Posting,
) -> Result<NodeId, AllocError>
    requires legal { IsLegal tree.old }
    requires may { MayInsert tree.old cells.now posting }
    ensures ok { IfOk result (λ leaf. (t : Term) → StandsFor cells.now t
        → GainsOne tree.old tree.new t posting leaf) }
    ensures err { OnErr result (KeepsTree tree.old tree.new) }
{
    let inserted = insert_cells(alloc, openings, tree, cells, posting);
    // So it is known that the tree is legal still.
    tree.root();
    inserted
}

// Removes a posting, told by what is stored.
fn take(alloc: Global, tree: &mut Tree, leaf: NodeId, posting: Posting)
    requires legal { IsLegal tree.old }
    requires stands { (t : Term) × StandsIn tree.old leaf t posting }
    ensures { LosesOne tree.old tree.new posting leaf }
{
    si_prune::remove(alloc, tree, leaf, posting);
    // So it is known that the tree is legal still.
    tree.root();
}
