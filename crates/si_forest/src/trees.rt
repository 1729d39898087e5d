// The trees of an index.
ghost use Rattle.std.specs.Prelude.{◌≡◌, IfOk, OnErr, OnOk};
ghost use Rattle.si_flat.specs.Cells.{Term};
ghost use Rattle.si_term.specs.Meaning.{clause_of};
ghost use Rattle.si_legal.specs.Legal.{IsLegal};
ghost use Rattle.si_legal.specs.Trees.{StandsIn};
ghost use Rattle.si_legal.specs.StoredSets.{IsUnder};
ghost use Rattle.si_descend.specs.Answers.{Retrieves};
ghost use Rattle.si_descend.specs.Counting.{CountsAnswers};
ghost use Rattle.si_descend.specs.Descending.{AreQueryCells};
ghost use Rattle.si_held.specs.TwoTrees.{AddsClause, AreLegal, HoldSame, MayAddClause, RemovesClause, tree_for};
ghost use Rattle.si_forest.specs.Pairs.{AreAlone, LoseEach};

use crate::notes::Notes;
use crate::pair::Pair;
use si_defs::Relation;
use si_descend::{Counted, SearchMemory};
use si_flat::Flat;
use si_legal::Posting;
use si_term::{Clause, SymTable, entry_count};
use si_tree::{NodeId, Tree};
use std::alloc::{AllocError, Global};
use std::marker::Model;

/// Two substitution trees of the entries of clauses, one of literals and one of subterms. Contracts
/// see both trees, which are legal.
pub struct Trees {
    alloc: Global,
    pair: Pair,
    // Where the posting of each entry stands, by the key of its clause and its number.
    notes: Notes,
}

// It does what a derived one would, and is quicker to check (docs/PROVING.md, "Minutes").
impl Drop for Trees {
    fn drop(self) {
        let Trees {
            notes: _notes,
            pair: _pair,
            alloc: _,
        } = self;
    }
}

impl Model for Trees {
    ghost use Rattle.si_held.specs.TwoTrees.{TwoTrees};
    ghost use Rattle.si_forest.specs.Codes.{two_trees_code};

    ghost Value = { TwoTrees };

    ghost coded = { two_trees_code };

    ghost use Rattle.si_forest.specs.Kept.{trees_of, AreKept};

    ghost view = { trees_of };

    ghost invariant = { AreKept };
}

impl Trees {
    /// Two trees that store nothing.
    pub fn new(alloc: Global) -> Result<Trees, AllocError>
        ensures { IfOk result AreAlone }
    {
        Ok(Trees {
            alloc,
            pair: Pair::new(alloc)?,
            notes: Notes::new(alloc),
        })
    }

    /// The tree of literals.
    pub fn literals(&self) -> &Tree
        ensures tree { result.now ≡ self.now.literals }
        ensures legal { IsLegal result.now }
    {
        &self.pair.literals
    }

    /// The tree of subterms.
    pub fn subterms(&self) -> &Tree
        ensures tree { result.now ≡ self.now.subterms }
        ensures legal { IsLegal result.now }
    {
        &self.pair.subterms
    }

    /// The tree of entries of this kind.
    pub fn tree(&self, literal: bool) -> &Tree
        ensures tree { result.now ≡ tree_for literal self.now }
        ensures legal { IsLegal result.now }
    {
        self.pair.tree(literal)
    }

    /// The leaf that the posting stands in, which is stored in the tree of this kind.
    pub fn leaf_of(&self, literal: bool, posting: Posting) -> NodeId
        requires { (t : Term) × IsUnder (tree_for literal self.now) t posting }
        ensures { (t : Term) × StandsIn (tree_for literal self.now) result t posting }
    {
        self.notes.get(posting.clause)[posting.entry as usize].leaf()
    }

    /// Puts a posting for each entry of a clause into its tree. At an error the trees store what
    /// they stored before.
    pub fn add_clause<T: SymTable>(
        &mut self,
        table: &T,
        key: usize,
        clause: &Clause,
    ) -> Result<(), AllocError>
        requires { MayAddClause (T.pairs table.now) key (clause_of clause.now) self.old }
        ensures ok { OnOk result (AddsClause (T.pairs table.now) key (clause_of clause.now)
            self.old self.new) }
        ensures err { OnErr result (HoldSame self.old self.new) }
        ensures legal { AreLegal self.new }
    {
        self.notes.reserve(key, entry_count(clause) as usize)?;
        let locations = self.pair.add_clause(self.alloc, table, key, clause)?;
        self.notes.set(key, locations.as_slice());
        Ok(())
    }

    /// Takes out the postings of the clause with this key. It takes no memory, but for joins of
    /// nodes, and to close what notes leave empty; both are left out where there is none.
    pub fn remove_clause(&mut self, key: usize)
        ensures removes { RemovesClause key self.old self.new }
        ensures each { LoseEach key self.old self.new }
        ensures legal { AreLegal self.new }
    {
        self.pair
            .remove_clause(self.alloc, key, self.notes.get(key));
        self.notes.clear(self.alloc, key);
    }

    /// Appends the postings of the stored terms of this kind that stand in the relation to the
    /// query. It answers how many nodes of the tree are open. At an error the postings are as
    /// before.
    pub fn retrieve(
        &self,
        memory: &mut SearchMemory,
        literal: bool,
        relation: Relation,
        query: &Flat,
        out: &mut Vec<Posting>,
    ) -> Result<u64, AllocError>
        requires { AreQueryCells query.now }
        ensures retrieves { IfOk result (Retrieves (tree_for literal self.now) relation query.now
            out.old.items out.new.items) }
        ensures err { OnErr result (out.new.items ≡ out.old.items) }
    {
        si_descend::retrieve(
            self.alloc,
            memory,
            self.pair.tree(literal),
            relation,
            query,
            out,
        )
    }

    /// Counts the postings that [`Trees::retrieve`] would append, and the open nodes. It copies no
    /// posting.
    pub fn count(
        &self,
        memory: &mut SearchMemory,
        literal: bool,
        relation: Relation,
        query: &Flat,
    ) -> Result<Counted, AllocError>
        requires { AreQueryCells query.now }
        ensures { IfOk result (CountsAnswers (tree_for literal self.now) relation query.now) }
    {
        si_descend::count(self.alloc, memory, self.pair.tree(literal), relation, query)
    }
}
