// What a search for a pattern found.
ghost use Rattle.std.specs.Prelude.{◌≡◌, ◌≢◌, ◌<◌, IfOk, None, Some, length, map, slice_get};
ghost use Rattle.si_defs.specs.Clauses.{IsSoundPattern};
ghost use Rattle.si_term.specs.Terms.{symbol_of};
ghost use Rattle.si_term.specs.Meaning.{clause_of, pattern_of, place_of};
ghost use Rattle.si_index.specs.Engines as engines;

use crate::engine::Engine;
use crate::gather::{Matches, gather};
use crate::index::Index;
use crate::search::Search;
use crate::wanted::{Leaf, Ordered, in_order};
use si_defs::Relation;
use si_flat::flatten_with_names;
use si_forest::SearchMemory;
use si_form::Solution;
use si_sign::Signature;
use si_term::{Clause, Pattern, Place, Syms, Texts, vars_of};
use std::alloc::{AllocError, Global};
use std::marker::Model;

/// Where an entry stands that was found.
#[derive(Drop)]
pub struct Hit {
    /// The position of its clause, from 0.
    pub clause: u32,
    /// Its place in the clause.
    pub place: Place,
}

/// The canonical list of a hit, and what its numbers stand for.
pub struct Shown {
    /// The list. Its symbols have the numbers of the index, and those of `extra`.
    pub solution: Solution,
    /// The names of the pattern's variables, in the order of their numbers.
    pub query_names: Texts,
    /// Those of the entry's.
    pub entry_names: Texts,
    /// The symbols of the pattern that the index lacks. The one at place `k` has the number
    /// `2_147_483_648 + 2 * k`.
    pub extra: Syms,
}

// It does what a derived one would, and is quicker to check (docs/PROVING.md, "Minutes").
impl Drop for Shown {
    fn drop(self) {
        let Shown {
            extra: _extra,
            entry_names: _entry_names,
            query_names: _query_names,
            solution: _solution,
        } = self;
    }
}

/// The parts of a `Shown`, lent by what was found.
#[derive(Drop)]
pub struct Lent<'a, 'b> {
    pub solution: &'b Solution,
    pub query_names: &'b Texts,
    pub entry_names: &'b [&'a [u8]],
    pub extra: &'b Syms,
}

/// The entries that stand in a relation to a pattern, in the order of acceptance and of entries,
/// and what the engine that found them counted.
pub struct Found<'a> {
    search: Search<'a>,
    query_names: Texts,
    matches: Matches<'a>,
    passed: u64,
}

// It does what a derived one would, and is quicker to check (docs/PROVING.md, "Minutes").
impl Drop for Found<'_> {
    fn drop(self) {
        let Found {
            passed: _,
            matches: _matches,
            query_names: _query_names,
            search: _search,
        } = self;
    }
}

impl<'a> Model for Found<'a> {
    ghost use Rattle.std.specs.Prelude.{map};
    ghost use Rattle.si_term.specs.Meaning.{pattern_of};
    ghost use Rattle.si_index.specs.Finding.{Finding, finding_code};

    ghost Value = { Finding };

    ghost coded = { finding_code };

    ghost use Rattle.si_index.specs.Searching.{hit_of};

    ghost view = { λ f. record {
      index = f.search.index.now;
      relation = f.search.relation;
      pattern = pattern_of f.search.pattern.now;
      hits = map hit_of f.matches.found.items;
      passed = f.passed;
    } };

    ghost use Rattle.si_index.specs.Searching.{IsFound};

    ghost invariant = { λ f.
        IsFound f.search f.query_names f.matches };
}

impl<'a> Found<'a> {
    ghost use Rattle.si_defs.specs.Symbols.{IsNumbering};
    ghost use Rattle.si_state.specs.Signatures.{IsSignatureOf, numbering};
    ghost use Rattle.si_index.specs.Finding.{position_and_place, IsClauseOf};
    ghost use Rattle.si_index.specs.Showing.{ShowsHit, shown_of};

    /// The number of hits.
    pub fn len(&self) -> u32
        ensures { result ≡ length self.now.hits }
    {
        self.matches.found.len() as u32
    }

    /// What the engine counted.
    pub fn passed(&self) -> u64
        ensures { result ≡ self.now.passed }
    {
        self.passed
    }

    /// The symbols of the clauses of the index, by whose numbers hits are shown.
    pub fn signature(&self) -> &'a Signature
        ensures signature { IsSignatureOf self.now.index.clauses result.now }
        ensures numbers { numbering result.now ≡ self.now.index.numbers }
        ensures numbering { IsNumbering self.now.index.numbers }
    {
        self.search.index.signature()
    }

    /// The hit with this number from 0.
    pub fn hit(&self, n: u32) -> &Hit
        requires { n < length self.now.hits }
        ensures { slice_get (map position_and_place self.now.hits) n ≡ Some
            (result.now.clause, place_of result.now.place) }
    {
        &self.matches.found[n as usize].hit
    }

    /// The clause of the hit with this number from 0.
    pub fn clause(&self, n: u32) -> &Clause
        requires { n < length self.now.hits }
        ensures { IsClauseOf self.now n (clause_of result.now) }
    {
        self.matches.found[n as usize].clause
    }

    /// The canonical list of the hit with this number from 0.
    pub fn shown(&self, n: u32) -> Result<Shown, AllocError>
        requires { n < length self.now.hits }
        ensures { IfOk result (λ shown. ShowsHit self.now n shown) }
    {
        let search = &self.search;
        let found = &self.matches.found[n as usize];
        let leaf = &self.matches.leaves[found.leaf];
        let list = list_of(leaf);
        Ok(Shown {
            solution: list.copy(search.alloc)?,
            query_names: self.query_names.copy(search.alloc)?,
            entry_names: vars_of(search.alloc, found.entry)?,
            extra: copy_symbols(search.alloc, &search.query.extra)?,
        })
    }

    /// What `shown` gives, without memory.
    pub fn lent(&self, n: u32) -> Lent<'a, '_>
        requires { n < length self.now.hits }
        ensures { ShowsHit self.now n (shown_of result) }
    {
        let found = &self.matches.found[n as usize];
        let leaf = &self.matches.leaves[found.leaf];
        let list = list_of(leaf);
        Lent {
            solution: list,
            query_names: &self.query_names,
            entry_names: found.names.as_slice(),
            extra: &self.search.query.extra,
        }
    }
}

/// The list of a leaf, which is made.
fn list_of(leaf: &Leaf) -> &Solution
    requires { leaf.now.list ≢ None }
    ensures { leaf.now.list ≡ Some result.now }
{
    leaf.list.as_ref().unwrap()
}

// Equal symbols.
fn copy_symbols(alloc: Global, symbols: &Syms) -> Result<Syms, AllocError>
    ensures { IfOk result (λ copies. map symbol_of copies ≡ map symbol_of symbols.now) }
{
    let mut copies = Syms::new(alloc);
    for symbol in symbols.as_slice() {
        copies.push(symbol.copy(alloc)?)?;
    }
    Ok(copies)
}

/// Whether literals are asked for.
pub(crate) fn asks_literals(pattern: &Pattern) -> bool
    ensures { result ≡ engines.asks_literals (pattern_of pattern.now) }
{
    match pattern {
        Pattern::Lit(_) => true,
        Pattern::Term(_) => false,
    }
}

impl Index {
    ghost use Rattle.si_index.specs.Finding.{IsFindingOf};
    ghost use Rattle.si_index.specs.Searching.{HaveCanonicalSolutions};
    ghost use Rattle.si_index.specs.Engines.{AnswersStanding, FindsHits};

    /// Finds the entries that the engine answers to the pattern, in the order of acceptance and of
    /// entries, each with its canonical list.
    ///
    /// The engine is asked once, among literals for a literal pattern, and else among subterms.
    /// Each clause that has hits is walked through once.
    pub fn find<'a, E: Engine>(
        &'a self,
        memory: &mut SearchMemory,
        engine: &E,
        relation: Relation,
        pattern: &'a Pattern,
    ) -> Result<Found<'a>, AllocError>
        // The pattern keeps arities, and isn't larger than a clause may be.
        requires sound { IsSoundPattern (pattern_of pattern.now) }
        // Asked for the pattern, the engine answers kept entries alone that stand in the relation.
        requires standing { AnswersStanding (E.answers engine.now) self.now relation
            (pattern_of pattern.now) }
        // What is found knows its index, its relation and its pattern.
        ensures asked { IfOk result (IsFindingOf self.now relation (pattern_of pattern.now)) }
        // The hits are exactly the entries that the engine answers, in order, with what it counts.
        ensures hits { IfOk result (λ f. FindsHits (E.answers engine.now) (E.count engine.now)
            self.now relation (pattern_of pattern.now) f.hits f.passed) }
        // Each hit has its canonical list.
        ensures solved { IfOk result (λ f. HaveCanonicalSolutions relation
            (pattern_of pattern.now) f.hits) }
    {
        let alloc = self.allocator();
        let stats = self.stats();
        let signature = self.signature();
        let named = flatten_with_names(alloc, signature, pattern)?;
        // What the engine answers, in whatever order, and what it counts.
        let mut postings = Vec::new(alloc);
        let literal = asks_literals(pattern);
        let passed = engine.ask(memory, literal, relation, &named.query.flat, &mut postings)?;
        // Where these entries stand, in order, and the leaves of the tree that have them.
        let trees = self.trees();
        let slots = self.slots();
        let ordered = in_order(self, &slots, trees, literal, postings.as_slice())?;
        let Ordered { places, leaves } = ordered;
        // What is shown of each: its place, its clause, and the list of its leaf.
        let search = Search {
            alloc,
            index: self,
            slots,
            signature,
            relation,
            pattern,
            query: named.query,
        };
        let matches = gather(&search, places.as_slice(), leaves)?;
        prove!(matches.found.len() as u64 <= stats.entries);
        Ok(Found {
            search,
            query_names: named.names,
            matches,
            passed,
        })
    }
}
