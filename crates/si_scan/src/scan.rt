// The scan: all entries are tried in order, and the postings of the answers are gathered.
ghost use Rattle.std.specs.Prelude.{◌≡◌, ◌+◌, ◌≤◌, [], ◌∷◌, ◌++◌, IfOk, OnOk, length, map};
ghost use Rattle.si_defs.specs.Terms.{row, arguments};
ghost use Rattle.si_defs.specs.Entries.{literal_entry, term_entry};
ghost use Rattle.si_defs.specs.declared.TheConstants.{MOST_OCCURRENCES};
ghost use Rattle.si_term.specs.Terms.{term_of};
ghost use Rattle.si_term.specs.Meaning.{literal_of, clause_of, entry_of};
ghost use Rattle.si_term.specs.Walks.{subterms, subterms_of_all, entries_alone};
ghost use Rattle.si_index.specs.Kept.{kept_clauses};
ghost use Rattle.si_index.specs.Searching.{IsKnownTerm, AreKnownTerms, IsKnownEntry, IsKnownClause};
ghost use Rattle.si_scan.specs.Scans.{IsReadyToScan, IsOver, Wants, numbers_of, posted, all_posted, AreOfWanted, AddsWanted};

use crate::question::{Question, Workspace};
use si_defs::Relation;
use si_flat::Flat;
use si_form::CountedQuery;
use si_index::{Engine, Index, SearchMemory};
use si_legal::Posting;
use si_term::{Clause, Entry, Literal, Term};
use std::alloc::{AllocError, Global};
use std::marker::Model;

/// A scan over the entries of an index.
#[derive(Drop)]
pub struct Scan<'a> {
    alloc: Global,
    index: &'a Index,
}

impl<'a> Model for Scan<'a> {
    ghost use Rattle.si_index.specs.Kept.{Kept, kept_code};

    ghost Value = { Kept };

    ghost coded = { kept_code };

    ghost view = { λ scan. scan.index.now };
}

impl<'a> Scan<'a> {
    /// A scan over this index.
    pub fn new(alloc: Global, index: &'a Index) -> Scan<'a>
        ensures { result ≡ index.now }
    {
        Scan { alloc, index }
    }
}

impl<'a> Engine for Scan<'a> {
    ghost use Rattle.si_index.specs.Engines.{IsOfWanted};
    ghost use Rattle.si_defs.specs.Entries.{state_entries};

    /// The postings of the kept entries of the kind that is asked for whose flat terms stand in the
    /// relation.
    ghost answers = { λ kept literal relation query posting.
        IsOfWanted kept literal relation query posting };

    /// All entries are looked at.
    ghost count = { λ kept literal relation query n. n ≡ length (state_entries kept.clauses) };

    fn ask(
        &self,
        _memory: &mut SearchMemory,
        literal: bool,
        relation: Relation,
        query: &Flat,
        out: &mut Vec<Posting>,
    ) -> Result<u64, AllocError> {
        let stats = self.index.stats();
        let question = Question {
            literal,
            relation,
            query: CountedQuery::new(query.cells()),
            signature: self.index.signature(),
        };
        let mut found = gather(self.alloc, self.index, &question)?;
        out.append(&mut found)?;
        Ok(stats.entries)
    }
}

/// The answers so far, and the memory that it works in.
#[derive(Drop)]
struct Gathered<'a> {
    workspace: Workspace<'a>,
    found: Vec<Posting>,
}

/// Adds the entry with this number in the clause with this key, if it is among the answers.
fn try_entry<'a>(
    question: &Question<'a>,
    key: usize,
    number: u32,
    entry: Entry<'a>,
    gathered: &mut Gathered<'a>,
) -> Result<(), AllocError>
    requires ready { IsReadyToScan question.now }
    requires known { IsKnownEntry (numbers_of question.now) (entry_of entry) }
    ensures { OnOk result (AddsWanted (Wants question.now)
        (posted key number (entry_of entry.entry ∷ []))
        gathered.old.found.items gathered.new.found.items) }
{
    if !question.is_answered(&mut gathered.workspace, entry)? {
        return Ok(());
    }
    gathered.found.push(Posting {
        clause: key,
        entry: number,
    })?;
    Ok(())
}

/// Adds the subterms that are among the answers, and answers the number after theirs. The first has
/// the number that is given.
#[cycle(scanning)]
fn scan_term<'a>(
    question: &Question<'a>,
    key: usize,
    number: u32,
    term: &'a Term,
    gathered: &mut Gathered<'a>,
) -> Result<u32, AllocError>
    requires ready { IsReadyToScan question.now }
    requires known { IsKnownTerm (numbers_of question.now) (term_of term.now) }
    requires few { number + length (subterms (term_of term.now)) ≤ MOST_OCCURRENCES }
    ensures next { IfOk result (λ n. n ≡ number + length (subterms (term_of term.now))) }
    ensures adds { OnOk result (AddsWanted (Wants question.now)
        (posted key number (map term_entry (subterms (term_of term.now))))
        gathered.old.found.items gathered.new.found.items) }
{
    let Term::App(_, arguments) = term else {
        return Ok(number);
    };
    try_entry(question, key, number, Entry::Sub(term), gathered)?;
    scan_terms(question, key, number + 1, arguments.as_slice(), gathered)
}

/// Does the same with all of these terms.
#[cycle(scanning)]
fn scan_terms<'a>(
    question: &Question<'a>,
    key: usize,
    number: u32,
    terms: &'a [Term],
    gathered: &mut Gathered<'a>,
) -> Result<u32, AllocError>
    requires ready { IsReadyToScan question.now }
    requires known { AreKnownTerms (numbers_of question.now) (row (map term_of terms.now)) }
    requires few { number + length (subterms_of_all (row (map term_of terms.now)))
        ≤ MOST_OCCURRENCES }
    ensures next { IfOk result (λ n. n
        ≡ number + length (subterms_of_all (row (map term_of terms.now)))) }
    ensures adds { OnOk result (AddsWanted (Wants question.now)
        (posted key number (map term_entry (subterms_of_all (row (map term_of terms.now)))))
        gathered.old.found.items gathered.new.found.items) }
{
    let mut next = number;
    for i in 0..terms.len() {
        next = scan_term(question, key, next, &terms[i], gathered)?;
    }
    Ok(next)
}

/// Does the same with a literal and the proper subterms of its atom.
fn scan_literal<'a>(
    question: &Question<'a>,
    key: usize,
    number: u32,
    literal: &'a Literal,
    gathered: &mut Gathered<'a>,
) -> Result<u32, AllocError>
    requires ready { IsReadyToScan question.now }
    requires known { IsKnownEntry (numbers_of question.now)
        (literal_entry (literal_of literal.now)) }
    requires few { number + length (entries_alone (literal_of literal.now ∷ []))
        ≤ MOST_OCCURRENCES }
    ensures next { IfOk result (λ n. n
        ≡ number + length (entries_alone (literal_of literal.now ∷ []))) }
    ensures adds { OnOk result (AddsWanted (Wants question.now)
        (posted key number (entries_alone (literal_of literal.now ∷ [])))
        gathered.old.found.items gathered.new.found.items) }
{
    try_entry(question, key, number, Entry::Lit(literal), gathered)?;
    let Term::App(_, arguments) = &literal.atom else {
        unreachable!()
    };
    scan_terms(question, key, number + 1, arguments.as_slice(), gathered)
}

/// Adds the entries of a clause that are among the answers.
fn scan_clause<'a>(
    question: &Question<'a>,
    key: usize,
    clause: &'a Clause,
    gathered: &mut Gathered<'a>,
) -> Result<(), AllocError>
    requires ready { IsReadyToScan question.now }
    requires known { IsKnownClause (numbers_of question.now) (clause_of clause.now) }
    ensures { OnOk result (AddsWanted (Wants question.now)
        (posted key 0 (entries_alone (clause_of clause.now).literals))
        gathered.old.found.items gathered.new.found.items) }
{
    let literals = clause.literals.as_slice();
    let mut next = 0;
    for i in 0..literals.len() {
        next = scan_literal(question, key, next, &literals[i], gathered)?;
    }
    Ok(())
}

/// The postings of the answers, in the order of the clauses and of their entries.
fn gather<'a>(
    alloc: Global,
    index: &'a Index,
    question: &Question<'a>,
) -> Result<Vec<Posting>, AllocError>
    requires ready { IsReadyToScan question.now }
    requires over { IsOver index.now question.now }
    ensures { IfOk result (λ found. AreOfWanted (Wants question.now)
        (all_posted (kept_clauses index.now)) found.items) }
{
    let mut gathered = Gathered {
        workspace: Workspace::new(alloc),
        found: Vec::new(alloc),
    };
    let mut left = index.kept();
    while let Some((key, clause)) = left.next() {
        scan_clause(question, key, clause, &mut gathered)?;
    }
    Ok(gathered.found)
}
