// The entries of a clause by their numbers, and the variables of an entry.
ghost use Rattle.std.specs.Prelude.{◌≡◌, ◌<◌, ◌≤◌, ◌+◌, ℕ, Some, IfOk, OnOk, bytes_eq, length, map, slice_get};
ghost use Rattle.indexmap.specs.IndexSet.{insert_all};
ghost use Rattle.si_defs.specs.Terms.{row, size, sizes, variables, variables_of_all, arguments};
ghost use Rattle.si_defs.specs.Clauses.{literals_size};
ghost use Rattle.si_defs.specs.declared.TheConstants.{MOST_OCCURRENCES};
ghost use Rattle.si_defs.specs.Entries.{entries, distinct_variables, pattern_entry, whole_of};
ghost use Rattle.si_term.specs.Terms.{term_of};
ghost use Rattle.si_term.specs.Meaning.{clause_of, place_of, pattern_of, entry_of};
ghost use Rattle.si_term.specs.Walks.{subterms, subterms_of_all, paths, paths_from, FindsInRow, FindsPath};

use crate::clause::{Clause, Entry, Pattern, Place};
use crate::copies::copy_texts;
use crate::list::Texts;
use crate::path::Path;
use crate::term::Term;
use indexmap::IndexSet;
use std::alloc::{AllocError, Global};

/// How a walk over subterms ends.
#[derive(Clone, Copy)]
enum Walk<'a> {
    /// At the one that was sought.
    At(&'a Term),
    /// After the last one, with this many more to pass.
    Past(u32),
}

/// How a walk ends that notes its path.
#[derive(Drop)]
enum PathWalk {
    /// At the one that was sought. Its path is written from the end.
    At(Path),
    /// After the last one, with this many more to pass.
    Past(u32),
}

/// The number of entries: the literals and the proper subterms of their atoms that are no
/// variables.
pub fn entry_count(clause: &Clause) -> u32
    requires { length (entries (clause_of clause.now)) ≤ MOST_OCCURRENCES }
    ensures { result ≡ length (entries (clause_of clause.now)) }
{
    let literals = clause.literals.as_slice();
    let mut count = 0;
    for i in 0..literals.len() {
        count += 1 + count_inside(&literals[i].atom);
    }
    count
}

/// The entry with this number, from 0.
pub fn entry_at(clause: &Clause, number: u32) -> Entry<'_>
    requires few { length (entries (clause_of clause.now)) ≤ MOST_OCCURRENCES }
    requires within { number < length (entries (clause_of clause.now)) }
    ensures { slice_get (map (λ p. p.entry) (entries (clause_of clause.now))) number ≡ Some
        (entry_of result) }
{
    let literals = clause.literals.as_slice();
    let mut left = number;
    for i in 0..literals.len() {
        let literal = &literals[i];
        if left == 0 {
            return Entry::Lit(literal);
        }
        match find_inside(&literal.atom, left - 1) {
            Walk::At(term) => return Entry::Sub(term),
            Walk::Past(more) => left = more,
        }
    }
    unreachable!()
}

/// The place of the entry with this number, from 0.
pub fn place_at(alloc: Global, clause: &Clause, number: u32) -> Result<Place, AllocError>
    requires small { literals_size (clause_of clause.now).literals ≤ MOST_OCCURRENCES }
    requires within { number < length (entries (clause_of clause.now)) }
    ensures { IfOk result (λ p. slice_get (map (λ e. e.place) (entries (clause_of clause.now)))
        number ≡ Some (place_of p)) }
{
    let literals = clause.literals.as_slice();
    let mut left = number;
    for i in 0..literals.len() {
        let literal = &literals[i];
        let position = i as u32 + 1;
        if left == 0 {
            return Ok(Place {
                literal: position,
                path: Path::new(alloc),
            });
        }
        match path_inside(alloc, &literal.atom, left - 1)? {
            PathWalk::At(mut path) => {
                path.reverse();
                return Ok(Place {
                    literal: position,
                    path,
                });
            }
            PathWalk::Past(more) => left = more,
        }
    }
    unreachable!()
}

/// The variables of an entry, each once, in the order of their first occurrence.
pub fn vars_of(alloc: Global, entry: Entry<'_>) -> Result<Texts, AllocError>
    ensures { IfOk result (λ names. names ≡ distinct_variables (entry_of entry.entry)) }
{
    let mut seen = IndexSet::new(alloc);
    gather_term(entry.whole(), &mut seen)?;
    copy_texts(alloc, seen.as_slice())
}

impl<'a> Entry<'a> {
    /// The atom of a literal, or the term.
    pub fn whole(self) -> &'a Term
        ensures { term_of result.now ≡ whole_of (entry_of self.entry) }
    {
        match self {
            Entry::Lit(literal) => &literal.atom,
            Entry::Sub(term) => term,
        }
    }
}

impl Pattern {
    /// The pattern as an entry.
    pub fn as_entry(&self) -> Entry<'_>
        ensures { entry_of result ≡ pattern_entry (pattern_of self.now) }
    {
        match self {
            Pattern::Lit(literal) => Entry::Lit(literal),
            Pattern::Term(term) => Entry::Sub(term),
        }
    }
}

/// The number of proper subterms that are no variables.
fn count_inside(term: &Term) -> u32
    requires { length (subterms_of_all (arguments (term_of term.now))) ≤ MOST_OCCURRENCES }
    ensures { result ≡ length (subterms_of_all (arguments (term_of term.now))) }
{
    match term {
        Term::Var(_) => 0,
        Term::App(_, arguments) => count_all(arguments.as_slice()),
    }
}

/// The number of subterms that are no variables, with the term itself.
#[cycle(count)]
fn count_term(term: &Term) -> u32
    requires { length (subterms (term_of term.now)) ≤ MOST_OCCURRENCES }
    ensures { result ≡ length (subterms (term_of term.now)) }
{
    match term {
        Term::Var(_) => 0,
        Term::App(_, arguments) => 1 + count_all(arguments.as_slice()),
    }
}

#[cycle(count)]
fn count_all(terms: &[Term]) -> u32
    requires { length (subterms_of_all (row (map term_of terms.now))) ≤ MOST_OCCURRENCES }
    ensures { result ≡ length (subterms_of_all (row (map term_of terms.now))) }
{
    let mut count = 0;
    for i in 0..terms.len() {
        count += count_term(&terms[i]);
    }
    count
}

/// Passes `left` of the proper subterms that are no variables.
fn find_inside(term: &Term, left: u32) -> Walk<'_>
    ensures { FindsInRow (subterms_of_all (arguments (term_of term.now))) left result }
{
    match term {
        Term::Var(_) => Walk::Past(left),
        Term::App(_, arguments) => find_in(arguments.as_slice(), left),
    }
}

/// Passes `left` of the subterms that are no variables, the term itself first.
#[cycle(find)]
fn find_term(term: &Term, left: u32) -> Walk<'_>
    ensures { FindsInRow (subterms (term_of term.now)) left result }
{
    match term {
        Term::Var(_) => Walk::Past(left),
        Term::App(_, arguments) => {
            if left == 0 {
                Walk::At(term)
            } else {
                find_in(arguments.as_slice(), left - 1)
            }
        }
    }
}

#[cycle(find)]
fn find_in(terms: &[Term], number: u32) -> Walk<'_>
    ensures { FindsInRow (subterms_of_all (row (map term_of terms.now))) number result }
{
    let mut left = number;
    for i in 0..terms.len() {
        match find_term(&terms[i], left) {
            Walk::At(term) => return Walk::At(term),
            Walk::Past(more) => left = more,
        }
    }
    Walk::Past(left)
}

/// As `find_inside`, with the path.
fn path_inside(alloc: Global, term: &Term, left: u32) -> Result<PathWalk, AllocError>
    requires { size (term_of term.now) ≤ MOST_OCCURRENCES }
    ensures { IfOk result (λ w. FindsPath (paths_from 1 (arguments (term_of term.now))) left w) }
{
    match term {
        Term::Var(_) => Ok(PathWalk::Past(left)),
        Term::App(_, arguments) => path_in(alloc, arguments.as_slice(), left),
    }
}

/// As `find_term`, with the path.
#[cycle(path)]
fn path_term(alloc: Global, term: &Term, left: u32) -> Result<PathWalk, AllocError>
    requires { size (term_of term.now) ≤ MOST_OCCURRENCES }
    ensures { IfOk result (λ w. FindsPath (paths (term_of term.now)) left w) }
{
    match term {
        Term::Var(_) => Ok(PathWalk::Past(left)),
        Term::App(_, arguments) => {
            if left == 0 {
                Ok(PathWalk::At(Path::new(alloc)))
            } else {
                path_in(alloc, arguments.as_slice(), left - 1)
            }
        }
    }
}

#[cycle(path)]
fn path_in(alloc: Global, terms: &[Term], number: u32) -> Result<PathWalk, AllocError>
    requires { sizes (row (map term_of terms.now)) ≤ MOST_OCCURRENCES }
    ensures { IfOk result (λ w. FindsPath (paths_from 1 (row (map term_of terms.now))) number w) }
{
    let mut left = number;
    for i in 0..terms.len() {
        match path_term(alloc, &terms[i], left)? {
            PathWalk::At(mut path) => {
                path.push(i as u32 + 1)?;
                return Ok(PathWalk::At(path));
            }
            PathWalk::Past(more) => left = more,
        }
    }
    Ok(PathWalk::Past(left))
}

/// Adds the variables of a term that aren't there yet.
#[cycle(gather)]
fn gather_term<'a>(term: &'a Term, seen: &mut IndexSet<&'a [u8]>) -> Result<(), AllocError>
    ensures { OnOk result (map (λ t. t.now) seen.new.keys ≡ insert_all bytes_eq
        (map (λ t. t.now) seen.old.keys) (variables (term_of term.now))) }
{
    match term {
        Term::Var(name) => {
            seen.insert(name.as_bytes())?;
            Ok(())
        }
        Term::App(_, arguments) => gather_all(arguments.as_slice(), seen),
    }
}

#[cycle(gather)]
fn gather_all<'a>(terms: &'a [Term], seen: &mut IndexSet<&'a [u8]>) -> Result<(), AllocError>
    ensures { OnOk result (map (λ t. t.now) seen.new.keys ≡ insert_all bytes_eq
        (map (λ t. t.now) seen.old.keys) (variables_of_all (row (map term_of terms.now)))) }
{
    for i in 0..terms.len() {
        gather_term(&terms[i], seen)?;
    }
    Ok(())
}
