// A plain list of clauses, through all of which each call looks.
ghost use Rattle.std.specs.Prelude.{◌≡◌, ◌≤◌, ℕ, [], ◌∷◌, ◌++◌, length, map, slice_get, Some, IfOk, OnOk, IfErr, IfSome, IfNone};
ghost use Rattle.std.specs.List.{AllByRecursion};
ghost use Rattle.si_defs.specs.Clauses as defs;
ghost use Rattle.si_defs.specs.Clauses.{IsSoundClause};
ghost use Rattle.si_defs.specs.Entries.{entries, state_entries, clause_symbols, state_symbols};
ghost use Rattle.si_defs.specs.Symbols.{Symbol};
ghost use Rattle.si_defs.specs.Substitutions.{IsAmong};
ghost use Rattle.si_defs.specs.declared.TheConstants.{MOST_OCCURRENCES};
ghost use Rattle.si_state.specs.States.{limited_to};
ghost use Rattle.si_state.specs.Acceptance.{IsTaken, Agrees, AllAgree, Clashes, Accepts};
ghost use Rattle.si_term.specs.Terms.{symbol_of};
ghost use Rattle.si_term.specs.Meaning.{clause_of, name_of};
ghost use Rattle.si_sign.specs.Shapes.{shape_of, NamesFirstClash};
ghost use Rattle.si_sign.specs.Stores.{IsStored, Rejects};
ghost use Rattle.si_sign.specs.Plain.{lent_symbols, is_clash};

use crate::faults::{AddFault, Clash, Rejected, Shape};
use crate::keys::has_kind_and_text;
use crate::names::is_same_name;
use crate::store::ClauseStore;
use crate::uses::{has_shape_of, shape};
use si_term::{Clause, Name, Sym, entry_count, symbols_of};
use std::alloc::{AllocError, Global};
use std::marker::Model;

/// A list of clauses with a limit on their entries, and nothing besides: each call looks through
/// all of it. Faster stores are tested against this one.
#[derive(Drop)]
pub struct PlainStore {
    alloc: Global,
    clauses: Vec<Clause>,
    limit: u64,
}

impl Model for PlainStore {
    ghost use Rattle.std.specs.Prelude.{◌≤◌, List, map};
    ghost use Rattle.std.specs.Coded.{coded×, coded_list};
    ghost use Rattle.si_defs.specs.Clauses as defs;
    ghost use Rattle.si_defs.specs.Codes.{clause_code};
    ghost use Rattle.si_defs.specs.declared.TheConstants.{MOST_OCCURRENCES};
    ghost use Rattle.si_state.specs.States.{Rules, rules_code, limited_to};
    ghost use Rattle.si_term.specs.Meaning.{clause_of};
    ghost use Rattle.si_sign.specs.Stores.{IsStored};

    ghost Value = { Rules × List defs.Clause };

    ghost coded = { coded× rules_code (coded_list clause_code) };

    ghost view = { λ s. (limited_to s.limit, map clause_of s.clauses.items) };

    ghost invariant = { λ s. IsStored (limited_to s.limit) (map clause_of s.clauses.items)
        × (s.limit ≤ MOST_OCCURRENCES) };
}

impl PlainStore {
    /// The empty list, with this limit on entries.
    pub fn new(alloc: Global, limit: u64) -> PlainStore
        requires { limit ≤ MOST_OCCURRENCES }
        ensures { result ≡ (limited_to limit, []) }
    {
        PlainStore {
            alloc,
            clauses: Vec::new(alloc),
            limit,
        }
    }

    /// The number of clauses.
    pub fn len(&self) -> usize
        ensures number { result ≡ length self.now.1 }
        ensures stored { IsStored self.now.0 self.now.1 }
    {
        self.clauses.len()
    }
}

impl ClauseStore for PlainStore {
    ghost clauses = { λ s. s.1 };

    ghost rules = { λ s. s.0 };

    fn add(&mut self, clause: Clause) -> Result<u32, Rejected> {
        let gained = match try_clause(self.alloc, self.clauses.as_slice(), self.limit, &clause) {
            Ok(gained) => gained,
            Err(why) => return Err(Rejected { clause, why }),
        };
        match self.clauses.push(clause) {
            Ok(()) => Ok(gained),
            Err(failed) => Err(Rejected {
                clause: failed.value,
                why: AddFault::Memory,
            }),
        }
    }

    fn remove(&mut self, name: &Name) -> Option<u32> {
        let Some(at) = position(self.clauses.as_slice(), name) else {
            return None;
        };
        let clause = self.clauses.remove(at);
        Some(entry_count(&clause))
    }

    fn remove_last(&mut self) -> Option<u32> {
        match self.clauses.pop() {
            Some(clause) => Some(entry_count(&clause)),
            None => None,
        }
    }
}

/// Tries a clause after these ones, and answers the number of its entries.
fn try_clause(
    alloc: Global,
    clauses: &[Clause],
    limit: u64,
    clause: &Clause,
) -> Result<u32, AddFault>
    requires small { limit ≤ MOST_OCCURRENCES }
    requires stored { IsStored (limited_to limit) (map clause_of clauses.now) }
    requires sound { IsSoundClause (clause_of clause.now) }
    ensures accepted { OnOk result (Accepts (limited_to limit) (map clause_of clauses.now)
        (clause_of clause.now) (map clause_of clauses.now ++ clause_of clause.now ∷ [])) }
    ensures entries { IfOk result (λ n. n ≡ length (entries (clause_of clause.now))) }
    ensures rejected { IfErr result (Rejects (limited_to limit) (map clause_of clauses.now)
        (clause_of clause.now)) }
{
    if position(clauses, &clause.name).is_some() {
        return Err(AddFault::Taken);
    }
    match clash_with(alloc, clauses, clause) {
        Ok(None) => {}
        Ok(Some(clash)) => return Err(AddFault::Clash(clash)),
        Err(_) => return Err(AddFault::Memory),
    }
    let gained = entry_count(clause);
    let needed = entries_of(clauses) + u64::from(gained);
    if needed > limit {
        return Err(AddFault::Full { needed, limit });
    }
    Ok(gained)
}

/// The position of the clause with this name.
fn position(clauses: &[Clause], name: &Name) -> Option<usize>
    ensures found { IfSome result (λ n. (c : Clause) × (slice_get clauses.now n ≡ Some c)
        × (name_of c.name ≡ name_of name.now)) }
    ensures free { IfNone result (IsTaken (map clause_of clauses.now) (name_of name.now) → ⊥) }
{
    for i in 0..clauses.len() {
        if is_same_name(&clauses[i].name, name) {
            return Some(i);
        }
    }
    None
}

/// The number of entries of these clauses.
fn entries_of(clauses: &[Clause]) -> u64
    requires sound { AllByRecursion IsSoundClause (map clause_of clauses.now) }
    requires few { length (state_entries (map clause_of clauses.now)) ≤ MOST_OCCURRENCES }
    ensures { result ≡ length (state_entries (map clause_of clauses.now)) }
{
    let mut count = 0;
    for i in 0..clauses.len() {
        count += u64::from(entry_count(&clauses[i]));
    }
    count
}

/// The first symbol of the clause that clashes with one of these clauses or an earlier one of its
/// own.
fn clash_with(
    alloc: Global,
    clauses: &[Clause],
    clause: &Clause,
) -> Result<Option<Clash>, AllocError>
    requires { IsSoundClause (clause_of clause.now) }
    ensures clash { IfOk result (λ r. IfSome r (NamesFirstClash
        (state_symbols (map clause_of clauses.now)) (clause_symbols (clause_of clause.now)))) }
    ensures agree { IfOk result (λ r. IfNone r (AllAgree
        (state_symbols (map clause_of clauses.now)) (clause_symbols (clause_of clause.now)))) }
{
    let known = kept_symbols(alloc, clauses)?;
    let own = symbols_of(alloc, clause)?;
    Ok(first_clash(known.as_slice(), own.as_slice()))
}

/// The symbols of these clauses.
fn kept_symbols<'a>(alloc: Global, clauses: &'a [Clause]) -> Result<Vec<&'a Sym>, AllocError>
    ensures { IfOk result (λ v.
        lent_symbols v.items ≡ state_symbols (map clause_of clauses.now)) }
{
    let mut all = Vec::new(alloc);
    for i in 0..clauses.len() {
        all.extend_from_slice(symbols_of(alloc, &clauses[i])?.as_slice())?;
    }
    Ok(all)
}

/// The first of these symbols that clashes with a known one or an earlier one.
fn first_clash(known: &[&Sym], own: &[&Sym]) -> Option<Clash>
    requires { length own.now ≤ MOST_OCCURRENCES }
    ensures clash { IfSome result (NamesFirstClash (lent_symbols known.now)
        (lent_symbols own.now)) }
    ensures agree { IfNone result (AllAgree (lent_symbols known.now) (lent_symbols own.now)) }
{
    for i in 0..own.len() {
        let symbol = own[i];
        let occurrence = i as u32;
        let found = shape(symbol);
        if let Some(kept) = find_clash(symbol, known) {
            return Some(Clash {
                occurrence,
                found,
                kept,
            });
        }
        if let Some(kept) = find_clash(symbol, &own[..i]) {
            return Some(Clash {
                occurrence,
                found,
                kept,
            });
        }
    }
    None
}

/// The shape of the first of these symbols that clashes with this one.
fn find_clash(symbol: &Sym, others: &[&Sym]) -> Option<Shape>
    ensures clash { IfSome result (λ r. (kept : Symbol) × IsAmong (lent_symbols others.now) kept
        × Clashes (symbol_of symbol.now) kept × (r ≡ shape_of kept)) }
    ensures agrees { IfNone result (Agrees (lent_symbols others.now) (symbol_of symbol.now)) }
{
    for i in 0..others.len() {
        let other = others[i];
        if clashes(symbol, other) {
            return Some(shape(other));
        }
    }
    None
}

/// Whether the symbols are of one kind and text, and differ in side or arity.
fn clashes(symbol: &Sym, other: &Sym) -> bool
    ensures { result ≡ is_clash (symbol_of symbol.now) (symbol_of other.now) }
{
    has_kind_and_text(symbol, other.kind, other.text.as_bytes()) && !has_shape_of(symbol, other)
}
