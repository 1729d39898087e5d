// The symbols of a formula that a table lacks.
ghost use Rattle.std.specs.Prelude.{◌≡◌, ◌<◌, ◌≤◌, ◌-◌, ◌^◌, [], ◌∷◌, IfOk, OnOk, length, map};
ghost use Rattle.std.proofs.Common.{ap};
ghost use Rattle.std.specs.Cmp.{decided, on_equiv, partial_equiv_from_equiv};
ghost use Rattle.std.specs.Hash as fed;
ghost use Rattle.indexmap.specs.IndexSet.{insert_key};
ghost use Rattle.si_defs.specs.Terms.{row, symbols, symbols_of_all};
ghost use Rattle.si_defs.specs.Symbols.{Symbol, same_symbol};
ghost use Rattle.si_defs.specs.Clauses.{AreSoundLiterals};
ghost use Rattle.si_defs.specs.declared.TheConstants.{MOST_OCCURRENCES};
ghost use Rattle.si_defs.proofs.SymbolLaws.{symbol_is, symbol-Decides};
ghost use Rattle.si_term.specs.Terms.{symbol_of, term_of};
ghost use Rattle.si_term.specs.Meaning.{literal_of};
ghost use Rattle.si_flat.specs.Numbered.{number_in};
ghost use Rattle.si_flat.specs.Flattened.{extra_numbers};
ghost use Rattle.si_screen.specs.ClauseRows.{lacking};
ghost use Rattle.si_screen.specs.Walks.{symbol_of_key, MeetsSymbols};

use indexmap::IndexSet;
use si_flat::FIRST_EXTRA;
use si_term::{Literal, Sym, SymTable, Term};
use std::alloc::{AllocError, Global};
use std::hash::{Hash, Hasher};
use std::marker::Model;

/// A symbol as a key. Its text is enough for a hash.
#[derive(Clone, Copy)]
struct Key<'a> {
    symbol: &'a Sym,
}

impl<'a> PartialEq for Key<'a> {
    ghost eq = { λ x y. same_symbol (symbol_of_key x) (symbol_of_key y) };

    ghost laws = { partial_equiv_from_equiv (on_equiv symbol_of_key
        (decided same_symbol symbol-Decides)) };

    fn eq(&self, other: &Key<'a>) -> bool {
        self.symbol.is(other.symbol)
    }
}

impl<'a> Eq for Key<'a> {
    ghost laws = { on_equiv symbol_of_key (decided same_symbol symbol-Decides) };
}

impl<'a> Hash for Key<'a> {
    ghost hash_input = { λ k. fed.slice fed.u8 (symbol_of_key k).text };

    ghost respects_eq = { λ x y h. ap (λ (s : Symbol). fed.slice fed.u8 s.text)
        (symbol_is (symbol_of_key x) (symbol_of_key y) h) };

    fn hash<H: Hasher>(&self, state: &mut H) {
        self.symbol.text.hash(state);
    }
}

/// Symbols that a table lacks, each once, in the order in which they came. The one at place `k` has
/// the number `FIRST_EXTRA + 2 * k`. Contracts see the list of the symbols.
#[derive(Drop)]
pub struct Extra<'a> {
    keys: IndexSet<Key<'a>>,
}

impl<'a> Model for Extra<'a> {
    ghost use Rattle.std.specs.Prelude.{List, map};
    ghost use Rattle.si_defs.specs.Symbols.{Symbol};
    ghost use Rattle.si_screen.specs.Walks.{symbol_of_key};

    ghost Value = { List Symbol };

    ghost view = { λ e. map symbol_of_key e.keys.keys };
}

impl<'a> Extra<'a> {
    /// No symbols: a clause whose symbols are all in the table has no others.
    pub fn new(alloc: Global) -> Extra<'a>
        ensures { result ≡ [] }
    {
        Extra {
            keys: IndexSet::new(alloc),
        }
    }

    /// Those that occur in these literals. Memory is taken for them alone; no clause says so.
    pub fn of<T: SymTable>(
        alloc: Global,
        table: &T,
        literals: &'a [Literal],
    ) -> Result<Extra<'a>, AllocError>
        requires sound { AreSoundLiterals (map literal_of literals.now) }
        ensures are { IfOk result (λ extra. extra
            ≡ lacking (T.pairs table.now) (map literal_of literals.now)) }
        ensures few { IfOk result (λ extra. length extra ≤ MOST_OCCURRENCES) }
    {
        let mut extra = Extra::new(alloc);
        for i in 0..literals.len() {
            meet_term(table, &literals[i].atom, &mut extra)?;
        }
        Ok(extra)
    }

    /// Adds a symbol, unless it is there.
    fn add(&mut self, symbol: &'a Sym) -> Result<(), AllocError>
        ensures { OnOk result (self.new ≡ insert_key same_symbol self.old (symbol_of symbol.now)) }
    {
        self.keys.insert(Key { symbol })?;
        Ok(())
    }

    /// The number of a symbol, and 0 where it isn't there.
    pub(crate) fn number_of(&self, symbol: &'a Sym) -> u32
        requires few { length self.now ≤ MOST_OCCURRENCES }
        ensures is { result ≡ number_in (extra_numbers self.now) (symbol_of symbol.now) }
        ensures small { result < 2 ^ 32 - 1 }
    {
        let key = Key { symbol };
        match self.keys.get_index_of(&key) {
            Some(place) => FIRST_EXTRA + 2 * place as u32,
            None => 0,
        }
    }
}

/// Adds the symbols of a term that the table lacks.
#[cycle(meet)]
fn meet_term<'a, T: SymTable>(
    table: &T,
    term: &'a Term,
    extra: &mut Extra<'a>,
) -> Result<(), AllocError>
    ensures { OnOk result (MeetsSymbols (T.pairs table.now) (symbols (term_of term.now)) extra.old
        extra.new) }
{
    match term {
        Term::Var(_) => Ok(()),
        Term::App(symbol, arguments) => {
            meet_symbol(table, symbol, extra)?;
            meet_terms(table, arguments.as_slice(), extra)
        }
    }
}

#[cycle(meet)]
fn meet_terms<'a, T: SymTable>(
    table: &T,
    terms: &'a [Term],
    extra: &mut Extra<'a>,
) -> Result<(), AllocError>
    ensures { OnOk result (MeetsSymbols (T.pairs table.now)
        (symbols_of_all (row (map term_of terms.now))) extra.old extra.new) }
{
    for i in 0..terms.len() {
        meet_term(table, &terms[i], extra)?;
    }
    Ok(())
}

/// Adds a symbol, if the table lacks it.
fn meet_symbol<'a, T: SymTable>(
    table: &T,
    symbol: &'a Sym,
    extra: &mut Extra<'a>,
) -> Result<(), AllocError>
    ensures { OnOk result (MeetsSymbols (T.pairs table.now) (symbol_of symbol.now ∷ []) extra.old
        extra.new) }
{
    match table.id_of(symbol) {
        Some(_) => Ok(()),
        None => extra.add(symbol),
    }
}
