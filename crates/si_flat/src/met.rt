// The variables and symbols that a walk has met.
ghost use Rattle.std.specs.Prelude.{◌≡◌, ◌<◌, ◌≤◌, ◌+◌, ◌-◌, ◌*◌, ◌^◌, ◌↔◌, [], ◌∷◌, IfOk, OnOk, OnErr, IsFalse, length, map, cond, bytes_eq};
ghost use Rattle.indexmap.specs.IndexSet.{insert_all};
ghost use Rattle.si_defs.specs.Symbols.{same_symbol};
ghost use Rattle.si_defs.specs.declared.TheConstants.{MOST_OCCURRENCES};
ghost use Rattle.si_term.specs.Terms.{symbol_of};
ghost use Rattle.si_flat.specs.Numbered.{one_above};
ghost use Rattle.si_flat.specs.Flattened.{unnumbered};
ghost use Rattle.si_flat.specs.Rooms.{IsNoLess};
ghost use Rattle.si_flat.specs.Flattening.{met_names, symbol_of_key, met_extra, room_of, IsIndex, IsSymbolNumber};

use crate::names::NameSet;
use crate::walk::Scheme;
use indexmap::IndexSet;
use si_defs::{Side, SymKind};
use si_term::{Sym, SymTable, Syms, Text};
use std::alloc::{AllocError, Global};

/// The number of the first symbol of a pattern that isn't in the table.
pub const FIRST_EXTRA: u32 = 2_147_483_648;

/// A symbol as a key. Text and arity are enough for a hash.
#[derive(Clone, Copy, PartialEq, Eq)]
#[derive_where(Hash)]
pub(crate) struct SymbolKey<'a> {
    #[derive_where(skip(Hash))]
    kind: SymKind,
    #[derive_where(skip(Hash))]
    side: Side,
    arity: u32,
    text: &'a [u8],
}

impl SymbolKey<'_> {
    // The symbol, in memory of its own.
    fn to_symbol(self, alloc: Global) -> Result<Sym, AllocError>
        ensures { IfOk result (λ s. symbol_of s ≡ symbol_of_key self.entry) }
    {
        Ok(Sym {
            kind: self.kind,
            text: Text::from_bytes(alloc, self.text)?,
            side: self.side,
            arity: self.arity,
        })
    }
}

/// The variables and the symbols outside the table that a walk has met, each once, in the order in
/// which they came.
pub(crate) struct Met<'a> {
    names: NameSet<'a>,
    extra: IndexSet<SymbolKey<'a>>,
}

// It does what a derived one would, and is quicker to check (docs/PROVING.md, "Minutes").
impl Drop for Met<'_> {
    fn drop(self) {
        let Met {
            names: _names,
            extra: _extra,
        } = self;
    }
}

impl<'a> Met<'a> {
    pub(crate) fn new(alloc: Global) -> Met<'a>
        ensures names { met_names result ≡ [] }
        ensures extra { met_extra result ≡ [] }
    {
        Met {
            names: NameSet::new(alloc),
            extra: IndexSet::new(alloc),
        }
    }

    // Forgets the variables: those of another clause come.
    pub(crate) fn forget_variables(&mut self)
        ensures names { met_names self.new ≡ [] }
        ensures extra { met_extra self.new ≡ met_extra self.old }
    {
        self.names.clear();
    }

    // Forgets all, and keeps the room.
    pub(crate) fn clear(&mut self)
        ensures names { met_names self.new ≡ [] }
        ensures extra { met_extra self.new ≡ [] }
        ensures keeps { IsNoLess (room_of self.old 0) (room_of self.new 0) }
    {
        self.names.clear();
        if self.has_extra() {
            self.extra.clear();
        }
    }

    // The names of the variables.
    pub(crate) fn names(&self) -> &[&'a [u8]]
        ensures { map (λ name. name.now) result.now ≡ met_names self.now }
    {
        self.names.as_slice()
    }

    // Whether a symbol was met that isn't in the table.
    pub(crate) fn has_extra(&self) -> bool
        ensures { IsFalse result ↔ (met_extra self.now ≡ []) }
    {
        !self.extra.is_empty()
    }

    // The symbols that aren't in the table.
    pub(crate) fn extra_symbols(&self, alloc: Global) -> Result<Syms, AllocError>
        ensures { IfOk result (λ ss. map symbol_of ss ≡ met_extra self.now) }
    {
        let mut symbols = Syms::new(alloc);
        for key in self.extra.as_slice() {
            symbols.push(key.to_symbol(alloc)?)?;
        }
        Ok(symbols)
    }

    // The number of a variable.
    pub(crate) fn variable(&mut self, name: &'a [u8]) -> Result<u32, AllocError>
        requires { length (met_names self.old) ≤ MOST_OCCURRENCES }
        ensures names { OnOk result (met_names self.new
            ≡ insert_all bytes_eq (met_names self.old) (name.now ∷ [])) }
        ensures extra { OnOk result (met_extra self.new ≡ met_extra self.old) }
        ensures number { IfOk result (λ n. IsIndex bytes_eq (met_names self.new) name.now n) }
        ensures full { OnErr result ((room_of self.old 0).names
            < length (insert_all bytes_eq (met_names self.old) (name.now ∷ []))) }
        ensures keeps { IsNoLess (room_of self.old 0) (room_of self.new 0) }
    {
        let number = self.names.insert(name)?;
        Ok(number as u32)
    }

    // The number of a symbol.
    pub(crate) fn symbol<T: SymTable>(
        &mut self,
        table: &T,
        scheme: Scheme,
        symbol: &'a Sym,
    ) -> Result<u32, AllocError>
        requires { scheme.first + 2 * length (met_extra self.old) < 2 ^ 32 - 1 }
        ensures names { OnOk result (met_names self.new ≡ met_names self.old) }
        ensures extra { OnOk result (met_extra self.new
            ≡ insert_all same_symbol (met_extra self.old)
            (unnumbered (T.pairs table.now) (symbol_of symbol.now ∷ []))) }
        ensures number { IfOk result (IsSymbolNumber (T.pairs table.now) scheme
            (met_extra self.new) (symbol_of symbol.now)) }
        ensures full { OnErr result ((room_of self.old 0).symbols
            < length (insert_all same_symbol (met_extra self.old)
            (unnumbered (T.pairs table.now) (symbol_of symbol.now ∷ [])))) }
        ensures keeps { IsNoLess (room_of self.old 0) (room_of self.new 0) }
    {
        match table.id_of(symbol) {
            Some(number) => Ok(with_sign(number, scheme.positive, symbol.side)),
            None => {
                let place = self.outside(symbol)?;
                Ok(with_sign(scheme.first + 2 * place, scheme.positive, symbol.side))
            }
        }
    }

    // The place of a symbol among those outside the table. Only a new one may be refused, and only
    // where there is no room for it.
    fn outside(&mut self, symbol: &'a Sym) -> Result<u32, AllocError>
        requires { length (met_extra self.old) < 2 ^ 31 }
        ensures names { OnOk result (met_names self.new ≡ met_names self.old) }
        ensures extra { OnOk result (met_extra self.new
            ≡ insert_all same_symbol (met_extra self.old) (symbol_of symbol.now ∷ [])) }
        ensures place { IfOk result (λ n. IsIndex same_symbol (met_extra self.new)
            (symbol_of symbol.now) n) }
        ensures small { IfOk result (λ n. n ≤ length (met_extra self.old)) }
        ensures full { OnErr result ((room_of self.old 0).symbols
            < length (insert_all same_symbol (met_extra self.old) (symbol_of symbol.now ∷ []))) }
        ensures keeps { IsNoLess (room_of self.old 0) (room_of self.new 0) }
    {
        let key = SymbolKey {
            kind: symbol.kind,
            side: symbol.side,
            arity: symbol.arity,
            text: symbol.text.as_bytes(),
        };
        if let Some(place) = self.extra.get_index_of(&key) {
            return Ok(place as u32);
        }
        let place = self.extra.len();
        self.extra.insert(key)?;
        Ok(place as u32)
    }
}

/// The number of a symbol in a literal: that of a negative literal's predicate is the one above its
/// own.
pub(crate) fn with_sign(number: u32, positive: bool, side: Side) -> u32
    requires { number < 2 ^ 32 - 1 }
    ensures { result ≡ cond positive number (one_above side number) }
{
    if positive {
        return number;
    }
    match side {
        Side::Predicate => number + 1,
        Side::Function => number,
    }
}
