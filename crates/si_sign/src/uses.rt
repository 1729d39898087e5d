// The symbols in use, and how often each occurs.
ghost use Rattle.std.specs.Prelude.{◌≡◌, ◌+◌, ◌<◌, ◌≤◌, Some, None, [], ◌∷◌, IfOk, OnOk, OnErr, IfErr, length, IsTrue, ◌&&◌, ◌==◌};
ghost use Rattle.slab.specs.Slab.{get};
ghost use Rattle.si_defs.specs.Symbols.{same_side};
ghost use Rattle.si_state.specs.Signatures.{uses_of};
ghost use Rattle.si_term.specs.Terms.{symbol_of};
ghost use Rattle.si_sign.specs.Shapes.{shape_of};
ghost use Rattle.si_sign.specs.Uses.{key_in, seen, IsUses};
ghost use Rattle.si_sign.specs.Taking.{TakesUses, GivesBack, RefusesFrom};

use crate::faults::{Clash, Shape, TakeFault};
use crate::keys::SymbolKeys;
use crate::recent::Recent;
use si_defs::SymKind;
use si_term::Sym;
use slab::Slab;
use std::alloc::{AllocError, Global};

/// No more occurrences of symbols than this are in use at once.
pub const MOST_USES: usize = 1_073_741_824;

/// A symbol, and how often it occurs.
#[derive(Drop)]
pub struct CountedSymbol {
    pub sym: Sym,
    pub uses: u32,
}

/// The symbols in use. Each has a key, and goes by twice that number.
#[derive(Drop)]
pub struct Uses {
    pub keys: SymbolKeys,
    pub slots: Slab<CountedSymbol>,
    pub total: u64,
    pub recent: Recent,
}

impl Uses {
    /// No symbol is in use.
    pub fn new(alloc: Global) -> Uses
        ensures uses { IsUses result }
        ensures none { seen result ≡ [] }
    {
        Uses {
            keys: SymbolKeys::new(alloc),
            slots: Slab::new(alloc),
            total: 0,
            recent: Recent::new(),
        }
    }

    /// The key of a symbol's kind and text. Where the symbol was found of late, it isn't looked for
    /// in the map. The map is called at two places, so that it isn't inlined: most symbols are
    /// found without it.
    pub fn find(&self, symbol: &Sym) -> Option<usize>
        requires { IsUses self.now }
        ensures { result ≡ key_in self.now symbol.now.kind symbol.now.text }
    {
        let likely = self.recent.likely(symbol.text.as_bytes());
        let Some(counted) = self.slots.get(likely) else {
            return self.key_of(symbol.kind, symbol.text.as_bytes());
        };
        if counted.sym.is(symbol) {
            return Some(likely);
        }
        self.key_of(symbol.kind, symbol.text.as_bytes())
    }

    /// The key of a kind and text, by the map.
    pub fn key_of(&self, kind: SymKind, text: &[u8]) -> Option<usize>
        ensures { result ≡ key_in self.now kind text.now }
    {
        self.keys.get(&self.slots, kind, text)
    }

    /// Counts one more occurrence of a symbol. `begin` is the number of uses before its clause.
    pub fn take(&mut self, alloc: Global, symbol: &Sym, begin: u64) -> Result<(), TakeFault>
        requires uses { IsUses self.old }
        requires begun { begin ≤ self.old.total }
        requires room { self.old.total < MOST_USES }
        ensures uses { IsUses self.new }
        ensures ok { OnOk result (TakesUses (symbol_of symbol.now ∷ []) (seen self.old)
            (seen self.new)) }
        ensures why { IfErr result (RefusesFrom begin (seen self.old)
            (symbol_of symbol.now ∷ [])) }
        ensures err { OnErr result (seen self.new ≡ seen self.old) }
    {
        match self.find(symbol) {
            Some(key) => self.take_known(key, symbol, begin),
            None => match self.take_new(alloc, symbol) {
                Ok(()) => Ok(()),
                Err(_) => Err(TakeFault::Memory),
            },
        }
    }

    /// Counts one more occurrence of a symbol whose kind and text have a key.
    fn take_known(&mut self, key: usize, symbol: &Sym, begin: u64) -> Result<(), TakeFault>
        requires uses { IsUses self.old }
        requires begun { begin ≤ self.old.total }
        requires room { self.old.total < MOST_USES }
        requires key { key_in self.old symbol.now.kind symbol.now.text ≡ Some key }
        ensures uses { IsUses self.new }
        ensures ok { OnOk result (TakesUses (symbol_of symbol.now ∷ []) (seen self.old)
            (seen self.new)) }
        ensures why { IfErr result (RefusesFrom begin (seen self.old)
            (symbol_of symbol.now ∷ [])) }
        ensures err { OnErr result (seen self.new ≡ seen self.old) }
    {
        let kept = &self.slots[key].sym;
        if !has_shape_of(symbol, kept) {
            return Err(TakeFault::Clash(Clash {
                occurrence: (self.total - begin) as u32,
                found: shape(symbol),
                kept: shape(kept),
            }));
        }
        self.slots[key].uses += 1;
        self.total += 1;
        self.recent.note(symbol.text.as_bytes(), key);
        Ok(())
    }

    /// Counts the first occurrence of a symbol. At an error nothing has changed.
    fn take_new(&mut self, alloc: Global, symbol: &Sym) -> Result<(), AllocError>
        requires uses { IsUses self.old }
        requires room { self.old.total < MOST_USES }
        requires none { key_in self.old symbol.now.kind symbol.now.text ≡ None }
        ensures uses { IsUses self.new }
        ensures ok { OnOk result (TakesUses (symbol_of symbol.now ∷ []) (seen self.old)
            (seen self.new)) }
        ensures err { OnErr result (seen self.new ≡ seen self.old) }
    {
        let key = self.slots.vacant_key();
        if key >= MOST_USES {
            return Err(AllocError);
        }
        let sym = symbol.copy(alloc)?;
        self.slots.reserve(1)?;
        self.keys.insert(alloc, symbol, key)?;
        self.slots.insert_reserved(CountedSymbol { sym, uses: 1 });
        self.total += 1;
        self.recent.note(symbol.text.as_bytes(), key);
        Ok(())
    }

    /// Counts one occurrence of a symbol less.
    pub fn give_back(&mut self, symbol: &Sym)
        requires uses { IsUses self.old }
        requires used { 1 ≤ uses_of (seen self.old) (symbol_of symbol.now) }
        ensures uses { IsUses self.new }
        ensures back { GivesBack (symbol_of symbol.now ∷ []) (seen self.old) (seen self.new) }
    {
        let Some(key) = self.find(symbol) else {
            unreachable!()
        };
        self.total -= 1;
        if self.slots[key].uses > 1 {
            self.slots[key].uses -= 1;
            return;
        }
        self.keys.remove(symbol, key);
        let _counted = self.slots.remove(key);
    }
}

/// Whether the symbols have the same side and arity.
pub fn has_shape_of(symbol: &Sym, kept: &Sym) -> bool
    ensures { result ≡ (same_side symbol.now.side kept.now.side
        && symbol.now.arity == kept.now.arity) }
{
    symbol.side == kept.side && symbol.arity == kept.arity
}

/// The side and arity of a symbol.
pub fn shape(symbol: &Sym) -> Shape
    ensures { result ≡ shape_of (symbol_of symbol.now) }
{
    Shape {
        side: symbol.side,
        arity: symbol.arity,
    }
}
