// Keys of the symbols in use.
ghost use Rattle.std.specs.Prelude.{◌≡◌, ◌&&◌, List, ℕ, None, OnOk, OnErr, bytes_eq};
ghost use Rattle.slab.specs.Slab.{get};
ghost use Rattle.si_defs.specs.Symbols.{same_kind};
ghost use Rattle.si_defs.specs.declared.SymKind.{SymKind as Kind};
ghost use Rattle.si_term.specs.Terms.{symbol_of};
ghost use Rattle.si_sign.specs.Hashed.{hashed_key};
ghost use Rattle.si_sign.specs.Keys.{is_named, kind_key, symbol_key, LeadsTo, LeadsAway, StayLed};

use crate::hashed::HashedKeys;
use crate::kinds::KindKeys;
use crate::uses::CountedSymbol;
use si_defs::SymKind;
use si_term::Sym;
use slab::Slab;
use std::alloc::{AllocError, Global};

/// A map from kinds and texts of symbols to their keys in a slab. Of the texts with one hash at
/// most one is found by the hash; it has no copy here, and stands in the slab alone.
#[derive(Drop)]
pub struct SymbolKeys {
    hashed: HashedKeys,
    // Of the symbols whose hash led to another one already.
    others: KindKeys,
}

impl SymbolKeys {
    /// The empty map.
    pub fn new(alloc: Global) -> SymbolKeys
        ensures hashed { (text : List ℕ) → hashed_key result.hashed text ≡ None }
        ensures others { (kind : Kind) (text : List ℕ) → kind_key result.others kind text ≡ None }
    {
        SymbolKeys {
            hashed: HashedKeys::new(alloc),
            others: KindKeys::new(alloc),
        }
    }

    /// The key of the kind and text, of symbols in these slots.
    pub fn get(&self, slots: &Slab<CountedSymbol>, kind: SymKind, text: &[u8]) -> Option<usize>
        ensures { result ≡ symbol_key self.now (get slots.now) kind text.now }
    {
        let Some(key) = self.hashed.get(text) else {
            return self.others.get(kind, text);
        };
        if is_at(slots, key, kind, text) {
            return Some(key);
        }
        self.others.get(kind, text)
    }

    /// Gives this key to a kind and text that have none. At an error the map is as before.
    pub fn insert(&mut self, alloc: Global, symbol: &Sym, key: usize) -> Result<(), AllocError>
        ensures ok { OnOk result (LeadsTo symbol.now.kind symbol.now.text key self.old self.new) }
        ensures err { OnErr result (StayLed self.old self.new) }
    {
        if self.hashed.insert(symbol.text.as_bytes(), key)? {
            return Ok(());
        }
        let text = symbol.text.copy(alloc)?;
        self.others.insert(symbol.kind, text, key)
    }

    /// Takes from a kind and text their key. It takes no memory.
    pub fn remove(&mut self, symbol: &Sym, key: usize)
        ensures { LeadsAway symbol.now.kind symbol.now.text key self.old self.new }
    {
        let text = symbol.text.as_bytes();
        self.hashed.remove(text, key);
        self.others.remove(symbol.kind, text);
    }
}

/// Whether the slot with this key has a symbol of the kind and text.
fn is_at(slots: &Slab<CountedSymbol>, key: usize, kind: SymKind, text: &[u8]) -> bool
    ensures { result ≡ is_named kind text.now (get slots.now key) }
{
    let Some(counted) = slots.get(key) else {
        return false;
    };
    has_kind_and_text(&counted.sym, kind, text)
}

/// Whether a symbol has this kind and text.
#[inline(always)]
pub fn has_kind_and_text(symbol: &Sym, kind: SymKind, text: &[u8]) -> bool
    ensures { result ≡ (same_kind symbol.now.kind kind && bytes_eq symbol.now.text text.now) }
{
    symbol.kind == kind && symbol.text.as_bytes() == text
}
