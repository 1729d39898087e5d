// Keys by kind and text.
ghost use Rattle.std.specs.Prelude.{◌≡◌, List, ℕ, Some, None, OnOk, OnErr};
ghost use Rattle.si_defs.specs.declared.SymKind.{SymKind as Kind};
ghost use Rattle.si_sign.specs.Keys.{kind_key, HasAtKind};

use crate::texts::TextKeys;
use si_defs::SymKind;
use si_term::Text;
use std::alloc::{AllocError, Global};

/// A finite map from kinds and texts to keys: one map from texts for each kind, so that a look-up
/// takes no memory.
#[derive(Drop)]
pub struct KindKeys {
    words: TextKeys,
    dollars: TextKeys,
    numbers: TextKeys,
    distincts: TextKeys,
    equals: TextKeys,
}

impl KindKeys {
    /// The empty map.
    pub fn new(alloc: Global) -> KindKeys
        ensures { (kind : Kind) (text : List ℕ) → kind_key result kind text ≡ None }
    {
        KindKeys {
            words: TextKeys::new(alloc),
            dollars: TextKeys::new(alloc),
            numbers: TextKeys::new(alloc),
            distincts: TextKeys::new(alloc),
            equals: TextKeys::new(alloc),
        }
    }

    /// The key of the kind and text.
    pub fn get(&self, kind: SymKind, text: &[u8]) -> Option<usize>
        ensures { result ≡ kind_key self.now kind text.now }
    {
        match kind {
            SymKind::Word => self.words.get(text),
            SymKind::Dollar => self.dollars.get(text),
            SymKind::Number => self.numbers.get(text),
            SymKind::Distinct => self.distincts.get(text),
            SymKind::Equal => self.equals.get(text),
        }
    }

    /// Gives the kind and text this key. At an error the map is as before.
    pub fn insert(&mut self, kind: SymKind, text: Text, key: usize) -> Result<(), AllocError>
        ensures ok { OnOk result (HasAtKind kind text (Some key)
            (kind_key self.old) (kind_key self.new)) }
        ensures err { OnErr result ((k : Kind) (t : List ℕ) → kind_key self.new k t
            ≡ kind_key self.old k t) }
    {
        match kind {
            SymKind::Word => self.words.insert(text, key),
            SymKind::Dollar => self.dollars.insert(text, key),
            SymKind::Number => self.numbers.insert(text, key),
            SymKind::Distinct => self.distincts.insert(text, key),
            SymKind::Equal => self.equals.insert(text, key),
        }
    }

    /// Takes the kind and text out, and answers their key.
    pub fn remove(&mut self, kind: SymKind, text: &[u8]) -> Option<usize>
        ensures key { result ≡ kind_key self.old kind text.now }
        ensures gone { HasAtKind kind text.now None (kind_key self.old) (kind_key self.new) }
    {
        match kind {
            SymKind::Word => self.words.remove(text),
            SymKind::Dollar => self.dollars.remove(text),
            SymKind::Number => self.numbers.remove(text),
            SymKind::Distinct => self.distincts.remove(text),
            SymKind::Equal => self.equals.remove(text),
        }
    }
}
