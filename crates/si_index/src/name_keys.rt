// Keys by names.
ghost use Rattle.std.specs.Prelude.{◌≡◌, None, Some, OnOk, OnErr};
ghost use Rattle.si_defs.specs.Clauses as defs;
ghost use Rattle.si_term.specs.Meaning.{name_of};
ghost use Rattle.si_index.specs.Names.{key_of, ChangesName};

use si_defs::NameKind;
use si_sign::TextKeys;
use si_term::Name;
use std::alloc::{AllocError, Global};

/// A finite map from names of clauses to keys: one from texts for each kind, so that a look-up
/// takes no memory.
#[derive(Drop)]
pub struct NameKeys {
    words: TextKeys,
    integers: TextKeys,
}

impl NameKeys {
    /// The empty map.
    pub fn new(alloc: Global) -> NameKeys
        ensures { (name : defs.Name) → key_of result name ≡ None }
    {
        NameKeys {
            words: TextKeys::new(alloc),
            integers: TextKeys::new(alloc),
        }
    }

    /// The key of the name. It takes no memory.
    pub fn get(&self, name: &Name) -> Option<usize>
        ensures { result ≡ key_of self.now (name_of name.now) }
    {
        match name.kind {
            NameKind::Word => self.words.get(name.text.as_bytes()),
            NameKind::Int => self.integers.get(name.text.as_bytes()),
        }
    }

    /// Gives the name this key. At an error the map is as before.
    pub fn insert(&mut self, alloc: Global, name: &Name, key: usize) -> Result<(), AllocError>
        ensures ok { OnOk result (ChangesName (name_of name.now) (Some key) (key_of self.old)
            (key_of self.new)) }
        ensures err { OnErr result ((other : defs.Name) → key_of self.new other
            ≡ key_of self.old other) }
    {
        let text = name.text.copy(alloc)?;
        match name.kind {
            NameKind::Word => self.words.insert(text, key),
            NameKind::Int => self.integers.insert(text, key),
        }
    }

    /// Takes the name out, and answers its key. It takes no memory.
    pub fn remove(&mut self, name: &Name) -> Option<usize>
        ensures key { result ≡ key_of self.old (name_of name.now) }
        ensures gone { ChangesName (name_of name.now) None (key_of self.old) (key_of self.new) }
    {
        match name.kind {
            NameKind::Word => self.words.remove(name.text.as_bytes()),
            NameKind::Int => self.integers.remove(name.text.as_bytes()),
        }
    }
}
