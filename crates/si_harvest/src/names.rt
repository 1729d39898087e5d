// Names that a selection lists.
ghost use Rattle.std.specs.Prelude.{◌≡◌, ◌++◌, ◌∷◌, [], List, map, IfOk, OnOk};
ghost use Rattle.si_defs.specs.Clauses as defs;
ghost use Rattle.si_term.specs.Meaning.{name_of};
ghost use Rattle.si_harvest.specs.Chosen.{holds, IsSetOf};

use indexmap::IndexSet;
use si_defs::NameKind;
use si_term::Name;
use std::alloc::{AllocError, Global};

/// A set of names, which looks them up without taking memory.
pub struct NameSet {
    words: IndexSet<Vec<u8>>,
    integers: IndexSet<Vec<u8>>,
}

// It does what a derived one would, and is quicker to check (docs/PROVING.md, "Minutes").
impl Drop for NameSet {
    fn drop(self) {
        let NameSet {
            words: _words,
            integers: _integers,
        } = self;
    }
}

impl NameSet {
    /// The set of these names.
    pub fn from_names(alloc: Global, names: &[Name]) -> Result<NameSet, AllocError>
        ensures { IfOk result (λ set. IsSetOf (map name_of names.now) set) }
    {
        let mut set = NameSet {
            words: IndexSet::new(alloc),
            integers: IndexSet::new(alloc),
        };
        for i in 0..names.len() {
            set.insert(alloc, &names[i])?;
        }
        Ok(set)
    }

    /// Whether the name is one of the set.
    pub fn contains(&self, name: &Name) -> bool
        ensures { result ≡ holds self.now (name_of name.now) }
    {
        match name.kind {
            NameKind::Word => self.words.contains(name.text.as_bytes()),
            NameKind::Int => self.integers.contains(name.text.as_bytes()),
        }
    }

    fn insert(&mut self, alloc: Global, name: &Name) -> Result<(), AllocError>
        ensures { OnOk result ((names : List defs.Name) → IsSetOf names self.old
            → IsSetOf (names ++ name_of name.now ∷ []) self.new) }
    {
        let text = Vec::from_slice(alloc, name.text.as_bytes())?;
        match name.kind {
            NameKind::Word => self.words.insert(text)?,
            NameKind::Int => self.integers.insert(text)?,
        };
        Ok(())
    }
}
