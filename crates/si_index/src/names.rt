// Keys of the clauses that are kept, by their names.
ghost use Rattle.std.specs.Prelude.{◌≡◌, List, ℕ, None, OnOk, OnErr};
ghost use Rattle.si_defs.specs.Clauses as defs;
ghost use Rattle.si_term.specs.Meaning.{name_of};
ghost use Rattle.si_sign.specs.Hashed.{hashed_key};
ghost use Rattle.si_index.specs.Names.{key_of_name, key_of, AreNamed, NameLeadsAway, NameLeadsTo, NamesStayLed};

use crate::name_keys::NameKeys;
use si_keyed::KeyedList;
use si_lanes::Row;
use si_sign::{HashedKeys, is_same_name};
use si_term::{Clause, Name};
use std::alloc::{AllocError, Global};

/// A map from names of clauses to their keys in a list. Of the names whose texts have one hash at
/// most one is found by the hash; it has no copy here, and stands in its clause alone.
#[derive(Drop)]
pub struct ClauseNames {
    hashed: HashedKeys,
    // Of the names whose hash led to another clause already.
    others: NameKeys,
}

impl ClauseNames {
    /// The empty map.
    pub fn new(alloc: Global) -> ClauseNames
        ensures hashed { (text : List ℕ) → hashed_key result.hashed text ≡ None }
        ensures others { (name : defs.Name) → key_of result.others name ≡ None }
    {
        ClauseNames {
            hashed: HashedKeys::new(alloc),
            others: NameKeys::new(alloc),
        }
    }

    /// The key of the name, of the clauses of this list.
    pub fn get(&self, clauses: &KeyedList<Clause, Row>, name: &Name) -> Option<usize>
        requires { AreNamed clauses.now.items (key_of_name clauses.now.items self.now) }
        ensures { result ≡ key_of_name clauses.now.items self.now (name_of name.now) }
    {
        let Some(key) = self.hashed.get(name.text.as_bytes()) else {
            return self.others.get(name);
        };
        let Some(kept) = clauses.get(key) else {
            return self.others.get(name);
        };
        if is_same_name(&kept.name, name) {
            return Some(key);
        }
        self.others.get(name)
    }

    /// Gives this key to a name that has none. At an error the map is as before.
    pub fn insert(&mut self, alloc: Global, name: &Name, key: usize) -> Result<(), AllocError>
        ensures ok { OnOk result (NameLeadsTo (name_of name.now) key self.old self.new) }
        ensures err { OnErr result (NamesStayLed self.old self.new) }
    {
        if self.hashed.insert(name.text.as_bytes(), key)? {
            return Ok(());
        }
        self.others.insert(alloc, name, key)
    }

    /// Takes from a name its key. It takes no memory.
    pub fn remove(&mut self, name: &Name, key: usize)
        ensures { NameLeadsAway (name_of name.now) key self.old self.new }
    {
        self.hashed.remove(name.text.as_bytes(), key);
        self.others.remove(name);
    }
}
