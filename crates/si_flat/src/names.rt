// Names, each once.
ghost use Rattle.std.specs.Prelude.{◌≡◌, ◌<◌, ◌≤◌, [], IfOk, OnOk, OnErr, length, map, bytes_eq};
ghost use Rattle.std.specs.List.{position_or_len};
ghost use Rattle.indexmap.specs.IndexSet.{insert_key};
ghost use Rattle.si_flat.specs.Rooms.{names_room};
ghost use Rattle.si_flat.specs.Flattening.{FindsPlace};

use indexmap::IndexSet;
use std::alloc::{AllocError, Global};
use std::marker::Model;

/// How many names are compared one by one.
const FEW: usize = 8;

/// Names, each once, in the order in which they came. The first few are found by comparing them,
/// and those after them by a hash.
pub(crate) struct NameSet<'a> {
    all: Vec<&'a [u8]>,
    // Those after the first few.
    hashed: IndexSet<&'a [u8]>,
}

// It does what a derived one would, and is quicker to check (docs/PROVING.md, "Minutes").
impl Drop for NameSet<'_> {
    fn drop(self) {
        let NameSet {
            all: _all,
            hashed: _hashed,
        } = self;
    }
}

impl<'a> Model for NameSet<'a> {
    ghost use Rattle.std.specs.Prelude.{◌≡◌, ◌+◌, ◌-◌, min, map, drop, length, vec_capacity};
    ghost use Rattle.indexmap.specs.IndexSet.{spare as set_spare};
    ghost use Rattle.si_flat.specs.declared.names.TheConstants.{FEW};
    ghost use Rattle.si_flat.specs.Rooms.{GatheredNames};

    ghost Value = { GatheredNames };

    ghost view = { λ n. record {
      items = map (λ name. name.now) n.all.items;
      spare = min (vec_capacity n.all - length n.all.items)
          ((FEW - length n.all.items) + set_spare n.hashed);
    } };

    ghost invariant = { λ n. n.hashed.keys ≡ drop FEW n.all.items };
}

impl<'a> NameSet<'a> {
    pub(crate) fn new(alloc: Global) -> NameSet<'a>
        ensures { result.items ≡ [] }
    {
        NameSet {
            all: Vec::new(alloc),
            hashed: IndexSet::new(alloc),
        }
    }

    // Forgets all, and keeps the room.
    pub(crate) fn clear(&mut self)
        ensures items { self.new.items ≡ [] }
        ensures keeps { names_room self.old ≤ names_room self.new }
    {
        if self.all.len() > FEW {
            self.hashed.clear();
        }
        self.all.clear();
    }

    // The names.
    pub(crate) fn as_slice(&self) -> &[&'a [u8]]
        ensures { map (λ name. name.now) result.now ≡ self.now.items }
    {
        self.all.as_slice()
    }

    // The place of a name, which is put after the others where it isn't among them. Only a new
    // name may be refused, and only where there is no room for it.
    pub(crate) fn insert(&mut self, name: &'a [u8]) -> Result<usize, AllocError>
        ensures names { OnOk result (self.new.items
            ≡ insert_key bytes_eq self.old.items name.now) }
        ensures place { IfOk result (λ n. n
            ≡ position_or_len (bytes_eq name.now) self.old.items) }
        ensures within { IfOk result (λ n. n ≤ length self.old.items) }
        ensures full { OnErr result (names_room self.old
            < length (insert_key bytes_eq self.old.items name.now)) }
        ensures keeps { names_room self.old ≤ names_room self.new }
    {
        let count = self.all.len();
        if count < FEW {
            if let Some(place) = place_among(&self.all, name) {
                return Ok(place);
            }
            self.all.push(name)?;
            return Ok(count);
        }
        if let Some(place) = place_among(&self.all[..FEW], name) {
            return Ok(place);
        }
        if let Some(place) = self.hashed.get_index_of(&name) {
            return Ok(FEW + place);
        }
        self.all.reserve(1)?;
        self.hashed.insert(name)?;
        self.all.push_reserved(name);
        Ok(count)
    }
}

// The place of a name among these.
#[inline(always)]
fn place_among(names: &[&[u8]], name: &[u8]) -> Option<usize>
    ensures { FindsPlace (λ other. bytes_eq name.now other.now) names.now result }
{
    for i in 0..names.len() {
        if name == names[i] {
            return Some(i);
        }
    }
    None
}
