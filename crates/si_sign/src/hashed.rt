// Keys by hashes of texts.
ghost use Rattle.std.specs.Prelude.{◌≡◌, List, ℕ, None, Some, IfOk, OnErr};
ghost use Rattle.si_sign.specs.Hashed.{text_hash, hashed_key, LeadsIfFree, LeadsNoMore};

use indexmap::IndexMap;
use std::alloc::{AllocError, Global};

/// A finite map from hashes of texts to keys. Texts with one hash share its key, so that whoever is
/// given a key has to look whether what is kept by it has the text.
#[derive(Drop)]
pub struct HashedKeys {
    keys: IndexMap<u32, u32>,
}

impl HashedKeys {
    /// The empty map.
    pub fn new(alloc: Global) -> HashedKeys
        ensures { (text : List ℕ) → hashed_key result text ≡ None }
    {
        HashedKeys {
            keys: IndexMap::new(alloc),
        }
    }

    /// The key to which the text's hash leads.
    pub fn get(&self, text: &[u8]) -> Option<usize>
        ensures { result ≡ hashed_key self.now text.now }
    {
        let key = self.keys.get(&hash_of(text))?;
        Some(*key as usize)
    }

    /// Where the text's hash leads to no key yet, it leads to this one, and the answer is true. At
    /// an error the map is as before.
    pub fn insert(&mut self, text: &[u8], key: usize) -> Result<bool, AllocError>
        ensures ok { IfOk result (λ free. LeadsIfFree free text.now key (hashed_key self.old)
            (hashed_key self.new)) }
        ensures err { OnErr result ((other : List ℕ) → hashed_key self.new other
            ≡ hashed_key self.old other) }
    {
        let Ok(key) = u32::try_from(key) else {
            return Err(AllocError);
        };
        let hash = hash_of(text);
        if self.keys.contains_key(&hash) {
            return Ok(false);
        }
        self.keys.insert(hash, key)?;
        Ok(true)
    }

    /// The text's hash doesn't lead to this key afterwards. Where it led to another, it still does.
    pub fn remove(&mut self, text: &[u8], key: usize)
        ensures { LeadsNoMore text.now key (hashed_key self.old) (hashed_key self.new) }
    {
        let hash = hash_of(text);
        let Some(kept) = self.keys.get(&hash) else {
            return;
        };
        if *kept as usize == key {
            self.keys.swap_remove(&hash);
        }
    }
}

/// The hash of a text: FNV-1a with 32 bits, by Fowler, Noll and Vo.
#[tactic(auto, unfolding(crate::specs::Hashed::text_hash))]
fn hash_of(text: &[u8]) -> u32
    ensures { result ≡ text_hash text.now }
{
    let mut hash: u32 = 2_166_136_261;
    for byte in text {
        hash = (hash ^ *byte as u32).wrapping_mul(16_777_619);
    }
    hash
}
