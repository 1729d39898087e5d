// Keys by texts.
ghost use Rattle.std.specs.Prelude.{◌≡◌, List, ℕ, Some, None, OnOk, OnErr};
ghost use Rattle.si_sign.specs.Keys.{text_key, HasAt};

use indexmap::IndexMap;
use si_term::Text;
use std::alloc::{AllocError, Global};

/// A finite map from texts to keys.
pub struct TextKeys {
    keys: IndexMap<Text, usize>,
}

// It does what a derived one would, and is quicker to check (docs/PROVING.md, "Minutes").
impl Drop for TextKeys {
    fn drop(self) {
        let TextKeys { keys: _keys } = self;
    }
}

impl TextKeys {
    /// The empty map.
    pub fn new(alloc: Global) -> TextKeys
        ensures { (text : List ℕ) → text_key result text ≡ None }
    {
        TextKeys {
            keys: IndexMap::new(alloc),
        }
    }

    /// The key of the text.
    pub fn get(&self, text: &[u8]) -> Option<usize>
        ensures { result ≡ text_key self.now text.now }
    {
        self.keys.get(text).copied()
    }

    /// Gives the text this key. At an error the map is as before.
    pub fn insert(&mut self, text: Text, key: usize) -> Result<(), AllocError>
        ensures ok { OnOk result (HasAt text (Some key) (text_key self.old) (text_key self.new)) }
        ensures err { OnErr result ((other : List ℕ) → text_key self.new other
            ≡ text_key self.old other) }
    {
        self.keys.insert(text, key)?;
        Ok(())
    }

    /// Takes the text out, and answers its key.
    pub fn remove(&mut self, text: &[u8]) -> Option<usize>
        ensures key { result ≡ text_key self.old text.now }
        ensures gone { HasAt text.now None (text_key self.old) (text_key self.new) }
    {
        self.keys.swap_remove(text)
    }
}
