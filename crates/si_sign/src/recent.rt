// Keys that were found of late.
ghost use Rattle.std.specs.Prelude.{◌<◌};

use std::marker::Model;

// So many keys are noted. Of few places too many texts would share one.
const PLACES: usize = 128;

/// The key that was found last for the texts that share a place, by their length and ends. Nothing
/// is promised of it: who takes it looks whether the symbol has that key still.
#[derive(Drop)]
pub struct Recent {
    keys: [usize; PLACES],
}

impl Model for Recent {
    ghost Value = { Unit {0} };

    ghost view = { λ r. tt };
}

impl Recent {
    /// Key 0 at each place.
    pub fn new() -> Recent {
        Recent { keys: [0; PLACES] }
    }

    /// A key that the text may have.
    pub fn likely(&self, text: &[u8]) -> usize {
        self.keys[place_of(text)]
    }

    /// Notes the key of a text.
    pub fn note(&mut self, text: &[u8], key: usize) {
        self.keys[place_of(text)] = key;
    }
}

// The place of a text, by its length and its bytes at both ends.
fn place_of(text: &[u8]) -> usize
    ensures { result < PLACES }
{
    if text.is_empty() {
        return 0;
    }
    let (first, last) = (text[0], text[text.len() - 1]);
    (first as usize + 8 * last as usize + 3 * (text.len() % PLACES)) % PLACES
}
