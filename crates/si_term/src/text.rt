// Texts.
ghost use Rattle.std.specs.Prelude.{◌≡◌, ◌≤◌, IfOk, bytes_eq, length};
ghost use Rattle.std.proofs.Common.{ap};
ghost use Rattle.std.specs.Cmp.{partial_equiv_from_equiv};
ghost use Rattle.std.specs.Cmp.Lexicographic.{bytes_decides, nat_list_eq_equiv};
ghost use Rattle.std.specs.Hash as fed;

use indexmap::Equivalent;
use smallvec::SmallVec;
use std::alloc::{AllocError, Global};
use std::hash::{Hash, Hasher};
use std::marker::Model;

/// A text of bytes, in 16. A short one takes no memory of its own, and most others take one block.
pub struct Text {
    bytes: Bytes,
}

// It does what a derived one would. But whoever owns a text calls it, and so the checker of borrows
// needn't go through all parts of a text at each place where one is dropped.
impl Drop for Text {
    fn drop(self) {
        let Text { bytes: _bytes } = self;
    }
}

/// Where the bytes of a text are.
#[derive(Drop)]
enum Bytes {
    Short(Short),
    /// The one role of TPTP that is longer, which provers give to most clauses that they derive.
    NegatedConjecture,
    Long(Box<SmallVec<u8, 24>>),
}

// That role.
const NEGATED_CONJECTURE: &[u8] = b"negated_conjecture";

/// At most 14 bytes, so that a text takes 16.
#[derive(Drop)]
struct Short {
    len: u8,
    room: [u8; 14],
}

impl Model for Short {
    ghost use Rattle.std.specs.Prelude.{◌≤◌, List, ℕ, take};

    ghost Value = { List ℕ };

    ghost view = { λ s. take s.len s.room };

    ghost invariant = { λ s. s.len ≤ 14 };
}

impl Short {
    /// The most bytes.
    const MOST: usize = 14;

    /// A copy of the bytes.
    fn from_bytes(bytes: &[u8]) -> Short
        requires { length bytes.now ≤ 14 }
        ensures { result ≡ bytes.now }
    {
        let mut room = [0; Short::MOST];
        room[..bytes.len()].copy_from_slice(bytes);
        Short {
            len: bytes.len() as u8,
            room,
        }
    }

    /// The bytes.
    fn as_bytes(&self) -> &[u8]
        ensures { result.now ≡ self.now }
    {
        &self.room[..self.len as usize]
    }
}

impl Model for Text {
    ghost use Rattle.std.specs.Prelude.{List, ℕ};

    ghost Value = { List ℕ };

    ghost use Rattle.si_term.specs.Texts.{bytes_of};

    ghost view = { λ t. bytes_of t.bytes };
}

impl Text {
    /// A copy of the bytes.
    #[inline(always)]
    pub fn from_bytes(alloc: Global, bytes: &[u8]) -> Result<Text, AllocError>
        ensures { IfOk result (λ t. t ≡ bytes.now) }
    {
        if bytes.len() <= Short::MOST {
            return Ok(Text {
                bytes: Bytes::Short(Short::from_bytes(bytes)),
            });
        }
        Text::longer(alloc, bytes)
    }

    // A copy of bytes that aren't short. Except for the role `negated_conjecture`, few texts are
    // so long, so this isn't inlined.
    #[inline(never)]
    fn longer(alloc: Global, bytes: &[u8]) -> Result<Text, AllocError>
        ensures { IfOk result (λ t. t ≡ bytes.now) }
    {
        if bytes == NEGATED_CONJECTURE {
            return Ok(Text {
                bytes: Bytes::NegatedConjecture,
            });
        }
        let long = SmallVec::from_slice(alloc, bytes)?;
        Ok(Text {
            bytes: Bytes::Long(Box::new(alloc, long)?),
        })
    }

    /// The bytes.
    pub fn as_bytes(&self) -> &[u8]
        ensures { result.now ≡ self.now }
    {
        match &self.bytes {
            Bytes::Short(short) => short.as_bytes(),
            Bytes::NegatedConjecture => NEGATED_CONJECTURE,
            Bytes::Long(long) => long.as_slice(),
        }
    }
}

impl PartialEq for Text {
    ghost eq = { bytes_eq };

    ghost laws = { partial_equiv_from_equiv nat_list_eq_equiv };

    fn eq(&self, other: &Text) -> bool {
        self.as_bytes() == other.as_bytes()
    }
}

impl Eq for Text {
    ghost laws = { nat_list_eq_equiv };
}

impl Hash for Text {
    ghost hash_input = { fed.slice fed.u8 };

    ghost respects_eq = { λ x y h. ap (fed.slice fed.u8) ((bytes_decides x y).0 h) };

    fn hash<H: Hasher>(&self, state: &mut H) {
        self.as_bytes().hash(state);
    }
}

/// A map from texts is asked by bytes, without a copy of them.
impl Equivalent<Text> for &[u8] {
    ghost equivalent = { λ q k. bytes_eq q.now k };

    ghost respects_hash = { λ q k h. ap (fed.slice fed.u8) ((bytes_decides q.now k).0 h) };

    ghost respects_eq = { λ q x y. nat_list_eq_equiv.congr q.now x y };

    fn equivalent(&self, key: &Text) -> bool {
        *self == key.as_bytes()
    }
}
