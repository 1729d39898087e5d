// Names of variables by their numbers.
ghost use Rattle.std.specs.Prelude.{◌≡◌, ◌<◌, List, Some, length, map, slice_get};
ghost use Rattle.si_defs.specs.Bytes.{Bytes};

use si_term::Texts;

/// Names, of which each has its number from 0.
pub trait NameList {
    ghost names: { Self → List Bytes };

    /// The name with this number.
    fn name(&self, n: usize) -> &[u8]
        requires { n < length (names self.now) }
        ensures { slice_get (names self.now) n ≡ Some result.now };
}

impl NameList for Texts {
    ghost names = { λ names. names };

    fn name(&self, n: usize) -> &[u8] {
        self.at(n).as_bytes()
    }
}

impl<'a> NameList for &'a [&'a [u8]] {
    ghost names = { λ names. map (λ name. name.now) names.now };

    fn name(&self, n: usize) -> &[u8] {
        self[n]
    }
}
