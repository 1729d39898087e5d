// Brackets that are open.
ghost use Rattle.std.specs.Prelude.{◌≡◌, ◌≤◌, ◌<◌, ◌↔◌, Some, [], ◌∷◌, length, IfSome, IsTrue};
ghost use Rattle.si_defs.specs.Grammar.{brackets_behind};
ghost use Rattle.si_defs.specs.Tokens.{mark};
ghost use Rattle.si_lex.specs.OpenBrackets.{bracket_of_digit};

use std::marker::Model;

// The digit of a round bracket.
const ROUND: u64 = 0;

// The digit of a square bracket.
const SQUARE: u64 = 1;

/// The round and square brackets that are open, the last one first. Contracts see them.
#[derive(Drop)]
pub(crate) struct OpenBrackets {
    // A 1, and after it a binary digit for each, the last one last.
    digits: u64,
}

impl Model for OpenBrackets {
    ghost use Rattle.std.specs.Prelude.{List, ◌≤◌, ◌<◌, ◌^◌};
    ghost use Rattle.si_defs.specs.Grammar.{Bracket};
    ghost use Rattle.si_lex.specs.OpenBrackets.{brackets_in};

    ghost Value = { List Bracket };

    ghost view = { λ b. brackets_in b.digits };

    ghost invariant = { λ b. (1 ≤ b.digits) × (b.digits < 2 ^ 64) };
}

impl OpenBrackets {
    /// None.
    pub(crate) fn none() -> OpenBrackets
        ensures { result ≡ [] }
    {
        OpenBrackets { digits: 1 }
    }

    /// Whether there are none.
    #[inline(always)]
    pub(crate) fn is_empty(&self) -> bool
        ensures { IsTrue result ↔ self.now ≡ [] }
    {
        self.digits == 1
    }

    /// Those after the mark that is this byte. Nothing where it closes another than the last one,
    /// or where more than 63 would be open.
    #[inline(always)]
    pub(crate) fn after(self, byte: u8) -> Option<OpenBrackets>
        ensures next { IfSome result (λ next. brackets_behind (mark byte) self ≡ Some next) }
        ensures few { IfSome result (λ next. length next ≤ 64) }
    {
        match byte {
            b'(' => self.opened(ROUND),
            b'[' => self.opened(SQUARE),
            b')' => self.closed(ROUND),
            b']' => self.closed(SQUARE),
            _ => Some(OpenBrackets {
                digits: self.digits,
            }),
        }
    }

    // These, and after them the one with this digit. Nothing where there is no room for it.
    #[inline(always)]
    fn opened(self, digit: u64) -> Option<OpenBrackets>
        requires { digit < 2 }
        ensures more { IfSome result (λ more. more ≡ bracket_of_digit digit ∷ self) }
        ensures few { IfSome result (λ more. length more ≤ 64) }
    {
        let twice = self.digits.checked_mul(2)?;
        Some(OpenBrackets {
            digits: twice + digit,
        })
    }

    // These without the last one. Nothing where that isn't the one with this digit.
    #[inline(always)]
    fn closed(self, digit: u64) -> Option<OpenBrackets>
        ensures last { IfSome result (λ others. self ≡ bracket_of_digit digit ∷ others) }
        ensures few { IfSome result (λ others. length others ≤ 64) }
    {
        if self.digits == 1 || self.digits % 2 != digit {
            return None;
        }
        Some(OpenBrackets {
            digits: self.digits / 2,
        })
    }
}
