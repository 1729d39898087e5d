// Numbers for symbols.
ghost use Rattle.std.specs.Prelude.{ℕ, IfSome, IfNone};
ghost use Rattle.si_defs.specs.Symbols.{Symbol, Numbering, IsNumbering};
ghost use Rattle.si_defs.specs.Substitutions.{IsAmong};
ghost use Rattle.si_term.specs.Terms.{symbol_of};

use crate::term::Sym;

/// Gives symbols numbers: even ones below 2,147,483,648, and no two symbols the same.
pub trait SymTable {
    /// The symbols with their numbers.
    ghost pairs: { Self → Numbering };

    /// The number of the symbol, if it has one.
    fn id_of(&self, sym: &Sym) -> Option<u32>
        ensures found { IfSome result (λ n. IsAmong (pairs self.now) (symbol_of sym.now, n)) }
        ensures none { IfNone result
            ((n : ℕ) → IsAmong (pairs self.now) (symbol_of sym.now, n) → ⊥) }
        ensures numbering { IsNumbering (pairs self.now) };

    /// The symbol with the number, if there is one.
    fn sym_at(&self, id: u32) -> Option<&Sym>
        ensures found { IfSome result (λ s. IsAmong (pairs self.now) (symbol_of s.now, id)) }
        ensures none { IfNone result ((s : Symbol) → IsAmong (pairs self.now) (s, id) → ⊥) }
        ensures numbering { IsNumbering (pairs self.now) };
}
