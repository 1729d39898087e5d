// Whether literals have targets by their signs and symbols.
ghost use Rattle.std.specs.Prelude.{◌↔◌, ℕ, List, IsFalse, IsTrue, map, take};
ghost use Rattle.std.specs.List.{AllByRecursion};
ghost use Rattle.si_state.specs.Subsumption.{IsMap};
ghost use Rattle.si_term.specs.Meaning.{literal_of};
ghost use Rattle.si_screen.specs.Likeness.{IsLiteralLike, HasTarget, HasNoTarget};

use crate::likeness::is_like;
use si_term::{Literal, Literals};

// So many literals are looked at, so that long clauses aren't compared literal by literal.
const LOOKED_AT: usize = 8;

// Whether the target has the sign of the literal, and its symbols.
fn is_literal_like(literal: &Literal, target: &Literal) -> bool
    ensures { IsTrue result ↔ IsLiteralLike (literal_of literal.now) (literal_of target.now) }
{
    literal.positive == target.positive && is_like(&literal.atom, &target.atom)
}

// Whether a target of the literal is among these.
fn has_target(literal: &Literal, targets: &[Literal]) -> bool
    ensures { IsFalse result ↔ HasNoTarget targets.now literal.now }
{
    targets
        .iter()
        .any(|target| is_literal_like(literal, target))
}

// Whether each of these has one.
fn have_targets(literals: &[Literal], targets: &[Literal]) -> bool
    ensures { IsTrue result ↔ AllByRecursion (HasTarget targets.now) literals.now }
{
    literals.iter().all(|literal| has_target(literal, targets))
}

/// Whether each of the first eight literals of `c` has a target in `d` by its sign and its symbols.
/// If not, no map takes `c` to `d`. It takes no memory, and looks at each literal of `d` a fixed
/// number of times at most; no clause says so.
pub fn may_have_map(c: &Literals, d: &Literals) -> bool
    ensures targets { IsTrue result ↔ AllByRecursion (HasTarget d.now) (take 8 c.now) }
    ensures no_map { IsFalse result → (ns : List ℕ)
        → IsMap (map literal_of c.now) (map literal_of d.now) ns → ⊥ }
{
    let looked_at = &c.as_slice()[..LOOKED_AT.min(c.len())];
    have_targets(looked_at, d.as_slice())
}
