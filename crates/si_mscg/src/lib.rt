//! The most specific linear generalization of two lists of bindings, and what is left of each. A
//! substitution tree is split by it: the common part becomes a new inner node, and the rests go
//! below it. `Generalizations.antt` of si_legal says what it is; after Plotkin (1970).
//!
//! Both lists are walked from left to right by loops, so a deep term takes no stack.
#![tactic(auto)]

mod spans;
mod walk;

ghost use Rattle.std.specs.Prelude.{◌≡◌, IfOk};
ghost use Rattle.si_mscg.specs.Generalising.{Generalises, MayGeneralise, same_head_cell};
ghost use Rattle.si_mscg.specs.Walking.{TellsHeads};

use crate::walk::Walk;
pub use si_flat::{Bindings, Split};
use si_flat::{Cell, Pair};
use si_unify::{have_same_symbol, is_same_variable};
pub use spans::{set_spans, without_span};
use std::alloc::{AllocError, Global};

/// Splits the bindings of a node against new ones with the same left sides. Fresh indicators are
/// numbered from `next` on.
pub fn generalise(
    alloc: Global,
    node: &Bindings,
    new: &Bindings,
    next: u32,
) -> Result<Split, AllocError>
    requires { MayGeneralise next node.now new.now }
    ensures { IfOk result (Generalises next node.now new.now) }
{
    let mut walk = Walk::new(alloc, node.cells(), new.cells(), next)?;
    walk.leave_differing(node, new)?;
    walk.share_agreeing(node, new)?;
    walk.finish(alloc)
}

// Whether two right sides have the same head.
fn have_same_heads(pair: &Pair<'_>, other: &Pair<'_>) -> bool
    ensures { TellsHeads result pair.now other.now }
{
    let right = pair.right();
    let other_right = other.right();
    have_same_head(right[0], other_right[0])
}

/// Whether terms that begin with these cells have the same symbol or the same variable at the head.
pub fn have_same_head(one: Cell, other: Cell) -> bool
    ensures { result ≡ same_head_cell one other }
{
    have_same_symbol(one, other) || is_same_variable(one, other)
}
