// Whole subtrees that are open: they are walked, and no binding is solved.
ghost use Rattle.std.specs.Prelude.{◌≡◌, IsTrue, false};
ghost use Rattle.si_tree.specs.Reading.{IsNode};
ghost use Rattle.si_unify.specs.Solving.{AllowsSolving};
ghost use Rattle.si_descend.specs.Searching.{AreOpenBelow, HasComeTo, IsOpenAt, IsReady};
ghost use Rattle.si_descend.specs.Subtrees.{wants_symbol};

use crate::ends::{Ends, are_clear, find_ends_below};
use crate::heads::Wanted;
use crate::search::Search;
use si_flat::Cell;
use si_trail::Trail;
use si_tree::NodeId;

/// Whether all nodes below an open node are known to be open: instances or unifiable terms are
/// sought, and all open indicators stand for different variables of which nothing else is known.
#[inline(always)]
pub(crate) fn is_open_below<'a>(
    search: &Search<'a>,
    node: NodeId,
    wanted: Option<Wanted>,
    trail: &Trail<&'a [Cell]>,
) -> bool
    requires node { IsNode search.now.tree.now node }
    requires ready { IsReady search.now }
    requires solving { AllowsSolving search.now.slots trail.now.pairs trail.now.slots }
    requires there { HasComeTo search.now (Some node) trail.now.pairs }
    requires opened { IsOpenAt search.now node }
    ensures { IsTrue result → AreOpenBelow search.now node }
{
    if search.slots.freeze_query || has_symbol(wanted) {
        return false;
    }
    has_clear_ends(search, node, trail)
}

// Whether the ends of the open indicators are known, and clear. It is a call of its own, so that
// memory for ends is made ready only where they are looked for.
#[inline(never)]
fn has_clear_ends<'a>(search: &Search<'a>, node: NodeId, trail: &Trail<&'a [Cell]>) -> bool
    requires node { IsNode search.now.tree.now node }
    requires ready { IsReady search.now }
    requires solving { AllowsSolving search.now.slots trail.now.pairs trail.now.slots }
    requires there { HasComeTo search.now (Some node) trail.now.pairs }
    requires opened { IsOpenAt search.now node }
    requires unfrozen { search.now.slots.freeze_query ≡ false }
    ensures { IsTrue result → AreOpenBelow search.now node }
{
    let mut ends = Ends::new();
    if !find_ends_below(search, node, trail, &mut ends) {
        return false;
    }
    are_clear(trail, &search.slots, &ends)
}

// Whether a term with a symbol at its head is wanted. The split then ends at no variable, so no
// further look is taken.
fn has_symbol(wanted: Option<Wanted>) -> bool
    ensures { result ≡ wants_symbol wanted }
{
    match wanted {
        Some(asked) => match asked.first {
            Cell::App { .. } => true,
            _ => false,
        },
        None => false,
    }
}
