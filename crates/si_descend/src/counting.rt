// The search of `search.rt`, but that it counts answers and copies no posting.
ghost use Rattle.std.specs.Prelude.{◌≡◌, [], IfOk};
ghost use Rattle.si_descend.specs.Counting.{HasCounted};
ghost use Rattle.si_descend.specs.Searching.{IsAboveNode};

use crate::pending::{Pending, next_open};
use crate::search::Search;
use crate::taken::Taken;
use si_flat::Cell;
use si_trail::Trail;
use si_tree::NodeId;
use si_unify::Scratch;
use std::alloc::AllocError;

/// What a search passed and found.
#[derive(Clone, Copy, Debug, PartialEq, Eq)]
pub struct Counted {
    /// How many nodes are open.
    pub passed: u64,
    /// How many postings stand in the relation, or the greatest number where there are more.
    pub answers: u64,
}

impl Counted {
    /// Nothing was passed or found.
    pub(crate) const NONE: Counted = Counted {
        passed: 0,
        answers: 0,
    };
}

/// Counts the open nodes below a node or at it, and the answers there.
///
/// Bindings may be left after the old ones and, where memory runs out, pending nodes too.
pub(crate) fn count_all<'a>(
    search: &Search<'a>,
    node: NodeId,
    scratch: &mut Scratch,
    trail: &mut Trail<&'a [Cell]>,
    taken: &mut Taken,
    pending: &mut Vec<Pending>,
) -> Result<Counted, AllocError>
    requires above { IsAboveNode search.now node trail.old taken.old }
    requires empty { pending.old.items ≡ [] }
    ensures { IfOk result (HasCounted search.now node) }
{
    pending.push(Pending::at(node, trail, taken))?;
    let mut passed: u64 = 0;
    let mut answers: u64 = 0;
    while let Some(open) = next_open(search, scratch, trail, taken, pending)? {
        passed += 1;
        let own = search.tree.postings(open).len();
        answers = answers.saturating_add(own as u64);
    }
    Ok(Counted { passed, answers })
}
