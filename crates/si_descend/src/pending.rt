// The nodes that a search is still to visit, and the way to the next open one.
ghost use Rattle.std.specs.Prelude.{◌≡◌, ◌+◌, ◌++◌, ◌≤◌, ◌<◌, IfOk, OnErr, OnOk, length, take, vec_capacity, vec_len, List, ⊤, ℕ};
ghost use Rattle.si_defs.specs.Substitutions.{Grows};
ghost use Rattle.si_tree.specs.Reading.{AtNode, IsNode, children_of};
ghost use Rattle.si_unify.specs.Rooms.{AreNoLongerThan, IsNoLessRoom};
ghost use Rattle.si_descend.specs.Attempts.{wanted_of, AreAttempts};
ghost use Rattle.si_descend.specs.Heads.{IsWanted};
ghost use Rattle.si_descend.specs.Lending.{IsEnoughForTree};
ghost use Rattle.si_descend.specs.Pending.{marks_of, pending_at, with_marks, ArePending, HasStepped, HasTurnedTo, IsDue, LacksTurn, PutsDue};
ghost use Rattle.si_unify.specs.Solving.{Pairs};
ghost use Rattle.si_descend.specs.Searching.{IsAtNode, IsOpenAt, IsReady};

use crate::attempts::{Attempts, attempts_at, child_at};
use crate::heads::asked_of;
use crate::search::{Search, enter};
use crate::subtrees::is_open_below;
use crate::taken::Taken;
use si_flat::Cell;
use si_trail::Trail;
use si_tree::NodeId;
use si_unify::Scratch;
use std::alloc::AllocError;

/// A node that is still to be visited, and how much was bound above it.
#[derive(Clone, Copy)]
pub struct Pending {
    pub(crate) node: NodeId,
    /// Whether all nodes below it and at it are known to be open.
    pub(crate) whole: bool,
    /// How many bindings the nodes above it left.
    pub(crate) mark: usize,
    /// How many variables of the query were taken then.
    pub(crate) taken_mark: usize,
}

impl Pending {
    /// A node that is to be visited below those whose bindings the trails hold.
    #[inline(always)]
    pub(crate) fn at(node: NodeId, trail: &Trail<&[Cell]>, taken: &Taken) -> Pending
        ensures { result ≡ pending_at node trail.now taken.now }
    {
        Pending {
            node,
            whole: false,
            mark: trail.mark(),
            taken_mark: taken.mark(),
        }
    }
}

/// Visits pending nodes, the last first, up to one that is open, and answers that. It answers none
/// where none is, and then no node is pending. Where memory runs out, some children may be.
#[inline(always)]
pub(crate) fn next_open<'a>(
    search: &Search<'a>,
    scratch: &mut Scratch,
    trail: &mut Trail<&'a [Cell]>,
    taken: &mut Taken,
    pending: &mut Vec<Pending>,
) -> Result<Option<NodeId>, AllocError>
    requires ready { IsReady search.now }
    requires waiting { (base : Pairs) × (first : List (ℕ × ⊤))
        × ArePending search.now base first trail.old taken.old pending.old.items }
    ensures turns { IfOk result (HasTurnedTo search.now trail.new taken.new
        pending.old.items pending.new.items) }
    ensures waiting { OnOk result ((base : Pairs) (first : List (ℕ × ⊤))
        → ArePending search.now base first trail.old taken.old pending.old.items
        → ArePending search.now base first trail.new taken.new pending.new.items) }
    ensures grows { (base : Pairs) (first : List (ℕ × ⊤))
        → ArePending search.now base first trail.old taken.old pending.old.items
        → Grows base trail.new.pairs }
    ensures slots { trail.new.slots ≡ trail.old.slots }
    ensures taken_slots { taken.new.slots ≡ taken.old.slots }
    ensures full { OnErr result (LacksTurn search.now trail.old.pairs scratch.old pending.old) }
    ensures keeps { IsNoLessRoom scratch.old scratch.new }
    ensures within { OnOk result ((n : ℕ) → IsEnoughForTree n search.now.tree.now search.now.slots
        trail.old.pairs scratch.old → AreNoLongerThan n trail.new.pairs) }
    ensures room { vec_capacity pending.old ≤ vec_capacity pending.new }
{
    while let Some(next) = pending.pop() {
        let node = next.node;
        if step(search, next, scratch, trail, taken, pending)? {
            return Ok(Some(node));
        }
    }
    Ok(None)
}

// Visits a node that was pending, and tells whether it is open. Where it is, those of its children
// that can be open are pending afterwards, after all that were.
//
// The trails are first brought back to what they were above the node, but where all nodes below it
// are known to be open: nothing is bound there, and they stay. Where memory runs out, some of the
// children may be pending.
#[inline(always)]
fn step<'a>(
    search: &Search<'a>,
    next: Pending,
    scratch: &mut Scratch,
    trail: &mut Trail<&'a [Cell]>,
    taken: &mut Taken,
    pending: &mut Vec<Pending>,
) -> Result<bool, AllocError>
    requires ready { IsReady search.now }
    requires due { IsDue search.now trail.old taken.old next }
    ensures steps { IfOk result (HasStepped search.now next trail.new taken.new
        pending.old.items pending.new.items) }
    ensures grows { Grows (take next.mark trail.old.pairs) trail.new.pairs }
    ensures slots { trail.new.slots ≡ trail.old.slots }
    ensures taken_grows { Grows (take next.taken_mark taken.old.pairs) taken.new.pairs }
    ensures taken_slots { taken.new.slots ≡ taken.old.slots }
    ensures full { OnErr result (AtNode search.now.tree.now next.node (λ node. (n : ℕ)
        → IsEnoughForTree n search.now.tree.now search.now.slots trail.old.pairs scratch.old
        → vec_len pending.old + length (children_of node.content) ≤ vec_capacity pending.old
        → ⊥)) }
    ensures keeps { IsNoLessRoom scratch.old scratch.new }
    ensures within { OnOk result ((n : ℕ) → IsEnoughForTree n search.now.tree.now search.now.slots
        trail.old.pairs scratch.old → AreNoLongerThan n trail.new.pairs) }
    ensures room { vec_capacity pending.old ≤ vec_capacity pending.new }
{
    if next.whole {
        push_all(search, next, pending)?;
        return Ok(true);
    }
    trail.undo(next.mark);
    taken.undo(next.taken_mark);
    if !enter(search, next.node, scratch, trail, taken)? {
        return Ok(false);
    }
    push_open(search, next.node, trail, taken, pending)?;
    Ok(true)
}

// Puts the children of an open node into the list, but for some that are closed. Its bindings are
// solved.
#[inline(always)]
fn push_open<'a>(
    search: &Search<'a>,
    node: NodeId,
    trail: &Trail<&'a [Cell]>,
    taken: &Taken,
    pending: &mut Vec<Pending>,
) -> Result<(), AllocError>
    requires there { IsAtNode search.now node trail.now taken.now }
    requires opened { IsOpenAt search.now node }
    ensures leaves { OnOk result (PutsDue search.now (pending_at node trail.now taken.now)
        trail.now taken.now pending.old.items pending.new.items) }
    ensures full { OnErr result (AtNode search.now.tree.now node (λ n. vec_capacity pending.old
        < vec_len pending.old + length (children_of n.content))) }
    ensures room { vec_capacity pending.old ≤ vec_capacity pending.new }
{
    let Some(_) = search.tree.split(node) else {
        return Ok(());
    };
    let wanted = asked_of(search, node, trail);
    if is_open_below(search, node, wanted, trail) {
        let here = Pending {
            whole: true,
            ..Pending::at(node, trail, taken)
        };
        return push_all(search, here, pending);
    }
    let attempts = attempts_at(search, node, wanted);
    // One call for each way: inlined, its loop needn't ask at each place which way it is.
    match attempts {
        Attempts::InOrder(_) => push_tried(search, node, attempts, trail, taken, pending),
        Attempts::ByHeads(_) => push_tried(search, node, attempts, trail, taken, pending),
    }
}

// Puts all children of a node into the list, with its marks.
#[inline(always)]
fn push_all(
    search: &Search<'_>,
    here: Pending,
    pending: &mut Vec<Pending>,
) -> Result<(), AllocError>
    requires { IsNode search.now.tree.now here.node }
    ensures pushes { OnOk result (AtNode search.now.tree.now here.node (λ n.
        pending.new.items ≡ pending.old.items
        ++ with_marks (marks_of here) (children_of n.content))) }
    ensures full { OnErr result (AtNode search.now.tree.now here.node (λ n. vec_capacity pending.old
        < vec_len pending.old + length (children_of n.content))) }
    ensures room { vec_capacity pending.old ≤ vec_capacity pending.new }
{
    let children = search.tree.children(here.node);
    pending.reserve(children.len())?;
    for child in children {
        pending.push_reserved(Pending {
            node: *child,
            ..here
        });
    }
    Ok(())
}

// Puts those that are tried, and can be open, into the list.
#[inline(always)]
fn push_tried<'a>(
    search: &Search<'a>,
    node: NodeId,
    attempts: Attempts<'a>,
    trail: &Trail<&'a [Cell]>,
    taken: &Taken,
    pending: &mut Vec<Pending>,
) -> Result<(), AllocError>
    requires there { IsAtNode search.now node trail.now taken.now }
    requires wanted { IsWanted search.now node trail.now.pairs (wanted_of attempts) }
    requires attempts { AreAttempts search.now node attempts }
    ensures leaves { OnOk result (PutsDue search.now (pending_at node trail.now taken.now)
        trail.now taken.now pending.old.items pending.new.items) }
    ensures full { OnErr result (AtNode search.now.tree.now node (λ n. vec_capacity pending.old
        < vec_len pending.old + length (children_of n.content))) }
    ensures room { vec_capacity pending.old ≤ vec_capacity pending.new }
{
    let here = Pending::at(node, trail, taken);
    for place in 0..attempts.end() {
        let Some(child) = child_at(search, node, attempts, place) else {
            continue;
        };
        pending.push(Pending {
            node: child,
            ..here
        })?;
    }
    Ok(())
}
