// Which children of a node are tried: all in order or, where these are many, those whose heads can
// meet what is wanted.
ghost use Rattle.std.specs.Prelude.{◌≡◌, ◌≤◌, ◌<◌, ◌^◌, IfSome, IfNone, Some, ℕ, length};
ghost use Rattle.si_tree.specs.Reading.{IsNode};
ghost use Rattle.si_descend.specs.declared.attempts.Attempts.TheVariants.{InOrder, ByHeads};
ghost use Rattle.si_descend.specs.Attempts.{head_at, wanted_of, place_count, AreHeadsFor, AreAttempts, IsTried};
ghost use Rattle.si_descend.specs.Heads.{RulesOut, SplitsBy};
ghost use Rattle.si_descend.specs.Searching.{IsReady};

use crate::heads::{Wanted, is_unwanted, keeps_variables};
use crate::search::Search;
use si_defs::Relation;
use si_flat::Cell;
use si_tree::{Head, NodeId, head_of};
use si_unify::Slots;

// So few children are tried in order.
const FEW_CHILDREN: usize = 16;

/// Which children of a node are tried.
#[derive(Clone, Copy)]
pub(crate) enum Attempts<'a> {
    /// All in order.
    InOrder(Siblings<'a>),
    /// Those that have certain heads.
    ByHeads(Lookup),
}

impl Attempts<'_> {
    /// The number of places.
    #[inline(always)]
    pub(crate) fn end(self) -> usize
        ensures { result ≡ place_count self.entry }
    {
        match self {
            Attempts::InOrder(siblings) => siblings.children.len(),
            Attempts::ByHeads(heads) => heads.end,
        }
    }
}

/// All children of a node, their heads in the same order, and what is wanted of them.
#[derive(Clone, Copy)]
pub(crate) struct Siblings<'a> {
    children: &'a [NodeId],
    heads: &'a [Head],
    wanted: Option<Wanted>,
}

/// The heads that can meet what is wanted: first that of a term which begins with its first cell,
/// if it has one, and then the variables of an entry.
#[derive(Clone, Copy)]
pub(crate) struct Lookup {
    wanted: Wanted,
    // The number of these heads.
    end: usize,
}

/// What is tried below a node. Where it has many children, and more than there are heads that can
/// meet what is wanted, they are looked up by these heads.
#[inline(always)]
pub(crate) fn attempts_at<'a>(
    search: &Search<'a>,
    node: NodeId,
    wanted: Option<Wanted>,
) -> Attempts<'a>
    requires node { IsNode search.now.tree.now node }
    requires ready { IsReady search.now }
    requires splits { SplitsBy search.now node wanted }
    ensures wanted { wanted_of result ≡ wanted }
    ensures attempts { AreAttempts search.now node result }
{
    let children = search.tree.children(node);
    let heads = search.tree.heads(node);
    let all = Attempts::InOrder(Siblings {
        children,
        heads,
        wanted,
    });
    if children.len() <= FEW_CHILDREN {
        return all;
    }
    let Some(asked) = wanted else {
        return all;
    };
    let vars = search.tree.head_vars(node);
    let Some(end) = heads_for(search.relation, &search.slots, vars, asked.first) else {
        return all;
    };
    if children.len() <= end {
        return all;
    }
    Attempts::ByHeads(Lookup { wanted: asked, end })
}

// How many heads can meet a term that begins with this cell, if not all can: its own, and where
// these can be bound, the variables of an entry with numbers below this one.
#[inline(always)]
fn heads_for(relation: Relation, slots: &Slots, vars: usize, first: Cell) -> Option<usize>
    requires { vars ≤ 2 ^ 32 }
    ensures { IfSome result (AreHeadsFor relation slots.now vars first) }
{
    let all = 1 + vars;
    match first {
        Cell::App { .. } => Some(if keeps_variables(relation, slots) {
            1
        } else {
            all
        }),
        Cell::Entry(_) => if slots.freeze_entry { Some(1) } else { None },
        Cell::Query(_) => if slots.freeze_query { Some(all) } else { None },
        Cell::Ind(_) => None,
    }
}

/// The child at a place, if there is one there that can be open.
#[inline(always)]
pub(crate) fn child_at(
    search: &Search<'_>,
    node: NodeId,
    attempts: Attempts<'_>,
    place: usize,
) -> Option<NodeId>
    requires node { IsNode search.now.tree.now node }
    requires ready { IsReady search.now }
    requires attempts { AreAttempts search.now node attempts }
    requires within { place < place_count attempts }
    ensures some { IfSome result (IsTried search.now node attempts.entry place) }
    ensures none { IfNone result ((child : ℕ)
        → IsTried search.now node attempts.entry place child
        → RulesOut search.now (wanted_of attempts.entry) child) }
{
    match attempts {
        Attempts::InOrder(siblings) => child_in_order(search, node, siblings, place),
        Attempts::ByHeads(heads) => child_by_head(search, node, heads, place),
    }
}

// The same where the children are tried in order.
#[inline(always)]
fn child_in_order(
    search: &Search<'_>,
    node: NodeId,
    siblings: Siblings<'_>,
    place: usize,
) -> Option<NodeId>
    requires node { IsNode search.now.tree.now node }
    requires attempts { AreAttempts search.now node (InOrder siblings) }
    requires within { place < length siblings.children.now }
    ensures some { IfSome result (IsTried search.now node (InOrder siblings.entry) place) }
    ensures none { IfNone result ((child : ℕ)
        → IsTried search.now node (InOrder siblings.entry) place child
        → RulesOut search.now siblings.entry.wanted child) }
{
    if is_unwanted(search, siblings.wanted, siblings.heads[place]) {
        return None;
    }
    Some(siblings.children[place])
}

// The same where they are looked up by their heads: the one that has the head at this place.
#[inline(always)]
fn child_by_head(search: &Search<'_>, node: NodeId, heads: Lookup, place: usize) -> Option<NodeId>
    requires node { IsNode search.now.tree.now node }
    requires ready { IsReady search.now }
    requires attempts { AreAttempts search.now node (ByHeads heads) }
    requires within { place < heads.end }
    ensures some { IfSome result (IsTried search.now node (ByHeads heads) place) }
    ensures none { IfNone result ((child : ℕ)
        → IsTried search.now node (ByHeads heads) place child
        → RulesOut search.now (Some heads.wanted) child) }
{
    // A variable of the query has no head of its own, which would be the first.
    let Some(head) = head_at(heads.wanted.first, place) else {
        return None;
    };
    search.tree.child(node, head)
}

// The head at a place: that of a term which begins with this cell, and then the variables.
fn head_at(first: Cell, place: usize) -> Option<Head>
    requires { place ≤ 2 ^ 32 }
    ensures { result ≡ head_at first place }
{
    if place == 0 {
        return head_of(first);
    }
    Some(Head::Var((place - 1) as u32))
}
