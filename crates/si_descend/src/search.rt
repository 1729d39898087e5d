// The search of a tree from a node downwards.
ghost use Rattle.std.specs.Prelude.{◌≡◌, ◌≤◌, [], IfOk, IsTrue, OnErr, OnOk, vec_capacity, ℕ};
ghost use Rattle.si_defs.specs.Substitutions.{Grows};
ghost use Rattle.si_descend.specs.Descending.{Freezes, HasSlotsForDescent, AreQueryCells};
ghost use Rattle.si_unify.specs.Solving.{AllowsSolving};
ghost use Rattle.si_descend.specs.Lending.{IsEnoughForTree};
ghost use Rattle.si_unify.specs.Rooms.{AreNoLongerThan, IsNoLessRoom};
ghost use Rattle.si_descend.specs.Pending.{LacksRoom};
ghost use Rattle.si_descend.specs.Searching.{IsReady, IsAboveNode, HasEntered, HasFound, NotesTaken};

use crate::pending::{Pending, next_open};
use crate::taken::Taken;
use crate::variants::is_renaming;
use si_defs::Relation;
use si_fit::fit;
use si_flat::{Cell, Flat};
use si_legal::Posting;
use si_trail::Trail;
use si_tree::{NodeId, Tree};
use si_unify::{Scratch, Slots};
use std::alloc::AllocError;

/// What is searched, and for what.
#[derive(Clone, Copy)]
pub(crate) struct Search<'a> {
    pub(crate) tree: &'a Tree,
    pub(crate) relation: Relation,
    pub(crate) query: &'a Flat,
    pub(crate) slots: Slots,
}

impl<'a> Search<'a> {
    /// A search by slots that are right for it.
    pub(crate) fn new(
        tree: &'a Tree,
        relation: Relation,
        query: &'a Flat,
        slots: Slots,
    ) -> Search<'a>
        requires query { AreQueryCells query.now }
        requires freezes { Freezes relation slots }
        requires room { HasSlotsForDescent slots tree.now query.now }
        ensures ready { IsReady result }
        ensures tree { result.tree ≡ tree.entry }
        ensures relation { result.relation ≡ relation }
        ensures query { result.query ≡ query.entry }
        ensures slots { result.slots ≡ slots }
    {
        // So the tree is known to be legal, and its nodes can be counted.
        tree.root();
        tree.counts();
        Search {
            tree,
            relation,
            query,
            slots,
        }
    }
}

/// Makes the bindings of a node fit, and tells whether it is open.
#[inline(always)]
pub(crate) fn enter<'a>(
    search: &Search<'a>,
    node: NodeId,
    scratch: &mut Scratch,
    trail: &mut Trail<&'a [Cell]>,
    taken: &mut Taken,
) -> Result<bool, AllocError>
    requires above { IsAboveNode search.now node trail.old taken.old }
    ensures enters { IfOk result (HasEntered search.now node trail.new.pairs) }
    ensures grows { Grows trail.old.pairs trail.new.pairs }
    ensures solving { AllowsSolving search.now.slots trail.new.pairs trail.new.slots }
    ensures slots { trail.new.slots ≡ trail.old.slots }
    ensures taken { IfOk result (λ is_open. IsTrue is_open
        → NotesTaken search.now.relation search.now.slots trail.new.pairs taken.new) }
    ensures taken_grows { Grows taken.old.pairs taken.new.pairs }
    ensures taken_slots { taken.new.slots ≡ taken.old.slots }
    ensures full { OnErr result ((n : ℕ) → IsEnoughForTree n search.now.tree.now search.now.slots
        trail.old.pairs scratch.old → ⊥) }
    ensures keeps { IsNoLessRoom scratch.old scratch.new }
    ensures within { OnOk result ((n : ℕ) → IsEnoughForTree n search.now.tree.now search.now.slots
        trail.old.pairs scratch.old → AreNoLongerThan n trail.new.pairs) }
{
    let known = trail.mark();
    if !fit(scratch, trail, &search.slots, search.tree.bindings(node))? {
        return Ok(false);
    }
    match search.relation {
        Relation::Variants => Ok(is_renaming(trail, &search.slots, known, taken)),
        Relation::Instances => Ok(true),
        Relation::Generalizations => Ok(true),
        Relation::Unifiable => Ok(true),
    }
}

/// Appends what is stored below a node or at it and stands in the relation, and counts the open
/// nodes there.
///
/// Bindings may be left after the old ones and, where memory runs out, postings and pending nodes
/// too.
pub(crate) fn visit_all<'a>(
    search: &Search<'a>,
    node: NodeId,
    scratch: &mut Scratch,
    trail: &mut Trail<&'a [Cell]>,
    taken: &mut Taken,
    pending: &mut Vec<Pending>,
    out: &mut Vec<Posting>,
) -> Result<u64, AllocError>
    requires above { IsAboveNode search.now node trail.old taken.old }
    requires empty { pending.old.items ≡ [] }
    ensures found { IfOk result (HasFound search.now node out.old.items out.new.items) }
    ensures grows { Grows trail.old.pairs trail.new.pairs }
    ensures slots { trail.new.slots ≡ trail.old.slots }
    ensures table { taken.new.slots ≡ taken.old.slots }
    ensures out_grows { Grows out.old.items out.new.items }
    ensures full { OnErr result (LacksRoom search.now node trail.old.pairs scratch.old pending.old
        out.old) }
    ensures keeps { IsNoLessRoom scratch.old scratch.new }
    ensures list_room { vec_capacity pending.old ≤ vec_capacity pending.new }
    ensures room { vec_capacity out.old ≤ vec_capacity out.new }
{
    pending.push(Pending::at(node, trail, taken))?;
    let mut passed: u64 = 0;
    while let Some(open) = next_open(search, scratch, trail, taken, pending)? {
        passed += 1;
        search.tree.postings(open).append_to(out)?;
    }
    Ok(passed)
}
