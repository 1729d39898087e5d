// The calls: a descent from a node, and one of the whole tree.
ghost use Rattle.std.specs.Prelude.{◌≡◌, ◌↔◌, ◌≤◌, ◌^◌, [], IsTrue, IfOk, OnErr, length, vec_capacity, ℕ};
ghost use Rattle.si_defs.specs.Substitutions.{Grows};
ghost use Rattle.si_trail.specs.Trails.{HasDistinctSlots};
ghost use Rattle.si_flat.specs.Cells.{IsWhole};
ghost use Rattle.si_tree.specs.Reading.{IsNode};
ghost use Rattle.si_descend.specs.Answers.{HasDescended, Retrieves};
ghost use Rattle.si_descend.specs.Counting.{CountsAnswers, HasCounted};
ghost use Rattle.si_unify.specs.Rooms.{IsNoLessRoom};
ghost use Rattle.si_descend.specs.Lending.{HasRoomForAnswers, IsEnoughForTree, IsTableFor};
ghost use Rattle.si_descend.specs.Descending.{Freezes, AreQueryCells, MayDescend, ShowsAbove};
ghost use Rattle.si_unify.specs.Solving.{AllowsSolving};
ghost use Rattle.si_legal.specs.Counts.{node_count};
ghost use Rattle.si_descend.specs.Pending.{LacksRoom};
ghost use Rattle.si_descend.specs.Searching.{IsReady, KeepsApart, NotesTaken, HasFound};

use crate::counting::{Counted, count_all};
use crate::memory::SearchMemory;
use crate::pending::Pending;
use crate::search::{Search, visit_all};
use crate::taken::Taken;
use crate::variants::is_renaming;
use si_defs::Relation;
use si_flat::{Cell, Flat};
use si_legal::Posting;
use si_trail::Trail;
use si_tree::{NodeId, Tree};
use si_unify::{Scratch, Slots};
use std::alloc::{AllocError, Global};

/// Appends the postings of the terms that are stored below a node or at it and stand in the
/// relation to the query. It answers how many nodes are open there.
///
/// On the trail the bindings of the nodes above are solved, with indicator 0 for the query. It is
/// as before in the end. At an error the postings are as before too.
pub fn descend<'a>(
    alloc: Global,
    tree: &'a Tree,
    node: NodeId,
    relation: Relation,
    query: &'a Flat,
    slots: &Slots,
    trail: &mut Trail<&'a [Cell]>,
    out: &mut Vec<Posting>,
) -> Result<u64, AllocError>
    requires { MayDescend tree.now node relation query.now slots.now trail.old }
    ensures { HasDescended tree.now node relation query.now result trail.old trail.new
        out.old.items out.new.items }
{
    let mut pending = Vec::new(alloc);
    descend_over(
        alloc,
        tree,
        node,
        relation,
        query,
        slots,
        trail,
        &mut pending,
        out,
    )
}

// The same, with a list of nodes that is lent.
fn descend_over<'a>(
    alloc: Global,
    tree: &'a Tree,
    node: NodeId,
    relation: Relation,
    query: &'a Flat,
    slots: &Slots,
    trail: &mut Trail<&'a [Cell]>,
    pending: &mut Vec<Pending>,
    out: &mut Vec<Posting>,
) -> Result<u64, AllocError>
    requires { MayDescend tree.now node relation query.now slots.now trail.old }
    ensures { HasDescended tree.now node relation query.now result trail.old trail.new
        out.old.items out.new.items }
{
    let mut scratch = Scratch::new(alloc);
    let mut taken = Taken::none(alloc, relation, slots)?;
    descend_with(
        tree,
        node,
        relation,
        query,
        slots,
        &mut scratch,
        trail,
        &mut taken,
        pending,
        out,
    )
}

/// The same in memory that is lent, which has no less room in the end. The table is empty before
/// and after. What the list of nodes holds is thrown away.
///
/// # Errors
///
/// `AllocError` where there is no memory. It never comes if the scratch has room enough to solve
/// all bindings of the tree over those of the trail, `pending` for as many nodes as the tree has,
/// and `out` for all that can be found.
pub fn descend_with<'a>(
    tree: &'a Tree,
    node: NodeId,
    relation: Relation,
    query: &'a Flat,
    slots: &Slots,
    scratch: &mut Scratch,
    trail: &mut Trail<&'a [Cell]>,
    taken: &mut Taken,
    pending: &mut Vec<Pending>,
    out: &mut Vec<Posting>,
) -> Result<u64, AllocError>
    requires may { MayDescend tree.now node relation query.now slots.now trail.old }
    requires table { IsTableFor relation slots.now taken.old }
    ensures descends { HasDescended tree.now node relation query.now result trail.old trail.new
        out.old.items out.new.items }
    ensures table { taken.new ≡ taken.old }
    ensures full { OnErr result ((n : ℕ)
        → IsEnoughForTree n tree.now slots.now trail.old.pairs scratch.old
        → node_count tree.now ≤ vec_capacity pending.old
        → HasRoomForAnswers tree.now node relation query.now out.old → ⊥) }
    ensures keeps { IsNoLessRoom scratch.old scratch.new }
    ensures list_room { vec_capacity pending.old ≤ vec_capacity pending.new }
    ensures room { vec_capacity out.old ≤ vec_capacity out.new }
{
    let search = Search::new(tree, relation, query, *slots);
    let mark = trail.mark();
    let before = out.len();
    pending.clear();
    match search_below(&search, node, scratch, trail, taken, pending, out) {
        Ok(count) => {
            trail.undo(mark);
            taken.undo(0);
            Ok(count)
        }
        Err(error) => {
            trail.undo(mark);
            taken.undo(0);
            out.truncate(before);
            Err(error)
        }
    }
}

/// Appends the postings of the stored terms that stand in the relation to the query. It answers how
/// many nodes of the tree are open. At an error the postings are as before.
pub fn retrieve(
    alloc: Global,
    memory: &mut SearchMemory,
    tree: &Tree,
    relation: Relation,
    query: &Flat,
    out: &mut Vec<Posting>,
) -> Result<u64, AllocError>
    requires { AreQueryCells query.now }
    ensures retrieves { IfOk result (Retrieves tree.now relation query.now
        out.old.items out.new.items) }
    ensures err { OnErr result (out.new.items ≡ out.old.items) }
{
    let root = tree.root();
    let cells = query.cells();
    let slots = slots_for(tree, relation, cells);
    let mut trail = memory.trail(slots.count())?;
    trail.bind(slots.indicator_slot(0), cells);
    let mut pending = memory.pending();
    let passed = descend_over(
        alloc,
        tree,
        root,
        relation,
        query,
        &slots,
        &mut trail,
        &mut pending,
        out,
    );
    memory.take_back(trail, pending);
    passed
}

/// Counts the postings that [`retrieve`] would append, and the open nodes. It copies no posting.
pub fn count(
    alloc: Global,
    memory: &mut SearchMemory,
    tree: &Tree,
    relation: Relation,
    query: &Flat,
) -> Result<Counted, AllocError>
    requires { AreQueryCells query.now }
    ensures { IfOk result (CountsAnswers tree.now relation query.now) }
{
    let root = tree.root();
    let cells = query.cells();
    let slots = slots_for(tree, relation, cells);
    let mut trail = memory.trail(slots.count())?;
    trail.bind(slots.indicator_slot(0), cells);
    let search = Search::new(tree, relation, query, slots);
    let mut pending = memory.pending();
    let counted = count_below(alloc, &search, root, &mut trail, &mut pending);
    memory.take_back(trail, pending);
    counted
}

// Counts below a node or at it.
fn count_below<'a>(
    alloc: Global,
    search: &Search<'a>,
    node: NodeId,
    trail: &mut Trail<&'a [Cell]>,
    pending: &mut Vec<Pending>,
) -> Result<Counted, AllocError>
    requires node { IsNode search.now.tree.now node }
    requires ready { IsReady search.now }
    requires solving { AllowsSolving search.now.slots trail.old.pairs trail.old.slots }
    requires above { ShowsAbove search.now.slots trail.old.pairs search.now.tree.now node
        search.now.query.now }
    ensures { IfOk result (HasCounted search.now node) }
{
    // So no slot of the trail is known to be bound twice.
    trail.mark();
    let mut taken = Taken::none(alloc, search.relation, &search.slots)?;
    if !keeps_apart(search, trail, &mut taken) {
        return Ok(Counted::NONE);
    }
    let mut scratch = Scratch::new(alloc);
    pending.clear();
    count_all(search, node, &mut scratch, trail, &mut taken, pending)
}

/// Slots for a question of the whole tree: for the query, which has no more variables than cells,
/// and for all numbers of the tree.
pub fn slots_for(tree: &Tree, relation: Relation, query: &[Cell]) -> Slots
    requires { IsWhole query.now }
    ensures query { result.query ≡ length query.now }
    ensures entry { result.entry ≡ tree.now.vars }
    ensures inds { result.inds ≡ tree.now.next }
    ensures freezes { Freezes relation result }
{
    let (freeze_query, freeze_entry) = match relation {
        Relation::Variants => (true, false),
        Relation::Instances => (false, true),
        Relation::Generalizations => (true, false),
        Relation::Unifiable => (false, false),
    };
    Slots {
        query: length_of(query),
        entry: tree.vars(),
        inds: tree.next(),
        freeze_query,
        freeze_entry,
    }
}

// The number of cells of a term, which its first cell has.
fn length_of(cells: &[Cell]) -> u32
    requires { IsWhole cells.now }
    ensures { result ≡ length cells.now }
{
    match cells[0] {
        Cell::App { len, .. } => len,
        Cell::Query(_) => 1,
        Cell::Entry(_) => 1,
        Cell::Ind(_) => 1,
    }
}

// As `descend_with`, but that variables may stay taken and bindings be left and, where memory
// runs out, postings and pending nodes too.
fn search_below<'a>(
    search: &Search<'a>,
    node: NodeId,
    scratch: &mut Scratch,
    trail: &mut Trail<&'a [Cell]>,
    taken: &mut Taken,
    pending: &mut Vec<Pending>,
    out: &mut Vec<Posting>,
) -> Result<u64, AllocError>
    requires node { IsNode search.now.tree.now node }
    requires ready { IsReady search.now }
    requires solving { AllowsSolving search.now.slots trail.old.pairs trail.old.slots }
    requires distinct { HasDistinctSlots trail.old.pairs }
    requires above { ShowsAbove search.now.slots trail.old.pairs search.now.tree.now node
        search.now.query.now }
    requires table { IsTableFor search.now.relation search.now.slots taken.old }
    requires empty { pending.old.items ≡ [] }
    ensures found { IfOk result (HasFound search.now node out.old.items out.new.items) }
    ensures grows { Grows trail.old.pairs trail.new.pairs }
    ensures out_grows { Grows out.old.items out.new.items }
    ensures slots { trail.new.slots ≡ trail.old.slots }
    ensures table { taken.new.slots ≡ taken.old.slots }
    ensures full { OnErr result (LacksRoom search.now node trail.old.pairs scratch.old pending.old
        out.old) }
    ensures keeps { IsNoLessRoom scratch.old scratch.new }
    ensures list_room { vec_capacity pending.old ≤ vec_capacity pending.new }
    ensures room { vec_capacity out.old ≤ vec_capacity out.new }
{
    if !keeps_apart(search, trail, taken) {
        return Ok(0);
    }
    visit_all(search, node, scratch, trail, taken, pending, out)
}

// Whether the bindings of the nodes above leave them open, where these are solved. What their
// variables became is then taken.
fn keeps_apart(search: &Search<'_>, trail: &Trail<&[Cell]>, taken: &mut Taken) -> bool
    requires ready { IsReady search.now }
    requires solving { AllowsSolving search.now.slots trail.now.pairs trail.now.slots }
    requires table { IsTableFor search.now.relation search.now.slots taken.old }
    ensures apart { IsTrue result
        ↔ KeepsApart search.now.relation search.now.slots trail.now.pairs }
    ensures taken { IsTrue result
        → NotesTaken search.now.relation search.now.slots trail.now.pairs taken.new }
    ensures slots { taken.new.slots ≡ taken.old.slots }
{
    match search.relation {
        Relation::Variants => is_renaming(trail, &search.slots, 0, taken),
        Relation::Instances => true,
        Relation::Generalizations => true,
        Relation::Unifiable => true,
    }
}
