// The entries that an engine answered, each with its place and its list.
ghost use Rattle.std.specs.Prelude.{◌≡◌, ℕ, ◌+◌, IfOk, OnOk};
ghost use Rattle.std.specs.List.{AllByRecursion};
ghost use Rattle.si_defs.specs.Entries.{Placed};
ghost use Rattle.si_term.specs.Meaning.{entry_of};
ghost use Rattle.si_state.specs.Answers.{Stands};
ghost use Rattle.si_entries.specs.Walks.{last_place};
ghost use Rattle.si_keyed.specs.Placed.{HasPlace};
ghost use Rattle.si_index.specs.Leaves.{AreUnmade, StayMade};
ghost use Rattle.si_index.specs.Searching.{numbers_of, pattern_in, IsReadyToSearch, IsKnownEntry, IsOfLeaf, AreMade, HasList, AreMatches};
ghost use Rattle.si_index.specs.Gathering.{Rise, IsAhead, IsHitAt, IsStandingAt, IsWalk, AddsHit, MayGather, AreGathered};

use crate::found::Hit;
use crate::search::{Search, Workspace};
use crate::variables::EntryNames;
use crate::wanted::{Leaf, Wanted};
use si_entries::Entries;
use si_form::CountedQuery;
use si_term::{Clause, Entry};
use std::alloc::AllocError;

/// An entry that was found: where it stands, its clause, the names of its variables, and the number
/// of its leaf.
#[derive(Drop)]
pub(crate) struct Match<'a> {
    pub(crate) hit: Hit,
    pub(crate) clause: &'a Clause,
    pub(crate) entry: Entry<'a>,
    pub(crate) names: EntryNames<'a>,
    pub(crate) leaf: usize,
}

/// The entries that were found, and their leaves, whose lists are made.
pub(crate) struct Matches<'a> {
    pub(crate) found: Vec<Match<'a>>,
    pub(crate) leaves: Vec<Leaf>,
}

// It does what a derived one would, and is quicker to check (docs/PROVING.md, "Minutes").
impl Drop for Matches<'_> {
    fn drop(self) {
        let Matches {
            leaves: _leaves,
            found: _found,
        } = self;
    }
}

/// A walk through the entries of a clause.
#[derive(Drop)]
struct ClauseWalk<'a> {
    slot: u32,
    position: u32,
    clause: &'a Clause,
    entries: Entries<'a>,
    /// The number of the entry that comes next.
    next: u32,
}

impl<'a> ClauseWalk<'a> {
    /// All entries of the clause in this slot come next.
    fn new(search: &Search<'a>, slot: u32) -> ClauseWalk<'a>
        requires ready { IsReadyToSearch search.now }
        requires there { HasPlace search.now.slots slot }
        ensures walk { IsWalk search.now.slots result }
        ensures slot { result.slot ≡ slot }
        ensures next { result.next ≡ 0 }
    {
        let (position, clause) = search.slots.at(slot as usize);
        ClauseWalk {
            slot,
            position: position as u32,
            clause,
            entries: Entries::new(search.alloc, clause),
            next: 0,
        }
    }

    /// Begins with the clause in this slot, unless it is there.
    fn turn_to(&mut self, search: &Search<'a>, place: Wanted)
        requires ready { IsReadyToSearch search.now }
        requires there { HasPlace search.now.slots place.slot }
        requires walk { IsWalk search.now.slots self.old }
        requires ahead { IsAhead self.old place }
        ensures walk { IsWalk search.now.slots self.new }
        ensures slot { self.new.slot ≡ place.slot }
        ensures ahead { IsAhead self.new place }
    {
        if self.slot != place.slot {
            *self = ClauseWalk::new(search, place.slot);
        }
    }

    /// Gives the entry that stands here, which wasn't passed. After an error the walk is of no use.
    fn go_to(&mut self, search: &Search<'a>, place: Wanted) -> Result<Entry<'a>, AllocError>
        requires ready { IsReadyToSearch search.now }
        requires there { (hit : ℕ × Placed) × IsHitAt search.now.slots place hit }
        requires walk { IsWalk search.now.slots self.old }
        requires ahead { IsAhead self.old place }
        ensures walk { OnOk result (IsWalk search.now.slots self.new) }
        ensures slot { OnOk result (self.new.slot ≡ place.slot) }
        ensures next { OnOk result (self.new.next ≡ place.entry + 1) }
        ensures entry { IfOk result (λ entry. IsHitAt search.now.slots place (
          self.new.position,
          record {
            entry = entry_of entry;
            place = last_place self.new.entries;
          },
        )) }
    {
        self.turn_to(search, place);
        let Some(entry) = self.entries.nth(place.entry - self.next)? else {
            unreachable!()
        };
        self.next = place.entry + 1;
        Ok(entry)
    }
}

/// Adds the entry that the walk gave last, which is of this leaf.
fn add<'a>(
    search: &Search<'a>,
    query: &CountedQuery<'_>,
    walk: &ClauseWalk<'a>,
    entry: Entry<'a>,
    leaf: usize,
    workspace: &mut Workspace<'a>,
    matches: &mut Matches<'a>,
) -> Result<(), AllocError>
    requires ready { IsReadyToSearch search.now }
    requires query { query.now ≡ search.now.query.flat }
    requires walk { IsWalk search.now.slots walk.now }
    requires known { IsKnownEntry (numbers_of search.now) (entry_of entry) }
    requires stands { Stands search.now.relation (pattern_in search.now) (entry_of entry) }
    requires leaf { IsOfLeaf search.now matches.old.leaves.items leaf (entry_of entry) }
    requires made { AreMade search.now matches.old.leaves.items }
    requires each { AreMatches search.now matches.old }
    ensures adds { OnOk result (AddsHit search.now (
      walk.now.position,
      record {
        entry = entry_of entry.entry;
        place = last_place walk.now.entries;
      },
    )
        matches.old matches.new) }
    ensures made { OnOk result (AreMade search.now matches.new.leaves.items) }
    ensures stay { OnOk result (StayMade matches.old.leaves.items matches.new.leaves.items) }
{
    make_list(search, query, workspace, &mut matches.leaves, leaf, entry)?;
    let hit = Hit {
        clause: walk.position,
        place: walk.entries.place()?,
    };
    let names = search.names(workspace, entry)?;
    matches.found.push(Match {
        hit,
        clause: walk.clause,
        entry,
        names,
        leaf,
    })?;
    Ok(())
}

/// Makes the list of a leaf, by an entry of it, unless it is made.
fn make_list<'a>(
    search: &Search<'a>,
    query: &CountedQuery<'_>,
    workspace: &mut Workspace<'a>,
    leaves: &mut Vec<Leaf>,
    leaf: usize,
    entry: Entry<'a>,
) -> Result<(), AllocError>
    requires ready { IsReadyToSearch search.now }
    requires query { query.now ≡ search.now.query.flat }
    requires known { IsKnownEntry (numbers_of search.now) (entry_of entry) }
    requires stands { Stands search.now.relation (pattern_in search.now) (entry_of entry) }
    requires leaf { IsOfLeaf search.now leaves.old.items leaf (entry_of entry) }
    requires made { AreMade search.now leaves.old.items }
    ensures list { OnOk result (HasList search.now (entry_of entry.entry) leaves.new.items leaf) }
    ensures made { OnOk result (AreMade search.now leaves.new.items) }
    ensures stay { OnOk result (StayMade leaves.old.items leaves.new.items) }
{
    if leaves[leaf].list.is_some() {
        return Ok(());
    }
    let list = search.solve(query, workspace, entry)?;
    leaves[leaf].list = Some(list);
    Ok(())
}

/// The entries that stand here, each with its list. Each clause of theirs is walked through once.
pub(crate) fn gather<'a>(
    search: &Search<'a>,
    places: &[Wanted],
    leaves: Vec<Leaf>,
) -> Result<Matches<'a>, AllocError>
    requires ready { IsReadyToSearch search.now }
    requires unmade { AreUnmade leaves.items }
    requires stand { AllByRecursion (IsStandingAt search.now leaves.items) places.now }
    requires rise { Rise places.now }
    ensures { IfOk result (AreGathered search.now places.now) }
{
    let mut matches = Matches {
        found: Vec::with_capacity(search.alloc, places.len())?,
        leaves,
    };
    gather_into(search, places, &mut matches)?;
    Ok(matches)
}

/// Adds the entries that stand here, where none was found yet.
fn gather_into<'a>(
    search: &Search<'a>,
    places: &[Wanted],
    matches: &mut Matches<'a>,
) -> Result<(), AllocError>
    requires { MayGather search.now places.now matches.old }
    ensures { OnOk result (AreGathered search.now places.now matches.new) }
{
    let mut workspace = Workspace::new(search.alloc);
    gather_in(search, places, &mut workspace, matches)
}

/// The same, in this memory.
fn gather_in<'a>(
    search: &Search<'a>,
    places: &[Wanted],
    workspace: &mut Workspace<'a>,
    matches: &mut Matches<'a>,
) -> Result<(), AllocError>
    requires { MayGather search.now places.now matches.old }
    ensures { OnOk result (AreGathered search.now places.now matches.new) }
{
    let Some(first) = places.first() else {
        return Ok(());
    };
    let query = CountedQuery::new(search.query.flat.cells());
    let mut walk = ClauseWalk::new(search, first.slot);
    walk_through(search, &query, places, &mut walk, workspace, matches)
}

/// The same, by a walk that begins.
fn walk_through<'a>(
    search: &Search<'a>,
    query: &CountedQuery<'_>,
    places: &[Wanted],
    walk: &mut ClauseWalk<'a>,
    workspace: &mut Workspace<'a>,
    matches: &mut Matches<'a>,
) -> Result<(), AllocError>
    requires query { query.now ≡ search.now.query.flat }
    requires walk { IsWalk search.now.slots walk.old }
    requires next { walk.old.next ≡ 0 }
    requires may { MayGather search.now places.now matches.old }
    ensures { OnOk result (AreGathered search.now places.now matches.new) }
{
    for place in places {
        let entry = walk.go_to(search, *place)?;
        add(search, query, walk, entry, place.leaf, workspace, matches)?;
    }
    Ok(())
}
