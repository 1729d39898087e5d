// A plain list of clauses that finds no memory at chosen calls.
ghost use Rattle.std.specs.Prelude.{◌≡◌, ◌<◌, ◌≤◌, ◌-◌, ◌^◌, ◌++◌, ◌∷◌, [], length, IsTrue, IfOk, OnErr, IfErr, IfSome, IfNone};
ghost use Rattle.std.specs.List.{AllByRecursion};
ghost use Rattle.si_defs.specs.Clauses as defs;
ghost use Rattle.si_defs.specs.Clauses.{IsSoundClause};
ghost use Rattle.si_defs.specs.Entries.{entries};
ghost use Rattle.si_defs.specs.declared.TheConstants.{MOST_OCCURRENCES};
ghost use Rattle.si_state.specs.States.{limited_to};
ghost use Rattle.si_state.specs.Acceptance.{Accepts, IsTaken, Removes};
ghost use Rattle.si_term.specs.Meaning.{clause_of, name_of};
ghost use Rattle.si_sign.specs.Stores.{IsStored, Rejects};
ghost use Rattle.si_sign.specs.Short.{next_call, is_among, FindsNoMemory};

use crate::faults::{AddFault, Rejected};
use crate::plain::PlainStore;
use crate::store::ClauseStore;
use si_term::{Clause, Name};
use std::alloc::Global;
use std::marker::Model;

/// A plain list of clauses whose calls of `add` find no memory where their numbers were chosen for
/// that. Whoever adds clauses to a store is tested over it.
#[derive(Drop)]
pub struct ShortStore {
    list: PlainStore,
    // The numbers from 1 of the calls of `add` that fail.
    failing: Vec<u32>,
    // So many calls of `add` were made, up to the largest `u32`.
    calls: u32,
}

impl Model for ShortStore {
    ghost use Rattle.si_sign.specs.Short.{Short, short_code};
    ghost use Rattle.si_sign.specs.Stores.{IsStored};

    ghost Value = { Short };

    ghost coded = { short_code };

    ghost view = { λ s. record {
      rules = s.list.0;
      clauses = s.list.1;
      failing = s.failing.items;
      calls = s.calls;
    } };

    ghost invariant = { λ s. IsStored s.list.0 s.list.1 };
}

impl ShortStore {
    /// The empty list, with this limit on entries, and the numbers from 1 of the calls of `add`
    /// that are to fail. It takes no memory.
    pub fn new(alloc: Global, limit: u64, failing: Vec<u32>) -> ShortStore
        requires limit { limit ≤ MOST_OCCURRENCES }
        requires numbers { AllByRecursion (λ n. n < 2 ^ 32 - 1) failing.items }
        ensures { result ≡ record {
          rules = limited_to limit;
          clauses = [];
          failing = failing.items;
          calls = 0;
        } }
    {
        let list = PlainStore::new(alloc, limit);
        // So the list is known to be as the rules want it.
        list.len();
        ShortStore {
            list,
            failing,
            calls: 0,
        }
    }
}

impl ClauseStore for ShortStore {
    ghost clauses = { λ s. s.clauses };

    ghost rules = { λ s. s.rules };

    fn add(&mut self, clause: Clause) -> Result<u32, Rejected>
        requires sound { IsSoundClause (clause_of clause) }
        ensures chosen { IsTrue (is_among self.old.failing self.new.calls)
            → FindsNoMemory result }
        ensures calls { self.new.calls ≡ next_call self.old.calls }
        ensures failing { self.new.failing ≡ self.old.failing }
        ensures added { IfOk result (λ n. Accepts self.old.rules self.old.clauses
            (clause_of clause) self.new.clauses) }
        ensures entries { IfOk result (λ n. n ≡ length (entries (clause_of clause))) }
        ensures rejected { IfErr result (λ r. Rejects self.old.rules self.old.clauses
            (clause_of clause) r.why) }
        ensures handed_back { IfErr result (λ r. r.clause ≡ clause) }
        ensures err { OnErr result (self.new.clauses ≡ self.old.clauses) }
        ensures rules { self.new.rules ≡ self.old.rules }
        ensures stored { IsStored self.new.rules self.new.clauses }
    {
        self.calls = self.calls.saturating_add(1);
        if self.failing.contains(&self.calls) {
            return Err(Rejected {
                clause,
                why: AddFault::Memory,
            });
        }
        self.list.add(clause)
    }

    fn remove(&mut self, name: &Name) -> Option<u32>
        ensures calls { self.new.calls ≡ self.old.calls }
        ensures failing { self.new.failing ≡ self.old.failing }
        ensures removed { IfSome result (λ n. (c : defs.Clause) × Removes self.old.clauses
            (name_of name.now) c self.new.clauses × (n ≡ length (entries c))) }
        ensures unknown { IfNone result (IsTaken self.old.clauses (name_of name.now) → ⊥) }
        ensures none { IfNone result (self.new.clauses ≡ self.old.clauses) }
        ensures rules { self.new.rules ≡ self.old.rules }
        ensures stored { IsStored self.new.rules self.new.clauses }
    {
        self.list.remove(name)
    }

    fn remove_last(&mut self) -> Option<u32>
        ensures calls { self.new.calls ≡ self.old.calls }
        ensures failing { self.new.failing ≡ self.old.failing }
        ensures removed { IfSome result (λ n. (c : defs.Clause)
            × (self.old.clauses ≡ self.new.clauses ++ c ∷ []) × (n ≡ length (entries c))) }
        ensures empty { IfNone result (self.old.clauses ≡ []) }
        ensures none { IfNone result (self.new.clauses ≡ self.old.clauses) }
        ensures rules { self.new.rules ≡ self.old.rules }
        ensures stored { IsStored self.new.rules self.new.clauses }
    {
        self.list.remove_last()
    }
}
