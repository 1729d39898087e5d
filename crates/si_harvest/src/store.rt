// Adding the clauses of a load to a store, and taking them away.
ghost use Rattle.std.specs.Prelude.{◌≡◌, ◌-◌, ◌≤◌, ◌++◌, ◌∷◌, [], length, take, List, IfErr, OnOk, OnErr};
ghost use Rattle.si_defs.specs.Clauses as defs;
ghost use Rattle.si_defs.specs.Clauses.{IsSoundClause};
ghost use Rattle.si_defs.specs.declared.TheConstants.{MOST_OCCURRENCES};
ghost use Rattle.si_state.specs.States.{Rules};
ghost use Rattle.si_state.specs.Acceptance.{Accepts};
ghost use Rattle.si_state.specs.Harvest.{IsRejected};
ghost use Rattle.si_term.specs.Meaning.{clause_of};
ghost use Rattle.si_sign.specs.Stores.{Rejects};
ghost use Rattle.si_harvest.specs.Faults.{NamesWhy};
ghost use Rattle.si_harvest.specs.Gains.{CountsNoMore, GainsOn};

use crate::faults::{HarvestFault, Loaded};
use si_sign::{AddFault, ClauseStore, Rejected};
use si_term::Clause;

/// Adds a clause, and counts it.
pub fn add<T: ClauseStore>(
    store: &mut T,
    clause: Clause,
    loaded: &mut Loaded,
) -> Result<(), HarvestFault>
    requires sound { IsSoundClause (clause_of clause) }
    requires limit { (T.rules store.old).entries ≤ MOST_OCCURRENCES }
    requires counted { CountsNoMore loaded.old (T.clauses store.old) }
    ensures accepted { OnOk result (Accepts (T.rules store.old) (T.clauses store.old)
        (clause_of clause) (T.clauses store.new)) }
    ensures refused { IfErr result (λ e. NamesWhy (T.rules store.old) e
        (IsRejected (T.rules store.old) (T.clauses store.old) (clause_of clause))) }
    ensures gains { GainsOn (T.rules store.old) (T.rules store.new) (T.clauses store.old)
        (T.clauses store.new) loaded.old loaded.new }
    ensures err { OnErr result (T.clauses store.new ≡ T.clauses store.old) }
{
    match store.add(clause) {
        Ok(entries) => {
            loaded.clauses += 1;
            loaded.entries += entries;
            Ok(())
        }
        Err(rejected) => Err(refusal(rejected)),
    }
}

/// Why a load is refused whose clause is rejected.
fn refusal(rejected: Rejected) -> HarvestFault
    requires { IsSoundClause (clause_of rejected.clause) }
    ensures { (rules : Rules) (kept : List defs.Clause)
        → Rejects rules kept (clause_of rejected.clause) rejected.why
        → NamesWhy rules result (IsRejected rules kept (clause_of rejected.clause)) }
{
    if let AddFault::Memory = rejected.why {
        return HarvestFault::Memory;
    }
    HarvestFault::Rejected(rejected)
}

/// Takes the last clauses away, so many of them, or all where there are fewer.
pub fn roll_back<T: ClauseStore>(store: &mut T, clauses: u32)
    ensures clauses { T.clauses store.new ≡ take (length (T.clauses store.old) - clauses)
        (T.clauses store.old) }
    ensures rules { T.rules store.new ≡ T.rules store.old }
{
    for _ in 0..clauses {
        store.remove_last();
    }
}
