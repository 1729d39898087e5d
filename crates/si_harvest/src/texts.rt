// Texts of clauses alone: all of their clauses are taken, or none.
ghost use Rattle.std.specs.Prelude.{◌≡◌, ◌≤◌, length, drop, List, IfOk, IfErr, IfSome, IfNone, OnOk, OnErr};
ghost use Rattle.si_defs.specs.Clauses as defs;
ghost use Rattle.si_defs.specs.Tokens.{AreBlanks};
ghost use Rattle.si_defs.specs.declared.TheConstants.{MOST_OCCURRENCES};
ghost use Rattle.si_state.specs.Harvest.{AreClauses};
ghost use Rattle.si_harvest.specs.Faults.{NamesWhy};
ghost use Rattle.si_harvest.specs.Gains.{CountsNoMore, Gained, GainsOn, nothing_loaded};
ghost use Rattle.si_harvest.specs.Texts.{GainsText, RefusesText, RefusesNext, TakesNext};

use crate::faults::{HarvestFault, Loaded};
use crate::store::{add, roll_back};
use si_parse::item::{Read, next_item};
use si_sign::ClauseStore;
use std::alloc::Global;

/// Adds the clauses of a text to a store, and counts them. Nothing else stands in the text but
/// blanks. At an error the store is as before.
///
/// # Errors
/// `Rejected` with the first clause that the store rejects, or `Memory`.
#[tactic(auto, using(crate::proofs::Gaining::loads))]
pub fn take_text<T: ClauseStore>(
    alloc: Global,
    bytes: &[u8],
    store: &mut T,
) -> Result<Loaded, HarvestFault>
    requires short { length bytes.now ≤ MOST_OCCURRENCES }
    requires clauses { (clauses : List defs.Clause) × AreClauses clauses bytes.now }
    requires limit { (T.rules store.old).entries ≤ MOST_OCCURRENCES }
    ensures loaded { IfOk result (λ loaded. GainsText (T.rules store.old) (T.clauses store.old)
        bytes.now loaded (T.clauses store.new)) }
    ensures fault { IfErr result (λ e. NamesWhy (T.rules store.old) e (RefusesText
        (T.rules store.old) (T.clauses store.old) bytes.now)) }
    ensures err { OnErr result (T.clauses store.new ≡ T.clauses store.old) }
    ensures rules { T.rules store.new ≡ T.rules store.old }
{
    let mut loaded = Loaded {
        clauses: 0,
        entries: 0,
    };
    match take_all(alloc, bytes, store, &mut loaded) {
        Ok(()) => Ok(loaded),
        Err(fault) => {
            roll_back(store, loaded.clauses);
            Err(fault)
        }
    }
}

/// Adds the clauses of a text, up to the first that the store rejects.
#[tactic(auto, using(crate::proofs::Gaining::loads))]
fn take_all<T: ClauseStore>(
    alloc: Global,
    bytes: &[u8],
    store: &mut T,
    loaded: &mut Loaded,
) -> Result<(), HarvestFault>
    requires short { length bytes.now ≤ MOST_OCCURRENCES }
    requires clauses { (clauses : List defs.Clause) × AreClauses clauses bytes.now }
    requires limit { (T.rules store.old).entries ≤ MOST_OCCURRENCES }
    requires nothing { loaded.old ≡ nothing_loaded }
    ensures taken { OnOk result (GainsText (T.rules store.old) (T.clauses store.old) bytes.now
        loaded.new (T.clauses store.new)) }
    ensures fault { IfErr result (λ e. NamesWhy (T.rules store.old) e (RefusesText
        (T.rules store.old) (T.clauses store.old) bytes.now)) }
    ensures gained { Gained (T.rules store.old) (T.clauses store.old) loaded.new
        (T.clauses store.new) }
    ensures rules { T.rules store.new ≡ T.rules store.old }
{
    let mut at = 0;
    while let Some(end) = take_next(alloc, bytes, at, store, loaded)? {
        at = end;
    }
    Ok(())
}

/// Adds the clause after a place of a text, and answers the place after it. `None`: only blanks
/// are left.
fn take_next<T: ClauseStore>(
    alloc: Global,
    bytes: &[u8],
    at: usize,
    store: &mut T,
    loaded: &mut Loaded,
) -> Result<Option<usize>, HarvestFault>
    requires short { length bytes.now ≤ MOST_OCCURRENCES }
    requires within { at ≤ length bytes.now }
    requires clauses { (clauses : List defs.Clause) × AreClauses clauses (drop at bytes.now) }
    requires limit { (T.rules store.old).entries ≤ MOST_OCCURRENCES }
    requires counted { CountsNoMore loaded.old (T.clauses store.old) }
    ensures taken { IfOk result (λ next. IfSome next (λ end.
        TakesNext (T.rules store.old) bytes.now
        at end (T.clauses store.old) (T.clauses store.new))) }
    ensures blanks { IfOk result (λ next. IfNone next (AreBlanks (drop at bytes.now))) }
    ensures ended { IfOk result (λ next.
        IfNone next (T.clauses store.new ≡ T.clauses store.old)) }
    ensures fault { IfErr result (λ e. NamesWhy (T.rules store.old) e (RefusesNext
        (T.rules store.old) bytes.now at (T.clauses store.old))) }
    ensures gains { GainsOn (T.rules store.old) (T.rules store.new) (T.clauses store.old)
        (T.clauses store.new) loaded.old loaded.new }
{
    match next_item(alloc, bytes, at)? {
        Read::Cnf(clause, end) => {
            add(store, clause, loaded)?;
            Ok(Some(end))
        }
        Read::End => Ok(None),
        Read::Include(_, _, _) => unreachable!(),
        Read::Syntax(_) => unreachable!(),
        Read::Language(_) => unreachable!(),
    }
}
