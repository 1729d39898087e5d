// Loads: all clauses of a file, or none.
ghost use Rattle.std.specs.Prelude.{◌≡◌, ◌≤◌, IfOk, OnErr};
ghost use Rattle.si_defs.specs.declared.TheConstants.{MOST_OCCURRENCES};
ghost use Rattle.si_io.specs.Shown.{KeepsFiles};
ghost use Rattle.si_harvest.specs.Faults.{ChecksStart, CountsCause, UsesLibrary, bounds_of};
ghost use Rattle.si_harvest.specs.Gains.{Gained, nothing_loaded};
ghost use Rattle.si_harvest.specs.Loading.{ReadsFiles};

use crate::faults::{HarvestFault, HarvestLimits, Loaded};
use crate::reading::Reading;
use crate::store::roll_back;
use si_io::Library;
use si_sign::ClauseStore;
use std::alloc::Global;

/// Adds the clauses of a file and of the files that it includes to a store, and counts them. At an
/// error the store is as before.
#[tactic(auto, using(crate::proofs::Gaining::loads))]
pub fn expand<L: Library, T: ClauseStore>(
    alloc: Global,
    library: &mut L,
    name: &[u8],
    limits: &HarvestLimits,
    store: &mut T,
) -> Result<Loaded, HarvestFault>
    requires file { limits.now.file ≤ MOST_OCCURRENCES }
    requires limit { (T.rules store.old).entries ≤ MOST_OCCURRENCES }
    ensures loaded { IfOk result (λ loaded. Gained (T.rules store.old) (T.clauses store.old) loaded
        (T.clauses store.new)) }
    ensures reads { ReadsFiles (L.shown library.old).files (bounds_of limits.now)
        (T.rules store.old) name.now result (T.clauses store.old) (T.clauses store.new)
        (L.shown library.old).counts.calls (L.shown library.new).counts.calls }
    ensures start { ChecksStart (bounds_of limits.now) (T.rules store.old) name.now result }
    ensures err { OnErr result (T.clauses store.new ≡ T.clauses store.old) }
    ensures rules { T.rules store.new ≡ T.rules store.old }
    ensures library { KeepsFiles (L.shown library.old) (L.shown library.new) }
    ensures cause { CountsCause (L.shown library.old) (L.shown library.new) result }
{
    let mut loaded = Loaded {
        clauses: 0,
        entries: 0,
    };
    match read_all(alloc, library, name, limits, store, &mut loaded) {
        Ok(()) => Ok(loaded),
        Err(fault) => {
            roll_back(store, loaded.clauses);
            Err(fault)
        }
    }
}

/// Reads a file and what it includes, up to the first fault.
#[tactic(auto, using(crate::proofs::Gaining::loads))]
fn read_all<L: Library, T: ClauseStore>(
    alloc: Global,
    library: &mut L,
    name: &[u8],
    limits: &HarvestLimits,
    store: &mut T,
    loaded: &mut Loaded,
) -> Result<(), HarvestFault>
    requires file { limits.now.file ≤ MOST_OCCURRENCES }
    requires limit { (T.rules store.old).entries ≤ MOST_OCCURRENCES }
    requires nothing { loaded.old ≡ nothing_loaded }
    ensures reads { ReadsFiles (L.shown library.old).files (bounds_of limits.now)
        (T.rules store.old) name.now result (T.clauses store.old) (T.clauses store.new)
        (L.shown library.old).counts.calls (L.shown library.new).counts.calls }
    ensures start { ChecksStart (bounds_of limits.now) (T.rules store.old) name.now result }
    ensures gained { Gained (T.rules store.old) (T.clauses store.old) loaded.new
        (T.clauses store.new) }
    ensures rules { T.rules store.new ≡ T.rules store.old }
    ensures library { UsesLibrary (L.shown library.old) (L.shown library.new) result }
{
    let mut reading = Reading::new(alloc);
    reading.enter(alloc, library, limits, name, None)?;
    while reading.step(alloc, library, limits, store, loaded)? {}
    Ok(())
}
