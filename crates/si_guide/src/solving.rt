// Whether flat terms can be made equal, and their canonical lists.
ghost use Rattle.std.specs.Prelude.{◌↔◌, [], IfOk, IsTrue};
ghost use Rattle.si_flat.specs.declared.Owner.TheVariants.{Query, Entry};
ghost use Rattle.si_unify.specs.Solving.{AreInRange, HaveCommon};
ghost use Rattle.si_form.specs.Answers.{AreNumbered, Answers};

use crate::flattening::FlatPair;
use si_defs::Relation;
use si_flat::Flat;
use si_form::{Solution, canonical};
use si_trail::Trail;
use si_unify::{Slots, solve};
use std::alloc::{AllocError, Global};

/// Whether some substitution makes two flat terms equal. It leaves frozen variables as they are.
pub fn have_common(
    alloc: Global,
    slots: &Slots,
    query: &Flat,
    entry: &Flat,
) -> Result<bool, AllocError>
    requires query { AreInRange slots.now query.now }
    requires entry { AreInRange slots.now entry.now }
    ensures { IfOk result (λ yes. IsTrue yes ↔ HaveCommon slots.now [] query.now entry.now) }
{
    let mut trail = Trail::with_slots(alloc, slots.count())?;
    solve(alloc, &mut trail, slots, query.cells(), entry.cells())
}

/// The canonical list by which the two terms stand in a relation; `None` where they don't.
pub fn canonical_list(
    alloc: Global,
    relation: Relation,
    pair: &FlatPair,
) -> Result<Option<Solution>, AllocError>
    requires query { AreNumbered Query pair.now.query.flat }
    requires entry { AreNumbered Entry pair.now.entry }
    ensures { IfOk result (Answers relation pair.now.query.flat pair.now.entry) }
{
    canonical(alloc, relation, &pair.query.flat, &pair.entry)
}
