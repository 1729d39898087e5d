// The least map between flat terms.
ghost use Rattle.std.specs.Prelude.{◌≡◌, ◌↔◌, ◌<◌, ◌-◌, ◌^◌, IsTrue, IfOk, length, map, true, false};
ghost use Rattle.std.specs.List.{AllByRecursion};
ghost use Rattle.si_flat.specs.declared.Owner.TheVariants.{Query, Entry};
ghost use Rattle.si_subsume.specs.Maps.{AnswersFlat, IsComparable};
ghost use Rattle.si_subsume.specs.Parts.{AreFixed};
ghost use Rattle.si_subsume.specs.Search.{AreFlatLiterals, AnswersSlices, number_from_one};
ghost use Rattle.si_subsume.specs.Tasks.{IsSearchable, FindsMap};

use crate::apart::least_of_parts;
use crate::cut::arguments;
use crate::heads::Heads;
use crate::parts::part_labels;
use crate::search::{Choice, Task, each_has_target, search};
use crate::variables::slots_of;
use si_flat::{Cell, LitMap};
use si_trail::Trail;
use si_unify::Slots;
use std::alloc::{AllocError, Global};

// The map that the choices are.
fn numbers(alloc: Global, choices: &[Choice]) -> Result<LitMap, AllocError>
    requires { AllByRecursion (λ choice. choice.number < 2 ^ 32 - 1) choices.now }
    ensures { IfOk result (λ list. list ≡ map number_from_one choices.now) }
{
    let mut list = LitMap::new(alloc);
    for i in 0..choices.len() {
        list.push(choices[i].number as u32 + 1)?;
    }
    Ok(list)
}

// The least map from literals to targets, over all literals at once; `None` where there is none.
fn least_of_one<'a>(alloc: Global, task: &Task<'a>) -> Result<Option<LitMap>, AllocError>
    requires searchable { IsSearchable task.now }
    requires few { length task.now.targets.now < 2 ^ 32 }
    ensures { IfOk result (FindsMap task.now) }
{
    let mut trail = Trail::with_slots(alloc, task.slots.count())?;
    let Some(choices) = search(alloc, &mut trail, task)? else {
        return Ok(None);
    };
    let list = numbers(alloc, &choices)?;
    Ok(Some(list))
}

// Whether all literals have the label of one part.
fn is_one_part(labels: &[usize]) -> bool
    ensures { IsTrue result ↔ AllByRecursion (λ label. label ≡ 0) labels.now }
{
    labels.iter().all(|label| *label == 0)
}

// The least map from literals to targets; `None` where there is none. No variable of a target may
// be bound, so literals that share no variable are separate questions.
fn least<'a>(alloc: Global, task: &Task<'a>) -> Result<Option<LitMap>, AllocError>
    requires searchable { IsSearchable task.now }
    requires few { length task.now.targets.now < 2 ^ 32 }
    requires fixed { AllByRecursion (λ b. AreFixed task.now.slots b.now) task.now.targets.now }
    ensures { IfOk result (FindsMap task.now) }
{
    if !each_has_target(task) {
        return Ok(None);
    }
    if task.literals.len() < 2 {
        return least_of_one(alloc, task);
    }
    let labels = part_labels(alloc, &task.slots, task.literals)?;
    if is_one_part(&labels) {
        return least_of_one(alloc, task);
    }
    least_of_parts(alloc, task, labels)
}

// The same, with an index of the targets by their heads.
fn least_by_heads<'a>(
    alloc: Global,
    slots: Slots,
    literals: &'a [&'a [Cell]],
    targets: &'a [&'a [Cell]],
) -> Result<Option<LitMap>, AllocError>
    requires literals { AreFlatLiterals slots literals.now }
    requires targets { AreFlatLiterals slots targets.now }
    requires few { length targets.now < 2 ^ 32 }
    requires fixed { AllByRecursion (λ b. AreFixed slots b.now) targets.now }
    ensures { IfOk result (AnswersSlices slots literals.now targets.now) }
{
    let heads = Heads::of(alloc, targets)?;
    let task = Task {
        slots,
        literals,
        targets,
        heads: &heads,
    };
    least(alloc, &task)
}

/// The least map from the arguments of `c` to those of `d`, over substitutions that leave the
/// variables of `d`; `None` where there is none. Of two clauses made flat by one numbering, as by
/// [`flatten_clauses`](si_flat::flatten_clauses) or in a [`ClauseBuffer`](si_flat::ClauseBuffer),
/// the arguments are the literals.
pub fn least_map_of(alloc: Global, c: &[Cell], d: &[Cell]) -> Result<Option<LitMap>, AllocError>
    requires c { IsComparable Query c.now }
    requires d { IsComparable Entry d.now }
    ensures { IfOk result (AnswersFlat c.now d.now) }
{
    let literals = arguments(alloc, c)?;
    let targets = arguments(alloc, d)?;
    let slots = slots_of(c, d);
    least_by_heads(alloc, slots, &literals, &targets)
}
