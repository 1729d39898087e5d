// The least map, part by part: literals that share no variable are separate questions.
ghost use Rattle.std.specs.Prelude.{◌≡◌, ◌+◌, ◌<◌, ◌≤◌, ◌^◌, [], IfOk, length, take, drop};
ghost use Rattle.std.specs.List.{AllByRecursion};
ghost use Rattle.si_subsume.specs.Parts.{AreFixed, AreParts, parts_from, AnswersParts};
ghost use Rattle.si_unify.specs.Solving.{AllowsSolving};
ghost use Rattle.si_subsume.specs.Search.{AreFlatLiterals, AnswersSearch};
ghost use Rattle.si_subsume.specs.Tasks.{IsSearchable, FindsMap};

use crate::chains::Chains;
use crate::search::{Choice, Task, search};
use si_flat::{Cell, LitMap};
use si_trail::Trail;
use std::alloc::{AllocError, Global};

// The choices for the literals of a part. No binding is left.
fn search_part<'a>(
    alloc: Global,
    trail: &mut Trail<&'a [Cell]>,
    task: &Task<'a>,
    part: &'a [&'a [Cell]],
) -> Result<Option<Vec<Choice>>, AllocError>
    requires searchable { IsSearchable task.now }
    requires part { AreFlatLiterals task.now.slots part.now }
    requires ready { AllowsSolving task.now.slots trail.old.pairs trail.old.slots }
    requires unbound { trail.old.pairs ≡ [] }
    ensures answers { IfOk result (AnswersSearch task.now.slots part.now task.now.targets.now) }
    ensures unbound { IfOk result (λ found. trail.new.pairs ≡ []) }
    ensures ready { IfOk result
        (λ found. AllowsSolving task.now.slots trail.new.pairs trail.new.slots) }
{
    let task = Task {
        slots: task.slots,
        literals: part,
        targets: task.targets,
        heads: task.heads,
    };
    let found = search(alloc, trail, &task)?;
    trail.undo(0);
    Ok(found)
}

// So many of the literals, from a place on.
fn part_at<'a>(grouped: &'a [&'a [Cell]], from: usize, count: usize) -> &'a [&'a [Cell]]
    requires { from + count ≤ length grouped.now }
    ensures { result.now ≡ take count (drop from grouped.now) }
{
    let left = &grouped[from..];
    &left[..count]
}

// Searches part by part, and writes the numbers of the targets that are chosen. `false`: some part
// has no map.
fn search_parts<'a>(
    alloc: Global,
    trail: &mut Trail<&'a [Cell]>,
    task: &Task<'a>,
    chains: &Chains,
    grouped: &'a [&'a [Cell]],
    numbers: &mut Vec<u32>,
) -> Result<bool, AllocError>
    requires searchable { IsSearchable task.now }
    requires few { length task.now.targets.now < 2 ^ 32 }
    requires ready { AllowsSolving task.now.slots trail.old.pairs trail.old.slots }
    requires unbound { trail.old.pairs ≡ [] }
    requires sizes { length task.now.literals.now ≡ length chains.now }
    requires grouped { grouped.now ≡ parts_from chains.now 0
        (length task.now.literals.now) task.now.literals.now }
    requires numbers { length numbers.old.items ≡ length chains.now }
    ensures answers { IfOk result (AnswersParts task.now.slots task.now.literals.now
        task.now.targets.now chains.now numbers.new.items) }
    ensures sizes { IfOk result (λ all. length numbers.new.items ≡ length chains.now) }
{
    let mut left = grouped.len();
    for label in 0..task.literals.len() {
        let count = chains.part_len(label);
        let part = part_at(grouped, grouped.len() - left, count);
        match search_part(alloc, trail, task, part)? {
            Some(choices) => chains.write(label, &choices, numbers),
            None => return Ok(false),
        }
        left -= count;
    }
    Ok(true)
}

// The map that the numbers are.
fn map_of(alloc: Global, numbers: &[u32]) -> Result<LitMap, AllocError>
    ensures { IfOk result (λ list. list ≡ numbers.now) }
{
    let mut list = LitMap::new(alloc);
    for i in 0..numbers.len() {
        list.push(numbers[i])?;
    }
    Ok(list)
}

/// The least map from literals to targets, whose literals have these labels; `None` where there is
/// none.
pub(crate) fn least_of_parts<'a>(
    alloc: Global,
    task: &Task<'a>,
    labels: Vec<usize>,
) -> Result<Option<LitMap>, AllocError>
    requires searchable { IsSearchable task.now }
    requires few { length task.now.targets.now < 2 ^ 32 }
    requires parts { AreParts task.now.slots task.now.literals.now labels.items }
    requires fixed { AllByRecursion (λ b. AreFixed task.now.slots b.now) task.now.targets.now }
    ensures { IfOk result (FindsMap task.now) }
{
    let chains = Chains::of(alloc, labels)?;
    let grouped = chains.grouped(alloc, task.literals)?;
    let mut numbers = vec![in alloc; 0; task.literals.len()]?;
    let mut trail = Trail::with_slots(alloc, task.slots.count())?;
    if !search_parts(alloc, &mut trail, task, &chains, &grouped, &mut numbers)? {
        return Ok(None);
    }
    let list = map_of(alloc, &numbers)?;
    Ok(Some(list))
}
