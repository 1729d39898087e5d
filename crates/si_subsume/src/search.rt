// The search for the least map.
ghost use Rattle.std.specs.Prelude.{IsTrue, ◌≡◌, ◌↔◌, ℕ, ◌<◌, [], length, IfOk};
ghost use Rattle.si_subsume.specs.Heads.{head_of, first_cell, IsFirstToTry};
ghost use Rattle.si_unify.specs.Solving.{AllowsSolving};
ghost use Rattle.si_subsume.specs.Search.{IsFlatLiteral, NextNumber};
ghost use Rattle.si_subsume.specs.Tasks.{IsSearchable, TriesTarget, FindsNextTarget, SearchStandsAt, CannotGoOn, Advances, EachHasTarget, FindsChoices};

use crate::heads::{Heads, head_of};
use si_flat::Cell;
use si_trail::Trail;
use si_unify::{Scratch, Slots, solve_with};
use std::alloc::{AllocError, Global};

/// A target that was chosen for a literal.
#[derive(Clone, Copy)]
pub(crate) struct Choice {
    /// The number of the target, from 0.
    pub(crate) number: usize,
    /// The number of bindings before.
    pub(crate) mark: usize,
}

/// What is searched through.
#[derive(Clone, Copy)]
pub(crate) struct Task<'a> {
    pub(crate) slots: Slots,
    pub(crate) literals: &'a [&'a [Cell]],
    pub(crate) targets: &'a [&'a [Cell]],
    pub(crate) heads: &'a Heads,
}

// Takes the literal to a target, if its number is no smaller than `from`.
fn take_from<'a>(
    scratch: &mut Scratch,
    trail: &mut Trail<&'a [Cell]>,
    task: &Task<'a>,
    literal: &'a [Cell],
    number: usize,
    from: usize,
) -> Result<bool, AllocError>
    requires literal { IsFlatLiteral task.now.slots literal.now }
    requires searchable { IsSearchable task.now }
    requires inside { number < length task.now.targets.now }
    requires ready { AllowsSolving task.now.slots trail.old.pairs trail.old.slots }
    ensures tries { IfOk result (TriesTarget task.now trail.old.pairs trail.new.pairs literal.now
        from number) }
    ensures slots { trail.new.slots ≡ trail.old.slots }
    ensures ready { AllowsSolving task.now.slots trail.new.pairs trail.new.slots }
{
    if number < from {
        return Ok(false);
    }
    solve_with(scratch, trail, &task.slots, literal, task.targets[number])
}

// The target to begin with, where none below `from` is of use. After a target with the literal's
// head, as where the search goes on, the next one is known; else it is the first with that head.
fn first_to_try(task: &Task<'_>, literal: &[Cell], from: usize) -> usize
    requires literal { 0 < length literal.now }
    requires searchable { IsSearchable task.now }
    ensures { IsFirstToTry task.now.targets.now (head_of (first_cell literal.now)) from result }
{
    let end = task.targets.len();
    if from >= end {
        return end;
    }
    if from > 0 && head_of(task.targets[from - 1][0]) == head_of(literal[0]) {
        return task.heads.next(from - 1);
    }
    task.heads.first(literal[0], end)
}

// Finds the first target from a number on to which the literal can be taken, and binds what that
// takes. Only those with its head are looked at.
fn find<'a>(
    scratch: &mut Scratch,
    trail: &mut Trail<&'a [Cell]>,
    task: &Task<'a>,
    literal: &'a [Cell],
    from: usize,
) -> Result<Option<usize>, AllocError>
    requires literal { IsFlatLiteral task.now.slots literal.now }
    requires searchable { IsSearchable task.now }
    requires ready { AllowsSolving task.now.slots trail.old.pairs trail.old.slots }
    ensures finds { IfOk result (FindsNextTarget task.now trail.old.pairs trail.new.pairs
        literal.now from) }
    ensures ready { IfOk result
        (λ found. AllowsSolving task.now.slots trail.new.pairs trail.new.slots) }
{
    let mut number = first_to_try(task, literal, from);
    while number < task.targets.len() {
        if take_from(scratch, trail, task, literal, number, from)? {
            return Ok(Some(number));
        }
        number = task.heads.next(number);
    }
    Ok(None)
}

// The number from which the literal of a choice that came to nothing goes on. Where the choice
// bound nothing, every other target that the literal can be taken to is equal to that one.
fn next_number(choice: Choice, mark: usize, end: usize) -> usize
    requires { choice.number < end }
    ensures { NextNumber choice mark end result }
{
    if mark == choice.mark {
        return end;
    }
    choice.number + 1
}

// Takes the last choice back. It tells from which target on its literal goes on.
fn retreat<'a>(
    trail: &mut Trail<&'a [Cell]>,
    task: &Task<'a>,
    choices: &mut Vec<Choice>,
) -> Option<usize>
    requires dead { CannotGoOn task.now choices.old.items trail.old.pairs }
    requires ready { AllowsSolving task.now.slots trail.old.pairs trail.old.slots }
    ensures advances { (from : ℕ) → Advances task.now choices.old.items from choices.new.items
        trail.new.pairs result }
    ensures ready { AllowsSolving task.now.slots trail.new.pairs trail.new.slots }
{
    match choices.pop() {
        Some(choice) => {
            let next = next_number(choice, trail.mark(), task.targets.len());
            trail.undo(choice.mark);
            Some(next)
        }
        None => None,
    }
}

// Chooses a target for the next literal, or takes the last choice back. It tells from which target
// on the search goes on; `None` where there is no map.
fn turn<'a>(
    scratch: &mut Scratch,
    trail: &mut Trail<&'a [Cell]>,
    task: &Task<'a>,
    choices: &mut Vec<Choice>,
    from: usize,
) -> Result<Option<usize>, AllocError>
    requires searchable { IsSearchable task.now }
    requires ready { AllowsSolving task.now.slots trail.old.pairs trail.old.slots }
    requires stands { SearchStandsAt task.now choices.old.items trail.old.pairs from }
    requires more { length choices.old.items < length task.now.literals.now }
    ensures advances { IfOk result (Advances task.now choices.old.items from choices.new.items
        trail.new.pairs) }
    ensures ready { IfOk result
        (λ next. AllowsSolving task.now.slots trail.new.pairs trail.new.slots) }
{
    let literal = task.literals[choices.len()];
    let mark = trail.mark();
    match find(scratch, trail, task, literal, from)? {
        Some(number) => {
            choices.push(Choice { number, mark })?;
            Ok(Some(0))
        }
        None => Ok(retreat(trail, task, choices)),
    }
}

/// Whether each literal has a target with its head. Without one there is no map.
pub(crate) fn each_has_target(task: &Task<'_>) -> bool
    requires searchable { IsSearchable task.now }
    ensures { IsTrue result ↔ EachHasTarget task.now }
{
    let end = task.targets.len();
    for i in 0..task.literals.len() {
        let literal = task.literals[i];
        if task.heads.first(literal[0], end) == end {
            return false;
        }
    }
    true
}

/// The targets of the least map, in order; `None` where there is no map.
pub(crate) fn search<'a>(
    alloc: Global,
    trail: &mut Trail<&'a [Cell]>,
    task: &Task<'a>,
) -> Result<Option<Vec<Choice>>, AllocError>
    requires searchable { IsSearchable task.now }
    requires ready { AllowsSolving task.now.slots trail.old.pairs trail.old.slots }
    requires unbound { trail.old.pairs ≡ [] }
    ensures finds { IfOk result (FindsChoices task.now) }
    ensures ready { IfOk result
        (λ found. AllowsSolving task.now.slots trail.new.pairs trail.new.slots) }
{
    let mut scratch = Scratch::new(alloc);
    let mut choices = Vec::new(alloc);
    let mut from = 0;
    while choices.len() < task.literals.len() {
        let Some(next) = turn(&mut scratch, trail, task, &mut choices, from)? else {
            return Ok(None);
        };
        from = next;
    }
    Ok(Some(choices))
}
