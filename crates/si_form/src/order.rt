// Numbers in an order in which none stands after one that it uses.
ghost use Rattle.std.specs.Prelude.{◌≡◌, ℕ, ◌+◌, ◌<◌, ◌^◌, ◌↔◌, [], List, length, set, slice_index_or, IfOk, OnOk};
ghost use Rattle.std.specs.List.{AllByRecursion};
ghost use Rattle.si_defs.specs.Substitutions.{IsAmong};
ghost use Rattle.si_form.specs.Ordering.{uses_at, times_among, times_used, listed_below, HasNoCircle, AreOrdered, IsPartlyOrdered, IsListedFree};

use std::alloc::{AllocError, Global};
use std::collections::BTreeSet;

// Counts one use more. No count overflows: there are fewer than 2 ^ 64 lists, each shorter than
// that.
fn raise(counts: &mut Vec<u128>, at: usize)
    requires inside { at < length counts.old.items }
    requires room { slice_index_or counts.old.items at 0 + 1 < 2 ^ 128 }
    ensures { counts.new.items ≡ set counts.old.items at
        (slice_index_or counts.old.items at 0 + 1) }
{
    counts[at] += 1;
}

// Counts one use less, and tells how many are left.
fn lower(counts: &mut Vec<u128>, at: usize) -> u128
    requires inside { at < length counts.old.items }
    requires some { 0 < slice_index_or counts.old.items at 0 }
    ensures counts { counts.new.items ≡ set counts.old.items at result }
    ensures less { result + 1 ≡ slice_index_or counts.old.items at 0 }
{
    counts[at] -= 1;
    counts[at]
}

// Counts the uses of a list.
fn raise_each(counts: &mut Vec<u128>, used: &[usize])
    requires inside { AllByRecursion (λ j. j < length counts.old.items) used.now }
    requires room { (j : ℕ) → slice_index_or counts.old.items j 0 + length used.now < 2 ^ 128 }
    ensures long { length counts.new.items ≡ length counts.old.items }
    ensures counted { (j : ℕ) → slice_index_or counts.new.items j 0
        ≡ slice_index_or counts.old.items j 0 + times_among used.now j }
{
    for &number in used {
        raise(counts, number);
    }
}

// How often each number is used.
fn count(alloc: Global, lists: &[Option<Vec<usize>>]) -> Result<Vec<u128>, AllocError>
    requires { HasNoCircle (uses_at lists.now) (length lists.now) }
    ensures long { IfOk result (λ counts. length counts.items ≡ length lists.now) }
    ensures counted { IfOk result (λ counts. (j : ℕ) → slice_index_or counts.items j 0
        ≡ times_used (uses_at lists.now)
        (listed_below (uses_at lists.now) (length lists.now)) j) }
{
    let mut counts = Vec::new(alloc);
    counts.resize(lists.len(), 0)?;
    for k in 0..lists.len() {
        let Some(used) = &lists[k] else {
            continue;
        };
        raise_each(&mut counts, used);
    }
    Ok(counts)
}

// The numbers that are to be ordered and that none uses.
fn find_free(
    alloc: Global,
    lists: &[Option<Vec<usize>>],
    counts: &[u128],
) -> Result<BTreeSet<usize>, AllocError>
    requires { length counts.now ≡ length lists.now }
    ensures { IfOk result (λ free. (j : ℕ) → IsAmong free.keys j
        ↔ IsListedFree (uses_at lists.now) (length lists.now) counts.now j) }
{
    let mut free = BTreeSet::new(alloc);
    for k in 0..lists.len() {
        let Some(_) = &lists[k] else {
            continue;
        };
        if counts[k] > 0 {
            continue;
        }
        free.insert(k)?;
    }
    Ok(free)
}

// Takes what a number used from the counts; what none uses any more is free.
fn release(
    lists: &[Option<Vec<usize>>],
    counts: &mut Vec<u128>,
    free: &mut BTreeSet<usize>,
    used: &[usize],
) -> Result<(), AllocError>
    requires { (order : List ℕ) × IsPartlyOrdered (uses_at lists.now) (length lists.now)
        counts.old.items free.old.keys order used.now }
    ensures { OnOk result ((order : List ℕ) → IsPartlyOrdered (uses_at lists.now)
        (length lists.now) counts.old.items free.old.keys order used.now
        → IsPartlyOrdered (uses_at lists.now)
        (length lists.now) counts.new.items free.new.keys order []) }
{
    for &number in used {
        if lower(counts, number) > 0 {
            continue;
        }
        let Some(_) = &lists[number] else {
            continue;
        };
        free.insert(number)?;
    }
    Ok(())
}

/// The numbers that have a list, in order: at each place stands the least that no other from there
/// on uses.
pub(crate) fn order(alloc: Global, lists: &[Option<Vec<usize>>]) -> Result<Vec<usize>, AllocError>
    requires { HasNoCircle (uses_at lists.now) (length lists.now) }
    ensures { IfOk result (λ order. AreOrdered (uses_at lists.now) order.items) }
{
    let mut counts = count(alloc, lists)?;
    let mut free = find_free(alloc, lists, &counts)?;
    let mut order = Vec::new(alloc);
    while let Some(next) = free.pop_first() {
        order.push(next)?;
        let Some(used) = &lists[next] else {
            unreachable!()
        };
        release(lists, &mut counts, &mut free, used)?;
    }
    Ok(order)
}
