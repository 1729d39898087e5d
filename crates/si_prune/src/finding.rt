// What stands in bindings, found by the indicator. Few bindings are walked over, which takes no
// memory. Many are put in order once, so that each is found by halves.
ghost use Rattle.std.specs.Prelude.{◌≡◌, ◌≢◌, ◌∷◌, [], ◌==◌, ◌++◌, All, IfNone, IfOk, IfSome, OnOk};
ghost use Rattle.std.specs.List.{list_any};
ghost use Rattle.std.specs.List.Sorted.{IsNonDecreasingBy};
ghost use Rattle.si_defs.specs.Substitutions.{AreDistinct, IsAmong};
ghost use Rattle.si_flat.specs.declared.Cell.TheVariants.{Ind};
ghost use Rattle.si_flat.specs.Rows.{left_sides};
ghost use Rattle.si_tree.specs.Numbers.{indicators_in, rights_in};
ghost use Rattle.si_prune.specs.Pruning.{AreInLeftOrder, AreNumbersInOrder, part_in};

use si_flat::{Bindings, Cell, Pair};
use std::alloc::{AllocError, Global};

// So many bindings are walked over as fast as they are found by halves.
const FEW: usize = 8;

/// The bindings in order of their left sides, and none where they are few.
pub(crate) fn in_order<'a>(
    alloc: Global,
    bindings: &'a Bindings,
) -> Result<Option<Vec<Pair<'a>>>, AllocError>
    requires { AreDistinct (left_sides bindings.now) }
    ensures { IfOk result
        (λ order. IfSome order (λ pairs. AreInLeftOrder bindings.now pairs.items)) }
{
    if bindings.len() <= FEW {
        return Ok(None);
    }
    let mut order = Vec::with_capacity(alloc, bindings.len())?;
    for pair in bindings.pairs() {
        order.push(pair)?;
    }
    order.sort_unstable_by_key(|pair| pair.left());
    Ok(Some(order))
}

/// The right side that is bound to an indicator.
pub(crate) fn bound_to<'a>(
    bindings: &'a Bindings,
    order: &Option<Vec<Pair<'a>>>,
    number: u32,
) -> Option<&'a [Cell]>
    requires { IfSome order.now (λ pairs. AreInLeftOrder bindings.now pairs.items) }
    ensures some { IfSome result (λ right. part_in bindings.now number ≡ right.now) }
    ensures none { IfNone result (part_in bindings.now number ≡ Ind number ∷ []) }
{
    match order {
        Some(pairs) => found_in(pairs.as_slice(), number),
        None => walked_to(bindings, number),
    }
}

// The right side that is bound to an indicator, found by halves.
fn found_in<'a>(pairs: &[Pair<'a>], number: u32) -> Option<&'a [Cell]>
    requires { IsNonDecreasingBy (λ pair. pair.0) pairs.now }
    ensures some { IfSome result (λ right. IsAmong pairs.now (number, right.now)) }
    ensures none { IfNone result (All (λ pair. pair.0 ≢ number) pairs.now) }
{
    match pairs.binary_search_by_key(&number, |pair| pair.left()) {
        Ok(place) => Some(pairs[place].right()),
        Err(_) => None,
    }
}

// The right side that is bound to an indicator, found by a walk.
fn walked_to<'a>(bindings: &'a Bindings, number: u32) -> Option<&'a [Cell]>
    ensures some { IfSome result (λ right. part_in bindings.now number ≡ right.now) }
    ensures none { IfNone result (part_in bindings.now number ≡ Ind number ∷ []) }
{
    for pair in bindings.pairs() {
        if pair.left() == number {
            return Some(pair.right());
        }
    }
    None
}

/// The indicators on the right sides of bindings in order of their numbers, and none where few are
/// asked for.
pub(crate) fn opened_in_order(
    alloc: Global,
    bindings: &Bindings,
    asked: usize,
) -> Result<Option<Vec<u32>>, AllocError>
    ensures { IfOk result (λ opened. IfSome opened (λ numbers.
        AreNumbersInOrder (rights_in bindings.now) numbers.items)) }
{
    if asked <= FEW {
        return Ok(None);
    }
    let mut opened = opened_by(alloc, bindings)?;
    opened.sort_unstable();
    Ok(Some(opened))
}

// The indicators on the right sides of bindings, in order.
fn opened_by(alloc: Global, bindings: &Bindings) -> Result<Vec<u32>, AllocError>
    ensures { IfOk result (λ opened. opened.items ≡ rights_in bindings.now) }
{
    let mut opened = Vec::new(alloc);
    for pair in bindings.pairs() {
        push_indicators(&mut opened, pair.right())?;
    }
    Ok(opened)
}

// Appends the indicators among cells.
fn push_indicators(opened: &mut Vec<u32>, cells: &[Cell]) -> Result<(), AllocError>
    ensures { OnOk result (opened.new.items ≡ opened.old.items ++ indicators_in cells.now) }
{
    for cell in cells {
        let Cell::Ind(number) = *cell else {
            continue;
        };
        opened.push(number)?;
    }
    Ok(())
}

/// Whether the indicator is on a right side of bindings.
pub(crate) fn opens(bindings: &Bindings, opened: &Option<Vec<u32>>, number: u32) -> bool
    requires { IfSome opened.now (λ numbers.
        AreNumbersInOrder (rights_in bindings.now) numbers.items) }
    ensures { result ≡ list_any (λ n. n == number) (rights_in bindings.now) }
{
    match opened {
        Some(numbers) => numbers.binary_search(&number).is_ok(),
        None => is_on_right(bindings, number),
    }
}

// Whether the indicator is on a right side, found by a walk.
fn is_on_right(bindings: &Bindings, number: u32) -> bool
    ensures { result ≡ list_any (λ n. n == number) (rights_in bindings.now) }
{
    for pair in bindings.pairs() {
        if has_indicator(pair.right(), number) {
            return true;
        }
    }
    false
}

// Whether the indicator is among cells.
fn has_indicator(cells: &[Cell], number: u32) -> bool
    ensures { result ≡ list_any (λ n. n == number) (indicators_in cells.now) }
{
    for cell in cells {
        let Cell::Ind(other) = *cell else {
            continue;
        };
        if other == number {
            return true;
        }
    }
    false
}
