// The leader of each class: the first variable in it.
ghost use Rattle.std.specs.Prelude.{◌≡◌, ◌<◌, true, length, set, slice_index_or, None, IfOk};
ghost use Rattle.std.specs.List.{AllByRecursion};
ghost use Rattle.si_unify.specs.declared.slots.Slots.{Slots};
ghost use Rattle.si_form.specs.Folding.{or_slot, LeadClasses};

use crate::classes::Classes;
use std::alloc::{AllocError, Global};

// Gives a class a leader, if it has none.
fn lead(leaders: &mut Vec<Option<usize>>, class: usize, slot: usize)
    requires { class < length leaders.old.items }
    ensures { leaders.new.items ≡ set leaders.old.items class
        (or_slot (slice_index_or leaders.old.items class None) true slot) }
{
    if leaders[class].is_none() {
        leaders[class] = Some(slot);
    }
}

/// For each class the slot of the first variable in it.
pub(crate) fn leaders(alloc: Global, classes: &Classes) -> Result<Vec<Option<usize>>, AllocError>
    requires { AllByRecursion (λ n. n < length classes.now.nodes.keys) classes.now.of_slots.items }
    ensures long { IfOk result
        (λ leaders. length leaders.items ≡ length classes.now.nodes.keys) }
    ensures leads { IfOk result (λ leaders. (slots : Slots) → LeadClasses slots
        classes.now.nodes.keys classes.now.of_slots.items (length classes.now.of_slots.items)
        leaders.items) }
{
    let mut leaders = Vec::new(alloc);
    leaders.resize(classes.nodes.len(), None)?;
    for slot in 0..classes.of_slots.len() {
        lead(&mut leaders, classes.of_slots[slot], slot);
    }
    Ok(leaders)
}
