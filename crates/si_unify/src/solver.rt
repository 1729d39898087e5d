// From two terms to the bindings that make them equal.
ghost use Rattle.std.specs.Prelude.{◌≡◌, ℕ, ◌+◌, ◌*◌, ◌<◌, ◌≤◌, ◌^◌, [], length, true, false, Ok, IfOk, OnErr, vec_capacity};
ghost use Rattle.std.specs.List.{AllByRecursion};
ghost use Rattle.si_defs.specs.Substitutions.{Grows};
ghost use Rattle.si_flat.specs.Cells.{IsWhole};
ghost use Rattle.si_unify.specs.Rooms.{AreNoLongerThan, IsEnoughToSolve, IsNoLessRoom};
ghost use Rattle.si_unify.specs.Scratch.{HoldNothing, buffers_room};
ghost use Rattle.si_unify.specs.Solving.{slot_count, AreInRange, IsAcyclic, IsBinding, AreHandedIn, HasSolved};
ghost use Rattle.si_unify.specs.States.{AreNew};
ghost use Rattle.si_unify.specs.Spots.{HasAnswered};
ghost use Rattle.si_unify.specs.Unifying.{IsUnifying, HasRoomToUnify, KeepsQuestion};

use crate::circles::{Visit, is_triangular};
use crate::scratch::{Buffers, Scratch};
use crate::slots::Slots;
use crate::spots::Question;
use crate::states::States;
use crate::unifier::Unifier;
use si_flat::Cell;
use si_trail::Trail;
use std::alloc::{AllocError, Global};

impl<'s, 'a> Unifier<'s, 'a> {
    // Makes the two terms equal, and leaves what it bound.
    fn solve(&mut self, states: &mut States, visits: &mut Vec<Visit>) -> Result<bool, AllocError>
        requires underway { IsUnifying self.old }
        requires triangular { IsAcyclic self.old.question.slots self.old.trail.now.pairs }
        requires left_small { length self.old.question.left.now < 2 ^ 64 }
        requires right_small { length self.old.question.right.now < 2 ^ 64 }
        requires no_keys { self.old.keys.now.keys ≡ [] }
        requires fresh { AreNew states.old.items }
        requires no_visits { visits.old.items ≡ [] }
        ensures answered { IfOk result (HasAnswered self.old.question self.old.trail.now.pairs
            self.new.trail.now.pairs) }
        ensures grows { Grows self.old.trail.now.pairs self.new.trail.now.pairs }
        ensures full { OnErr result ((n : ℕ) → HasRoomToUnify n self.old
            → slot_count self.old.question.slots ≤ states.old.room
            → slot_count self.old.question.slots * (n + 2) ≤ vec_capacity visits.old → ⊥) }
        ensures keeps_question { KeepsQuestion self.old self.new }
        ensures keeps_states { states.old.room ≤ states.new.room }
        ensures keeps_visits { vec_capacity visits.old ≤ vec_capacity visits.new }
    {
        let mark = self.trail.mark();
        if !self.meet_terms()? {
            return Ok(false);
        }
        if !self.close()? {
            return Ok(false);
        }
        is_triangular(states, visits, self.trail, &self.question.slots, mark)
    }
}

// Makes two terms equal, and leaves what it bound.
fn attempt<'a>(
    buffers: &mut Buffers,
    trail: &mut Trail<&'a [Cell]>,
    question: &Question<'a>,
) -> Result<bool, AllocError>
    requires clear { HoldNothing buffers.old }
    requires left { IsWhole question.now.left.now }
    requires right { IsWhole question.now.right.now }
    requires left_small { length question.now.left.now < 2 ^ 64 }
    requires right_small { length question.now.right.now < 2 ^ 64 }
    requires left_range { AreInRange question.now.slots question.now.left.now }
    requires right_range { AreInRange question.now.slots question.now.right.now }
    requires room { slot_count question.now.slots ≤ trail.old.slots }
    requires bindings { AllByRecursion (IsBinding question.now.slots) trail.old.pairs }
    requires triangular { IsAcyclic question.now.slots trail.old.pairs }
    ensures answered { IfOk result (HasAnswered question.now trail.old.pairs trail.new.pairs) }
    ensures grows { Grows trail.old.pairs trail.new.pairs }
    ensures full { OnErr result ((n : ℕ) → AreNoLongerThan n trail.old.pairs
        → length question.now.left.now ≤ n → length question.now.right.now ≤ n
        → IsEnoughToSolve question.now.slots n (buffers_room buffers.old) → ⊥) }
    ensures keeps { IsNoLessRoom (buffers_room buffers.old) (buffers_room buffers.new) }
    ensures slots { trail.new.slots ≡ trail.old.slots }
{
    let mut unifier = Unifier {
        question: *question,
        trail,
        keys: &mut buffers.keys,
        heights: &mut buffers.heights,
    };
    unifier.solve(&mut buffers.states, &mut buffers.visits)
}

/// Makes two terms equal by binding variables, over the bindings that are there.
///
/// It tells whether that can be done. Where it can't, and where memory runs out, the bindings are
/// as before.
pub fn solve<'a>(
    alloc: Global,
    trail: &mut Trail<&'a [Cell]>,
    slots: &Slots,
    s: &'a [Cell],
    t: &'a [Cell],
) -> Result<bool, AllocError>
    requires left { IsWhole s.now }
    requires right { IsWhole t.now }
    requires left_range { AreInRange slots.now s.now }
    requires right_range { AreInRange slots.now t.now }
    requires room { slot_count slots.now ≤ trail.old.slots }
    requires bindings { AllByRecursion (IsBinding slots.now) trail.old.pairs }
    requires triangular { IsAcyclic slots.now trail.old.pairs }
    ensures solved { IfOk result (HasSolved slots.now trail.old.pairs trail.new.pairs s.now t.now) }
    ensures grows { result ≡ Ok true → Grows trail.old.pairs trail.new.pairs }
    ensures no { result ≡ Ok false → trail.new.pairs ≡ trail.old.pairs }
    ensures err { OnErr result (trail.new.pairs ≡ trail.old.pairs) }
    ensures slots { trail.new.slots ≡ trail.old.slots }
    ensures bindings { AllByRecursion (IsBinding slots.now) trail.new.pairs }
    ensures triangular { IsAcyclic slots.now trail.new.pairs }
    ensures handed_in { AreHandedIn trail.old.pairs trail.new.pairs s.now t.now }
{
    solve_with(&mut Scratch::new(alloc), trail, slots, s, t)
}

/// Does the same as [`solve`] in memory that is lent: for callers that solve many times.
///
/// # Errors
///
/// `AllocError` where there is no memory, but never where the scratch has room enough for all terms
/// and bindings as long as these. [`Scratch::reserve`] makes so much room.
pub fn solve_with<'a>(
    scratch: &mut Scratch,
    trail: &mut Trail<&'a [Cell]>,
    slots: &Slots,
    s: &'a [Cell],
    t: &'a [Cell],
) -> Result<bool, AllocError>
    requires left { IsWhole s.now }
    requires right { IsWhole t.now }
    requires left_range { AreInRange slots.now s.now }
    requires right_range { AreInRange slots.now t.now }
    requires room { slot_count slots.now ≤ trail.old.slots }
    requires bindings { AllByRecursion (IsBinding slots.now) trail.old.pairs }
    requires triangular { IsAcyclic slots.now trail.old.pairs }
    ensures solved { IfOk result (HasSolved slots.now trail.old.pairs trail.new.pairs s.now t.now) }
    ensures grows { result ≡ Ok true → Grows trail.old.pairs trail.new.pairs }
    ensures no { result ≡ Ok false → trail.new.pairs ≡ trail.old.pairs }
    ensures err { OnErr result (trail.new.pairs ≡ trail.old.pairs) }
    ensures full { OnErr result ((n : ℕ) → AreNoLongerThan n trail.old.pairs
        → length s.now ≤ n → length t.now ≤ n → IsEnoughToSolve slots.now n scratch.old → ⊥) }
    ensures keeps { IsNoLessRoom scratch.old scratch.new }
    ensures slots { trail.new.slots ≡ trail.old.slots }
    ensures bindings { AllByRecursion (IsBinding slots.now) trail.new.pairs }
    ensures triangular { IsAcyclic slots.now trail.new.pairs }
    ensures handed_in { AreHandedIn trail.old.pairs trail.new.pairs s.now t.now }
{
    let mark = trail.mark();
    let question = Question {
        slots: *slots,
        left: s,
        right: t,
    };
    let answer = attempt(&mut scratch.buffers, trail, &question);
    scratch.buffers.clear();
    match answer {
        Ok(true) => Ok(true),
        Ok(false) => {
            trail.undo(mark);
            Ok(false)
        }
        Err(error) => {
            trail.undo(mark);
            Err(error)
        }
    }
}
