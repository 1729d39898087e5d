// Which variables of the query an entry's became.
ghost use Rattle.std.specs.Prelude.{◌≡◌, ◌<◌, ◌≤◌, [], IfOk, OnErr, is_none, length, take};
ghost use Rattle.si_defs.specs.declared.Relation.TheVariants.{Variants};
ghost use Rattle.si_trail.specs.Trails.{value_at};
ghost use Rattle.si_descend.specs.Renaming.{TakesVariable};
ghost use Rattle.si_descend.specs.Lending.{IsTableFor};

use si_defs::Relation;
use si_trail::Trail;
use si_unify::Slots;
use std::alloc::{AllocError, Global};
use std::marker::Model;

/// The variables of a query that are taken in a search for variants, in the order in which they
/// were: an entry's variable became each of them.
///
/// It is made once and lent to each search, which leaves it empty. Contracts see it as the trail of
/// those that are taken, with a slot for each variable that can be.
#[derive(Drop)]
pub struct Taken {
    trail: Option<Trail<()>>,
}

impl Model for Taken {
    ghost use Rattle.si_trail.specs.Trails.{Trail as Seen};
    ghost use Rattle.si_descend.specs.Renaming.{taken_in};

    ghost Value = { Seen (Unit {0}) };

    ghost view = { λ t. taken_in t.trail };
}

impl Taken {
    /// None is taken yet. It serves for each relation, and for queries that have no more than so
    /// many variables. No search takes more memory.
    ///
    /// # Errors
    ///
    /// `AllocError` where there is no memory.
    pub fn with_slots(alloc: Global, n: usize) -> Result<Taken, AllocError>
        ensures { IfOk result (λ t. t ≡ record { slots = n; pairs = [] }) }
    {
        let trail = Trail::with_slots(alloc, n)?;
        Ok(Taken { trail: Some(trail) })
    }

    /// The same for one relation and the slots of one query. Where no variants are sought none can
    /// be taken, and there is no memory for any.
    ///
    /// # Errors
    ///
    /// `AllocError` where variants are sought and there is no memory.
    pub fn none(alloc: Global, relation: Relation, slots: &Slots) -> Result<Taken, AllocError>
        ensures none { IfOk result (IsTableFor relation slots.now) }
        ensures err { OnErr result (relation ≡ Variants) }
    {
        match relation {
            Relation::Variants => {
                let trail = Trail::with_slots(alloc, slots.query as usize)?;
                Ok(Taken { trail: Some(trail) })
            }
            Relation::Instances => Ok(Taken { trail: None }),
            Relation::Generalizations => Ok(Taken { trail: None }),
            Relation::Unifiable => Ok(Taken { trail: None }),
        }
    }

    /// How many are taken. It is what [`Taken::undo`] takes to come back here.
    pub(crate) fn mark(&self) -> usize
        ensures { result ≡ length self.now.pairs }
    {
        match &self.trail {
            Some(trail) => trail.mark(),
            None => 0,
        }
    }

    /// Only the first so many stay taken.
    pub(crate) fn undo(&mut self, mark: usize)
        requires { mark ≤ length self.old.pairs }
        ensures pairs { self.new.pairs ≡ take mark self.old.pairs }
        ensures slots { self.new.slots ≡ self.old.slots }
    {
        match &mut self.trail {
            Some(trail) => trail.undo(mark),
            None => {}
        }
    }

    /// Takes a variable, if it isn't taken.
    pub(crate) fn take(&mut self, number: u32) -> bool
        requires { number < self.old.slots }
        ensures free { result ≡ is_none (value_at self.old.pairs number) }
        ensures takes { TakesVariable self.old.pairs number self.new.pairs result }
        ensures slots { self.new.slots ≡ self.old.slots }
    {
        match &mut self.trail {
            Some(trail) => take(trail, number),
            None => unreachable!(),
        }
    }
}

// The same over a trail.
fn take(trail: &mut Trail<()>, number: u32) -> bool
    requires { number < trail.old.slots }
    ensures free { result ≡ is_none (value_at trail.old.pairs number) }
    ensures takes { TakesVariable trail.old.pairs number trail.new.pairs result }
    ensures slots { trail.new.slots ≡ trail.old.slots }
{
    if trail.get(number as usize).is_some() {
        return false;
    }
    trail.bind(number as usize, ());
    true
}
