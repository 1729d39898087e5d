// Counts of a list of places, from which a rank and the place of a rank are found. Sums over halves
// stand above them, so that a search looks at one sum of each length; no clause speaks of time.
ghost use Rattle.std.specs.Prelude.{◌≡◌, ◌<◌, ◌≤◌, ◌+◌, ◌-◌, ◌^◌, [], ◌∷◌, ◌++◌, IfSome, IfNone, OnOk, OnErr, length, take, replicate, slice_index_or, slice_set, vec_capacity};
ghost use Rattle.si_keyed.specs.Halves.{halves, sum_of};
ghost use Rattle.si_keyed.specs.Ranks.{IsSummed, HasRoom};

use std::alloc::{AllocError, Global};
use std::marker::Model;

/// How much stands at each place of a list, with the sums of neighbours above it.
///
/// Contracts see the list of the counts.
#[derive(Drop)]
#[cycle(ranks)]
pub struct Ranks {
    counts: Vec<usize>,
    above: Above,
}

/// The sums of neighbours, where there are neighbours.
#[derive(Drop)]
#[cycle(ranks)]
enum Above {
    Nothing,
    Sums(Box<Ranks>),
}

impl Model for Ranks {
    ghost use Rattle.std.specs.Prelude.{List, ℕ, length};

    ghost Value = { List ℕ };

    ghost use Rattle.si_keyed.specs.Ranks.{IsSummed};

    ghost view = { λ r. r.counts.items };

    ghost invariant = { λ r. IsSummed r.counts.items r.above };

    ghost size = { length };

    ghost use Rattle.si_keyed.specs.RanksFall.{fewer};

    ghost size_decreases = { λ r h. fewer r.counts.items r.above h };
}

impl Ranks {
    /// No places.
    pub fn new(alloc: Global) -> Ranks
        ensures { result ≡ [] }
    {
        Ranks {
            counts: Vec::new(alloc),
            above: Above::Nothing,
        }
    }

    /// What stands before a place.
    pub fn before(&self, place: usize) -> usize
        requires inside { place ≤ length self.now }
        requires small { sum_of self.now < 2 ^ 64 }
        ensures { result ≡ sum_of (take place self.now) }
    {
        match &self.above {
            Above::Nothing if place == 0 => 0,
            Above::Nothing => self.counts[0],
            Above::Sums(above) => {
                let pairs = above.before(place / 2);
                if place % 2 == 0 {
                    pairs
                } else {
                    pairs + self.counts[place - 1]
                }
            }
        }
    }

    /// The place at which the item with this number from 0 stands, and how many stand there before
    /// it.
    pub fn find(&self, number: usize) -> (usize, usize)
        requires inside { number < sum_of self.now }
        requires small { sum_of self.now < 2 ^ 64 }
        ensures before { sum_of (take result.0 self.now) + result.1 ≡ number }
        ensures there { result.1 < slice_index_or self.now result.0 0 }
    {
        match &self.above {
            Above::Nothing => (0, number),
            Above::Sums(above) => {
                let (pair, rest) = above.find(number);
                let first = self.counts[2 * pair];
                if rest < first {
                    (2 * pair, rest)
                } else {
                    (2 * pair + 1, rest - first)
                }
            }
        }
    }

    /// One more at a place.
    pub fn raise(&mut self, place: usize)
        requires inside { place < length self.old }
        requires small { sum_of self.old + 1 < 2 ^ 64 }
        ensures { self.new ≡ slice_set self.old place (slice_index_or self.old place 0 + 1) }
    {
        self.counts[place] += 1;
        if let Above::Sums(above) = &mut self.above {
            above.raise(place / 2);
        }
    }

    /// One fewer at a place.
    pub fn lower(&mut self, place: usize)
        requires inside { place < length self.old }
        requires some { 0 < slice_index_or self.old place 0 }
        ensures { self.new ≡ slice_set self.old place (slice_index_or self.old place 0 - 1) }
    {
        self.counts[place] -= 1;
        if let Above::Sums(above) = &mut self.above {
            above.lower(place / 2);
        }
    }

    /// A further place, with one item. At an error all is as before.
    #[cycle(push)]
    pub fn push(&mut self, alloc: Global) -> Result<(), AllocError>
        requires small { sum_of self.old + 1 < 2 ^ 64 }
        ensures ok { OnOk result (self.new ≡ self.old ++ 1 ∷ []) }
        ensures err { OnErr result (self.new ≡ self.old) }
    {
        self.counts.reserve(1)?;
        grow(alloc, self.counts.as_slice(), &mut self.above)?;
        self.counts.push(1).unwrap();
        Ok(())
    }

    /// One item at each of so many places, and no others. It takes no memory.
    pub fn refill(&mut self, places: usize)
        requires { places ≤ length self.old }
        ensures { self.new ≡ replicate places 1 }
    {
        put_ones(places, &mut self.counts);
        settle(self.counts.as_slice(), &mut self.above);
    }

    /// The sums of neighbours among these counts. It takes no memory.
    #[cycle(settle)]
    fn sum_up(&mut self, below: &[usize])
        requires some { 2 ≤ length below.now }
        requires room { length (halves below.now) ≤ length self.old }
        requires small { sum_of below.now < 2 ^ 64 }
        ensures { self.new ≡ halves below.now }
    {
        put_halves(below, &mut self.counts);
        settle(self.counts.as_slice(), &mut self.above);
    }
}

/// Writes so many ones in place of what was there, within its room.
fn put_ones(places: usize, counts: &mut Vec<usize>)
    requires { places ≤ vec_capacity counts.old }
    ensures { counts.new.items ≡ replicate places 1 }
{
    counts.clear();
    for _ in 0..places {
        counts.push(1).unwrap();
    }
}

/// Sums up the counts where there is room for the sums already.
#[cycle(settle)]
fn settle(counts: &[usize], above: &mut Above)
    requires room { HasRoom counts.now above.old }
    requires small { sum_of counts.now < 2 ^ 64 }
    ensures { IsSummed counts.now above.new }
{
    if counts.len() <= 1 {
        *above = Above::Nothing;
        return;
    }
    match above {
        Above::Sums(sums) => sums.sum_up(counts),
        Above::Nothing => unreachable!(),
    }
}

/// Writes the sums of neighbours in place of what was there, within its room.
fn put_halves(counts: &[usize], sums: &mut Vec<usize>)
    requires room { length (halves counts.now) ≤ vec_capacity sums.old }
    requires small { sum_of counts.now < 2 ^ 64 }
    ensures { sums.new.items ≡ halves counts.now }
{
    sums.clear();
    let mut rest = counts;
    while let Some((sum, others)) = next_sum(rest) {
        sums.push(sum).unwrap();
        rest = others;
    }
}

/// The sum of the first two counts, or the only one, and the counts after.
fn next_sum(counts: &[usize]) -> Option<(usize, &[usize])>
    requires { sum_of counts.now < 2 ^ 64 }
    ensures some { IfSome result (λ next. halves counts.now ≡ next.0 ∷ halves next.1.now) }
    ensures fewer { IfSome result (λ next. length next.1.now < length counts.now) }
    ensures small { IfSome result (λ next. sum_of next.1.now ≤ sum_of counts.now) }
    ensures none { IfNone result (halves counts.now ≡ []) }
{
    let (first, others) = counts.split_first()?;
    match others.split_first() {
        Some((second, more)) => Some((*first + *second, more)),
        None => Some((*first, others)),
    }
}

/// Takes one more count into the sums above.
#[cycle(push)]
fn grow(alloc: Global, counts: &[usize], above: &mut Above) -> Result<(), AllocError>
    requires summed { IsSummed counts.now above.old }
    requires small { sum_of counts.now + 1 < 2 ^ 64 }
    ensures ok { OnOk result (IsSummed (counts.now ++ 1 ∷ []) above.new) }
    ensures err { OnErr result (above.new ≡ above.old) }
{
    match above {
        Above::Sums(sums) if counts.len() % 2 == 0 => sums.push(alloc),
        Above::Sums(sums) => {
            sums.raise(counts.len() / 2);
            Ok(())
        }
        Above::Nothing if counts.is_empty() => Ok(()),
        Above::Nothing => {
            let mut pair = Vec::with_capacity(alloc, 1)?;
            pair.push(counts[0] + 1)?;
            *above = Above::Sums(Box::new(
                alloc,
                Ranks {
                    counts: pair,
                    above: Above::Nothing,
                },
            )?);
            Ok(())
        }
    }
}
