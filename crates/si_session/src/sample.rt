// Samples: clauses that are drawn and kept, and how much of all that is kept unifies with them.
ghost use Rattle.std.specs.Prelude.{◌≡◌, ◌≤◌, ◌*◌, IfOk, IfErr, OnErr, length, map};
ghost use Rattle.si_defs.specs.Clauses.{IsSoundClause, IsSoundPattern};
ghost use Rattle.si_defs.specs.Entries.{entries, placed_in, state_entries};
ghost use Rattle.si_defs.specs.declared.TheConstants.{MOST_OCCURRENCES};
ghost use Rattle.si_state.specs.Samples.{AllowsSample, SumsAnswers};
ghost use Rattle.si_steps.specs.Commands.{sample};
ghost use Rattle.si_term.specs.Meaning.{clause_of, entry_of, pattern_of};
ghost use Rattle.si_flat.specs.Flattened.{IsSoundEntry};
ghost use Rattle.si_harvest.specs.Faults.{NamesWhy};
ghost use Rattle.si_session.specs.Session.{ActsOn};
ghost use Rattle.si_session.specs.Sums.{GainsSample, RefusesSample, CountsUnifiable, CountsEntryAnswers, SumsLast, ReportsSum};

use crate::refusals::load_refusal;
use crate::reply::{ReplyLine, report};
use crate::stepped::Stepped;
use si_defs::Relation;
use si_harvest::{HarvestFault, Loaded, roll_back, take_text};
use si_index::{Index, SearchMemory};
use si_io::Sink;
use si_term::{Clause, Entry, Pattern, entry_at, entry_count, to_pattern};
use std::alloc::{AllocError, Global};

/// Keeps so many clauses that are drawn from a start, or none, and writes the reply.
pub fn sample<K: Sink>(
    alloc: Global,
    index: &mut Index,
    start: u32,
    count: u32,
    sink: &mut K,
) -> Stepped
    requires drawable { AllowsSample start count }
    requires limit { index.old.rules.entries ≤ MOST_OCCURRENCES }
    ensures { ActsOn (sample start count) index.old index.new result (K.shown sink.old)
        (K.shown sink.new) }
{
    match take_sample(alloc, index, start, count) {
        Ok(gained) => report_sum(alloc, index, gained, sink),
        Err(fault) => report(sink, load_refusal(&fault)),
    }
}

/// Keeps so many clauses that are drawn from a start, and counts them, or keeps none.
fn take_sample(
    alloc: Global,
    index: &mut Index,
    start: u32,
    count: u32,
) -> Result<Loaded, HarvestFault>
    requires drawable { AllowsSample start count }
    requires limit { index.old.rules.entries ≤ MOST_OCCURRENCES }
    ensures gained { IfOk result (λ gained. GainsSample index.old.rules start count
        index.old.clauses gained index.new.clauses) }
    ensures fault { IfErr result (λ e. NamesWhy index.old.rules e
        (RefusesSample index.old.rules start count index.old.clauses)) }
    ensures err { OnErr result (index.new.clauses ≡ index.old.clauses) }
    ensures rules { index.new.rules ≡ index.old.rules }
{
    let text = si_sample::sample(alloc, start, count)?;
    take_text(alloc, text.as_slice(), index)
}

/// Reports how much was gained, and how much of all that is kept unifies with it. Where memory runs
/// out, what was gained goes again.
fn report_sum<K: Sink>(alloc: Global, index: &mut Index, gained: Loaded, sink: &mut K) -> Stepped
    requires { gained.clauses ≤ length index.old.clauses }
    ensures reports { ReportsSum gained index.old.clauses index.new.clauses result
        (K.shown sink.old) (K.shown sink.new) }
    ensures rules { index.new.rules ≡ index.old.rules }
{
    match sum_last(alloc, index, gained.clauses) {
        Ok(sum) => report(
            sink,
            ReplyLine::Sample {
                clauses: u64::from(gained.clauses),
                entries: u64::from(gained.entries),
                sum,
            },
        ),
        Err(_) => {
            roll_back(index, gained.clauses);
            report(sink, ReplyLine::Memory)
        }
    }
}

/// How many answers there are to the entries of the last clauses, so many of them.
fn sum_last(alloc: Global, index: &Index, count: u32) -> Result<u64, AllocError>
    requires { count ≤ length index.now.clauses }
    ensures { IfOk result (SumsLast index.now.clauses count) }
{
    let kept = index.stats().clauses;
    let mut memory = SearchMemory::new(alloc);
    let mut sum = 0;
    for at in kept - count..kept {
        sum += sum_clause(alloc, index, &mut memory, index.clause(at))?;
    }
    Ok(sum)
}

/// How many answers there are to the entries of a clause.
fn sum_clause(
    alloc: Global,
    index: &Index,
    memory: &mut SearchMemory,
    clause: &Clause,
) -> Result<u64, AllocError>
    requires sound { IsSoundClause (clause_of clause.now) }
    requires few { length (entries (clause_of clause.now)) ≤ MOST_OCCURRENCES }
    ensures sums { IfOk result (SumsAnswers (state_entries index.now.clauses)
        (map (placed_in (clause_of clause.now)) (entries (clause_of clause.now)))) }
    ensures small { IfOk result (λ sum.
        sum ≤ 4294967296 * length (entries (clause_of clause.now))) }
{
    let mut sum = 0;
    for number in 0..entry_count(clause) {
        sum += u64::from(count_answers(alloc, index, memory, entry_at(clause, number))?);
    }
    Ok(sum)
}

/// How many answers there are to an entry.
fn count_answers(
    alloc: Global,
    index: &Index,
    memory: &mut SearchMemory,
    entry: Entry<'_>,
) -> Result<u32, AllocError>
    requires { IsSoundEntry (entry_of entry) }
    ensures { IfOk result (CountsEntryAnswers (state_entries index.now.clauses)
        (entry_of entry.entry)) }
{
    let pattern = to_pattern(alloc, entry)?;
    count_unifiable(index, memory, &pattern)
}

/// How many entries unify with a pattern. None of them is listed.
fn count_unifiable(
    index: &Index,
    memory: &mut SearchMemory,
    pattern: &Pattern,
) -> Result<u32, AllocError>
    requires { IsSoundPattern (pattern_of pattern.now) }
    ensures { IfOk result (CountsUnifiable (state_entries index.now.clauses)
        (pattern_of pattern.now)) }
{
    let kept = index.stats();
    let explained = index.explain(memory, Relation::Unifiable, pattern)?;
    prove!(explained.answers <= kept.entries);
    Ok(explained.answers as u32)
}
