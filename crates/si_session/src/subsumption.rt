// The answer to a question of subsumption: a line for each clause.
ghost use Rattle.std.specs.Prelude.{map};
ghost use Rattle.std.specs.List.{AllByRecursion};
ghost use Rattle.std.proofs.Props.{props};
ghost use Rattle.si_defs.specs.Clauses.{AreSoundLiterals};
ghost use Rattle.si_steps.specs.Commands as command;
ghost use Rattle.si_steps.specs.Replies.{mapped_reply};
ghost use Rattle.si_steps.specs.Runs.{ended};
ghost use Rattle.si_io.specs.Sends.{Sends};
ghost use Rattle.si_term.specs.Meaning.{name_of, literal_of};
ghost use Rattle.si_session.specs.MappedClauses.{IsKeptAt, all_mapped, mapped_line};
ghost use Rattle.si_session.specs.Session.{Writes, ActsOn};

use crate::reply::{ReplyLine, put_end, report};
use crate::separator::{Separator, put_separator};
use crate::stepped::Stepped;
use si_flat::LitMap;
use si_index::{Index, Mappeds};
use si_io::{Failed, Lines, Sink, write_lines};
use si_reply::{put_map, put_name};
use si_term::{Literals, Name};

/// Writes the line of a clause: its name and its map.
fn put_mapped<K: Sink>(sink: &mut K, name: &Name, map: &LitMap) -> Result<(), Failed>
    ensures { Sends result (mapped_line (name_of name.now) map.now) (K.shown sink.old)
        (K.shown sink.new) }
{
    put_name(sink, name)?;
    put_separator(sink, Separator::Space)?;
    put_map(sink, map)?;
    put_separator(sink, Separator::LineFeed)
}

/// The clauses that were found, each with its map, as the lines that answer a question.
#[derive(Clone, Copy)]
struct Maps<'a> {
    index: &'a Index,
    found: &'a Mappeds,
    ghost kept: { AllByRecursion (IsKeptAt index.now.clauses) found.now } by { Prim.hlevel props },
}

impl Lines for Maps<'_> {
    ghost use Rattle.std.specs.Prelude.{length};
    ghost use Rattle.si_steps.specs.Replies.{end_line};
    ghost use Rattle.si_session.specs.MappedClauses.{IsMappedLine};

    ghost count = { λ maps. length maps.found.now };

    ghost line = { λ maps. IsMappedLine maps.index.now.clauses maps.found.now };

    ghost last = { λ maps. end_line (length maps.found.now) };

    fn count(&self) -> usize {
        self.found.len()
    }

    fn put_line<K: Sink>(&self, n: usize, sink: &mut K) -> Result<(), Failed> {
        let mapped = self.found.at(n);
        put_mapped(sink, &self.index.clause(mapped.clause).name, &mapped.map)
    }

    fn put_last<K: Sink>(&self, sink: &mut K) -> Result<(), Failed> {
        put_end(sink, self.found.len() as u64)
    }
}

/// Writes the answer, in large pieces.
fn put_answer<K: Sink>(index: &Index, found: &Mappeds, sink: &mut K) -> Result<(), Failed>
    requires { AllByRecursion (IsKeptAt index.now.clauses) found.now }
    ensures { Sends result (ended (mapped_reply (all_mapped index.now.clauses found.now)))
        (K.shown sink.old) (K.shown sink.new) }
{
    write_lines(&Maps { index, found }, sink)
}

/// Writes the answer, and says what became of the line.
fn report_mapped<K: Sink>(index: &Index, found: &Mappeds, sink: &mut K) -> Stepped
    requires { AllByRecursion (IsKeptAt index.now.clauses) found.now }
    ensures { Writes result (mapped_reply (all_mapped index.now.clauses found.now))
        (K.shown sink.old) (K.shown sink.new) }
{
    match put_answer(index, found, sink) {
        Ok(()) => Stepped::Answered,
        Err(_) => Stepped::SinkFailed,
    }
}

/// Answers which clauses subsume a formula.
pub fn subsumers<K: Sink>(index: &Index, formula: &Literals, sink: &mut K) -> Stepped
    requires { AreSoundLiterals (map literal_of formula.now) }
    ensures { ActsOn (command.subsumers (map literal_of formula.now)) index.now index.now
        result (K.shown sink.old) (K.shown sink.new) }
{
    match index.subsumers(formula) {
        Ok(found) => report_mapped(index, &found, sink),
        Err(_) => report(sink, ReplyLine::Memory),
    }
}

/// Answers which clauses a formula subsumes.
pub fn subsumed<K: Sink>(index: &Index, formula: &Literals, sink: &mut K) -> Stepped
    requires { AreSoundLiterals (map literal_of formula.now) }
    ensures { ActsOn (command.subsumed (map literal_of formula.now)) index.now index.now result
        (K.shown sink.old) (K.shown sink.new) }
{
    match index.subsumed(formula) {
        Ok(found) => report_mapped(index, &found, sink),
        Err(_) => report(sink, ReplyLine::Memory),
    }
}
