// A session: the clauses that are kept, and one step for each line.
ghost use Rattle.std.specs.Prelude.{◌≡◌, ◌↔◌, ◌≤◌, IfOk};
ghost use Rattle.std.specs.List.{list_all};
ghost use Rattle.si_defs.specs.Bytes.{is_printable};
ghost use Rattle.si_defs.specs.declared.TheConstants.{MOST_OCCURRENCES};
ghost use Rattle.si_steps.specs.Limits.{AllowsLimits};
ghost use Rattle.si_steps.specs.Settings.{setting_of};
ghost use Rattle.si_steps.specs.Commands.{IsSilent, add, remove, query};
ghost use Rattle.si_steps.specs.FileWords.{names_file};
ghost use Rattle.si_steps.specs.Runs.{a_word, a_line};
ghost use Rattle.si_session.specs.Session.{IsNewSession, Steps, ActsOn, LoadsInto, around};
ghost use Rattle.si_session.specs.declared.stepped.Stepped.TheVariants.{Silent, Refused};
ghost use Rattle.si_defs.specs.Clauses.{IsSoundClause, IsSoundPattern};
ghost use Rattle.si_term.specs.Meaning.{name_of, clause_of, pattern_of};

use crate::answer::report_answer;
use crate::command::{Command, read_command};
use crate::explaining::explained_at_once;
use crate::refusals::{load_refusal, refusal};
use crate::reply::{ReplyLine, report};
use crate::sample::sample;
use crate::stepped::Stepped;
use crate::subsumption::{subsumed, subsumers};
use crate::trees::{explain, report_trees};
use si_defs::Relation;
use si_harvest::{HarvestLimits, expand};
use si_index::{Index, SearchMemory};
use si_io::{Library, Sink};
use si_sign::ClauseStore;
use si_steps::Limits;
use si_term::{Clause, Name, Pattern};
use std::alloc::{AllocError, Global};
use std::marker::Model;

/// The clauses that are kept, in the order of acceptance.
#[derive(Drop)]
pub struct Session {
    alloc: Global,
    limits: Limits,
    index: Index,
    // What one question lends to the next.
    memory: SearchMemory,
}

impl Model for Session {
    ghost use Rattle.std.specs.Prelude.{◌≡◌};
    ghost use Rattle.si_steps.specs.Limits.{AllowsLimits};
    ghost use Rattle.si_session.specs.Session.{View, view_code, view_of};

    ghost Value = { View };

    ghost coded = { view_code };

    ghost view = { λ s. view_of s.limits s.index };

    ghost invariant = { λ s. (s.index.rules.entries ≡ s.limits.entries) × AllowsLimits s.limits };
}

impl Session {
    /// A session without clauses.
    pub fn new(alloc: Global, limits: &Limits) -> Result<Session, AllocError>
        requires { AllowsLimits limits.now }
        ensures { IfOk result (IsNewSession (setting_of limits.now)) }
    {
        Ok(Session {
            alloc,
            limits: *limits,
            index: Index::new(alloc, limits.entries)?,
            memory: SearchMemory::new(alloc),
        })
    }

    /// Acts on one line without its line feed, and writes its reply. Files are fetched from the
    /// library.
    pub fn step<L: Library, K: Sink>(
        &mut self,
        line: &[u8],
        library: &mut L,
        sink: &mut K,
    ) -> Stepped
        // The session went one step: its state is the next one, and the reply was written, or the
        // front of it that the sink took before it failed. So it answers a fault of the sink
        // exactly where the sink counted one.
        ensures step { Steps self.old self.new (a_line line.now) result
            (around (K.shown sink.old) (L.shown library.old))
            (around (K.shown sink.new) (L.shown library.new)) }
        // It answers that a line has no reply exactly where the line is silent.
        ensures silent { (result ≡ Silent) ↔ IsSilent self.old.setting.limits line.now }
        // A refusal leaves the state.
        ensures refused { result ≡ Refused → self.new.state ≡ self.old.state }
    {
        // Called for its contract alone: the trees hold the entries of what is kept.
        self.index.trees();
        if line.len() > self.limits.line {
            return report(sink, ReplyLine::Long);
        }
        // An `explain` line of known symbols is answered from its tokens, without a pattern.
        if let Some(counts) = explained_at_once(self.alloc, &self.index, &mut self.memory, line) {
            return report(sink, ReplyLine::Explained(counts));
        }
        match read_command(self.alloc, line) {
            Ok(Command::Blank) => Stepped::Silent,
            Ok(Command::Foreign) => report(sink, ReplyLine::Language),
            Ok(Command::Wrong) => report(sink, ReplyLine::Syntax),
            Ok(Command::Add(clause)) => add(&mut self.index, clause, sink),
            Ok(Command::Load(name)) => load(
                self.alloc,
                &self.limits,
                &mut self.index,
                name.as_bytes(),
                library,
                sink,
            ),
            Ok(Command::Remove(name)) => remove(&mut self.index, name, sink),
            Ok(Command::Query(relation, pattern)) => {
                answer(&self.index, &mut self.memory, relation, &pattern, sink)
            }
            Ok(Command::Subsumers(formula)) => subsumers(&self.index, &formula, sink),
            Ok(Command::Subsumed(formula)) => subsumed(&self.index, &formula, sink),
            Ok(Command::Stats) => report(sink, ReplyLine::Stats(self.index.stats())),
            Ok(Command::Tree) => report_trees(sink, self.index.counts()),
            Ok(Command::Explain(relation, pattern)) => {
                explain(&self.index, &mut self.memory, relation, &pattern, sink)
            }
            Ok(Command::Sample { start, count }) => {
                sample(self.alloc, &mut self.index, start, count, sink)
            }
            Err(_) => report(sink, ReplyLine::Memory),
        }
    }

    /// Loads the file that a word of the program's call names, and writes the reply. Nothing is
    /// fetched for a word that can't name a file.
    pub fn load<L: Library, K: Sink>(
        &mut self,
        word: &[u8],
        library: &mut L,
        sink: &mut K,
    ) -> Stepped
        // The session went one step: its state is the next one, and the reply was written, or the
        // front of it that the sink took before it failed. So it answers a fault of the sink
        // exactly where the sink counted one.
        ensures step { Steps self.old self.new (a_word word.now) result
            (around (K.shown sink.old) (L.shown library.old))
            (around (K.shown sink.new) (L.shown library.new)) }
        // A word has a reply.
        ensures loud { result ≡ Silent → ⊥ }
        // A refusal leaves the state.
        ensures refused { result ≡ Refused → self.new.state ≡ self.old.state }
    {
        // As in a step.
        self.index.trees();
        if !names_file(word) {
            return report(sink, ReplyLine::Syntax);
        }
        load(
            self.alloc,
            &self.limits,
            &mut self.index,
            word,
            library,
            sink,
        )
    }
}

/// Whether a word can name a file: it isn't empty, and each byte may stand between quotes.
fn names_file(word: &[u8]) -> bool
    ensures { result ≡ names_file word.now }
{
    !word.is_empty() && are_printable(word)
}

/// Whether each byte is a space, a `~` or between them.
fn are_printable(bytes: &[u8]) -> bool
    ensures { result ≡ list_all is_printable bytes.now }
{
    bytes.iter().all(|byte| 32 <= *byte && *byte <= 126)
}

/// Keeps a clause if nothing stands against it, and writes the reply.
fn add<K: Sink>(index: &mut Index, clause: Clause, sink: &mut K) -> Stepped
    requires { IsSoundClause (clause_of clause) }
    ensures { ActsOn (add (clause_of clause)) index.old index.new result
        (K.shown sink.old) (K.shown sink.new) }
{
    match index.add(clause) {
        Ok(gained) => report(
            sink,
            ReplyLine::Ok {
                clauses: 1,
                entries: u64::from(gained),
            },
        ),
        Err(rejected) => report(sink, refusal(&rejected)),
    }
}

/// Keeps the clauses of a file and of those that it includes, or none, and writes the reply.
fn load<L: Library, K: Sink>(
    alloc: Global,
    limits: &Limits,
    index: &mut Index,
    name: &[u8],
    library: &mut L,
    sink: &mut K,
) -> Stepped
    requires allows { AllowsLimits limits.now }
    requires limit { index.old.rules.entries ≤ MOST_OCCURRENCES }
    ensures { LoadsInto limits.now name.now index.old index.new result
        (around (K.shown sink.old) (L.shown library.old))
        (around (K.shown sink.new) (L.shown library.new)) }
{
    let bounds = HarvestLimits {
        file: limits.file,
        fetches: limits.fetches,
        depth: limits.depth,
    };
    match expand(alloc, library, name, &bounds, index) {
        Ok(gained) => report(
            sink,
            ReplyLine::Ok {
                clauses: u64::from(gained.clauses),
                entries: u64::from(gained.entries),
            },
        ),
        Err(fault) => report(sink, load_refusal(&fault)),
    }
}

/// Lets the clause with this name go, and writes the reply.
fn remove<K: Sink>(index: &mut Index, name: Name, sink: &mut K) -> Stepped
    ensures { ActsOn (remove (name_of name)) index.old index.new result
        (K.shown sink.old) (K.shown sink.new) }
{
    match index.remove(&name) {
        Some(gone) => report(
            sink,
            ReplyLine::Ok {
                clauses: 1,
                entries: u64::from(gone),
            },
        ),
        None => report(sink, ReplyLine::Unknown(&name)),
    }
}

/// Answers which entries stand in a relation to a pattern.
fn answer<K: Sink>(
    index: &Index,
    memory: &mut SearchMemory,
    relation: Relation,
    pattern: &Pattern,
    sink: &mut K,
) -> Stepped
    requires { IsSoundPattern (pattern_of pattern.now) }
    ensures { ActsOn (query relation (pattern_of pattern.now)) index.now index.now result
        (K.shown sink.old) (K.shown sink.new) }
{
    let found = match index.find(memory, index.trees(), relation, pattern) {
        Ok(found) => found,
        Err(_) => return report(sink, ReplyLine::Memory),
    };
    match report_answer(&found, sink) {
        Ok(()) => Stepped::Answered,
        Err(_) => Stepped::SinkFailed,
    }
}
