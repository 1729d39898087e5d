//! A whole program over the library. It keeps two clauses, asks which literals are instances of a
//! pattern, and prints the clause and the place of each.
#![tactic(auto)]

ghost use Rattle.si_defs.specs.Clauses.{IsSoundPattern};
ghost use Rattle.si_term.specs.Meaning.{pattern_of};

use si_defs::Relation;
use si_index::{Found, Index, SearchMemory};
use si_io::{Failed, RealSink, Sink};
use si_parse::item::{Read, next_item};
use si_parse::pattern::{PatternKind, read_pattern};
use si_reply::{put_bytes, put_place};
use si_sign::ClauseStore;
use si_term::Pattern;
use std::alloc::{AllocError, Global};
use std::process::ExitCode;

/// Why the program ends early.
#[derive(Clone, Copy)]
enum Fault {
    /// Memory ran out.
    Memory,
    /// A text is no clause or no pattern, or its clause isn't accepted.
    Text,
    /// The output failed.
    Output,
}

impl From<AllocError> for Fault {
    fn from(_: AllocError) -> Fault {
        Fault::Memory
    }
}

impl From<Failed> for Fault {
    fn from(_: Failed) -> Fault {
        Fault::Output
    }
}

fn main(rt: HostRuntime) -> ExitCode {
    let mut sink = RealSink::new(rt.stdout());
    match run(rt.alloc(), &mut sink) {
        Ok(()) => ExitCode::SUCCESS,
        Err(_) => ExitCode::FAILURE,
    }
}

fn run<K: Sink>(alloc: Global, sink: &mut K) -> Result<(), Fault> {
    let mut index = Index::new(alloc, 1_000)?;
    fill_and_ask(alloc, &mut index, sink)
}

/// Keeps two clauses, and asks. The index is its caller's, so it is dropped in one place.
fn fill_and_ask<K: Sink>(alloc: Global, index: &mut Index, sink: &mut K) -> Result<(), Fault> {
    keep(alloc, b"cnf(c1,axiom,p(f(X),a)).", index)?;
    keep(alloc, b"cnf(c2,axiom,q(Y)|p(Y,a)).", index)?;
    ask(alloc, index, sink)
}

/// Keeps the clause that the text begins with.
fn keep(alloc: Global, text: &[u8], index: &mut Index) -> Result<(), Fault> {
    if text.len() > 100 {
        return Err(Fault::Text);
    }
    let read = next_item(alloc, text, 0)?;
    let Read::Cnf(clause, _) = read else {
        return Err(Fault::Text);
    };
    match index.add(clause) {
        Ok(_) => Ok(()),
        Err(_) => Err(Fault::Text),
    }
}

/// Asks for the instances of a literal.
fn ask<K: Sink>(alloc: Global, index: &Index, sink: &mut K) -> Result<(), Fault> {
    let Some(pattern) = read_pattern(alloc, b"p(U,V)", PatternKind::Lit)? else {
        return Err(Fault::Text);
    };
    answer(alloc, index, &pattern, sink)
}

fn answer<K: Sink>(
    alloc: Global,
    index: &Index,
    pattern: &Pattern,
    sink: &mut K,
) -> Result<(), Fault>
    requires { IsSoundPattern (pattern_of pattern.now) }
{
    // A program that asks more than once lends it to each question.
    let mut memory = SearchMemory::new(alloc);
    let found = index.find(&mut memory, index.trees(), Relation::Instances, pattern)?;
    report(&found, sink)
}

/// Prints the clause and the place of each hit.
fn report<K: Sink>(found: &Found<'_>, sink: &mut K) -> Result<(), Fault> {
    for n in 0..found.len() {
        put_place(sink, &found.clause(n).name, &found.hit(n).place)?;
        put_bytes(sink, b"\n")?;
    }
    Ok(())
}
