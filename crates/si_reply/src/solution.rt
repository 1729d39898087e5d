// Solution lists over numbered terms, written to a sink.
ghost use Rattle.std.specs.Prelude.{◌≡◌, ◌<◌, Some, length, slice_get};
ghost use Rattle.si_defs.specs.Bytes.{Bytes};
ghost use Rattle.si_defs.specs.Symbols as symbols;
ghost use Rattle.si_defs.specs.Printing.{symbol_text, term_text, more_texts, solution_text};
ghost use Rattle.si_defs.specs.Variables.{variable_text};
ghost use Rattle.si_term.specs.Terms.{symbol_of};
ghost use Rattle.si_flat.specs.Cells.{IsWhole};
ghost use Rattle.si_reply.specs.PrintedParts.{arguments_text, binding_text, bindings_text};
ghost use Rattle.si_reply.specs.NamedLists.{ShowsTerm, ShowAll, ShowsVariable, ShowsSymbol, ShowsBinding, ShowsList};
ghost use Rattle.si_reply.specs.ShownTexts.{StandForSome, SendsText};

use crate::names::NameList;
use crate::printing::{put_bytes, put_symbol};
use si_flat::{Cell, FIRST_EXTRA, Owner};
use si_form::{Binding, Solution};
use si_io::{Failed, Sink};
use si_term::{Sym, SymTable, Syms, Texts};
use std::marker::Model;

/// What stands for the numbers: the symbols of a table, those that it lacks, and the names of
/// variables.
#[derive(Drop)]
pub struct Naming<'a, T: SymTable, N: NameList> {
    pub table: &'a T,
    pub extra: &'a Syms,
    pub query_names: &'a Texts,
    pub entry_names: &'a N,
}

impl<'a, T: SymTable, N: NameList> Model for Naming<'a, T, N> {
    ghost use Rattle.si_reply.specs.NamedLists as named;
    ghost use Rattle.si_reply.specs.NamedLists.{naming};

    ghost Value = { named.Naming };

    ghost view = { λ n.
        naming (T.pairs n.table.now) n.extra.now n.query_names.now (N.names n.entry_names.now) };
}

/// Writes a solution list. Each of its numbers has to stand for a symbol of the table or an extra
/// one, or for a name. A term is written by recursion over its nesting.
pub fn put_solution<K: Sink, T: SymTable, N: NameList>(
    sink: &mut K,
    naming: &Naming<'_, T, N>,
    solution: &Solution,
) -> Result<(), Failed>
    requires known { StandForSome (ShowsList naming.now solution.now) }
    ensures { SendsText result (solution_text variable_text) (ShowsList naming.now solution.now)
        (K.shown sink.old) (K.shown sink.new) }
{
    put_bytes(sink, b"{")?;
    put_bindings(sink, naming, solution)?;
    put_bytes(sink, b"}")
}

/// Writes the bindings with semicolons between them.
fn put_bindings<K: Sink, T: SymTable, N: NameList>(
    sink: &mut K,
    naming: &Naming<'_, T, N>,
    solution: &Solution,
) -> Result<(), Failed>
    requires known { StandForSome (ShowsList naming.now solution.now) }
    ensures { SendsText result bindings_text (ShowsList naming.now solution.now)
        (K.shown sink.old) (K.shown sink.new) }
{
    if solution.len() == 0 {
        return Ok(());
    }
    put_binding(sink, naming, solution.at(0))?;
    for n in 1..solution.len() {
        put_bytes(sink, b"; ")?;
        put_binding(sink, naming, solution.at(n))?;
    }
    Ok(())
}

/// Writes a variable and its term.
fn put_binding<K: Sink, T: SymTable, N: NameList>(
    sink: &mut K,
    naming: &Naming<'_, T, N>,
    binding: &Binding,
) -> Result<(), Failed>
    requires known { StandForSome (ShowsBinding naming.now binding.now) }
    ensures { SendsText result binding_text (ShowsBinding naming.now binding.now)
        (K.shown sink.old) (K.shown sink.new) }
{
    put_variable(sink, naming, binding.owner, binding.slot)?;
    put_bytes(sink, b" -> ")?;
    put_flat(sink, naming, binding.value.cells())
}

/// Writes a variable of the pattern or of the entry.
fn put_variable<K: Sink, T: SymTable, N: NameList>(
    sink: &mut K,
    naming: &Naming<'_, T, N>,
    owner: Owner,
    slot: u32,
) -> Result<(), Failed>
    requires known { StandForSome (ShowsVariable naming.now owner slot) }
    ensures { SendsText result variable_text (ShowsVariable naming.now owner slot)
        (K.shown sink.old) (K.shown sink.new) }
{
    match owner {
        Owner::Query => {
            put_bytes(sink, b"?")?;
            put_bytes(sink, naming.query_names.at(slot as usize).as_bytes())
        }
        Owner::Entry => put_bytes(sink, naming.entry_names.name(slot as usize)),
    }
}

/// The symbol with this number.
fn symbol_at<'a, T: SymTable, N: NameList>(naming: &Naming<'a, T, N>, number: u32) -> &'a Sym
    requires known { StandForSome (ShowsSymbol naming.now number) }
    ensures { (s : symbols.Symbol) → ShowsSymbol naming.now number s
        → symbol_of result.now ≡ s }
{
    match naming.table.sym_at(number) {
        Some(symbol) => symbol,
        None => naming.extra.at((number - FIRST_EXTRA) as usize / 2),
    }
}

/// Writes the term of these cells.
#[cycle(put_terms)]
fn put_flat<K: Sink, T: SymTable, N: NameList>(
    sink: &mut K,
    naming: &Naming<'_, T, N>,
    cells: &[Cell],
) -> Result<(), Failed>
    requires known { StandForSome (ShowsTerm naming.now cells.now) }
    ensures { SendsText result (term_text variable_text) (ShowsTerm naming.now cells.now)
        (K.shown sink.old) (K.shown sink.new) }
{
    match cells[0] {
        Cell::App { sym, .. } => {
            put_symbol(sink, symbol_at(naming, sym))?;
            put_flat_arguments(sink, naming, &cells[1..])
        }
        Cell::Query(number) => put_variable(sink, naming, Owner::Query, number),
        Cell::Entry(number) => put_variable(sink, naming, Owner::Entry, number),
        Cell::Ind(_) => unreachable!(),
    }
}

/// Writes the terms of these cells as arguments, in parentheses where there are any.
#[cycle(put_terms)]
fn put_flat_arguments<K: Sink, T: SymTable, N: NameList>(
    sink: &mut K,
    naming: &Naming<'_, T, N>,
    cells: &[Cell],
) -> Result<(), Failed>
    requires known { StandForSome (ShowAll naming.now cells.now) }
    ensures { SendsText result (arguments_text variable_text) (ShowAll naming.now cells.now)
        (K.shown sink.old) (K.shown sink.new) }
{
    if cells.is_empty() {
        return Ok(());
    }
    let (first, others) = cells.split_at(cells[0].span());
    put_bytes(sink, b"(")?;
    put_flat(sink, naming, first)?;
    put_flat_others(sink, naming, others)?;
    put_bytes(sink, b")")
}

/// Writes the terms of these cells, each after a comma.
#[cycle(put_terms)]
fn put_flat_others<'a, K: Sink, T: SymTable, N: NameList>(
    sink: &mut K,
    naming: &Naming<'_, T, N>,
    cells: &'a [Cell],
) -> Result<(), Failed>
    requires known { StandForSome (ShowAll naming.now cells.now) }
    ensures { SendsText result (more_texts variable_text) (ShowAll naming.now cells.now)
        (K.shown sink.old) (K.shown sink.new) }
{
    let mut rest = cells;
    while !rest.is_empty() {
        let (first, others) = rest.split_at(rest[0].span());
        put_bytes(sink, b",")?;
        put_flat(sink, naming, first)?;
        rest = others;
    }
    Ok(())
}
