// The row of a clause, by a walk over its symbols.
ghost use Rattle.std.specs.Prelude.{◌≡◌, ◌<◌, ◌≤◌, ◌+◌, ◌-◌, ◌^◌, [], ◌∷◌, length, map};
ghost use Rattle.si_defs.specs.Terms.{row, symbols, symbols_of_all};
ghost use Rattle.si_defs.specs.declared.TheConstants.{MOST_OCCURRENCES};
ghost use Rattle.si_term.specs.Terms.{symbol_of, term_of};
ghost use Rattle.si_term.specs.Meaning.{literal_of};
ghost use Rattle.si_flat.specs.Numbered.{number_in};
ghost use Rattle.si_screen.specs.ClauseRows.{IsRowOf, with_extra};
ghost use Rattle.si_screen.specs.Walks.{AddsNumbers, literal_numbers, literals_numbers};

use crate::extra::Extra;
use si_lanes::{EMPTY, Row, set_bit};
use si_term::{Literal, Sym, SymTable, Term};

/// The row of these literals, whose symbols go by the numbers of the table and those of the extra
/// symbols, and by 0 where they have none.
pub fn literals_row<'a, T: SymTable>(table: &T, extra: &Extra<'a>, literals: &'a [Literal]) -> Row
    requires few { length extra.now ≤ MOST_OCCURRENCES }
    ensures { IsRowOf (number_in (with_extra (T.pairs table.now) extra.now))
        (map literal_of literals.now) result }
{
    let mut bits = EMPTY;
    for i in 0..literals.len() {
        add_literal(table, extra, &literals[i], &mut bits);
    }
    bits
}

/// Adds the heads of a literal's entries to a row.
fn add_literal<'a, T: SymTable>(table: &T, extra: &Extra<'a>, literal: &'a Literal, bits: &mut Row)
    requires few { length extra.now ≤ MOST_OCCURRENCES }
    ensures { AddsNumbers (literal_numbers (number_in (with_extra (T.pairs table.now) extra.now))
        (literal_of literal.now)) bits.old bits.new }
{
    if let Term::App(symbol, arguments) = &literal.atom {
        let number = number_of(table, extra, symbol);
        add_number(if literal.positive { number } else { number + 1 }, bits);
        add_terms(table, extra, arguments.as_slice(), bits);
    }
}

/// Adds the symbols of a term to a row.
#[cycle(add)]
fn add_term<'a, T: SymTable>(table: &T, extra: &Extra<'a>, term: &'a Term, bits: &mut Row)
    requires few { length extra.now ≤ MOST_OCCURRENCES }
    ensures { AddsNumbers (map (number_in (with_extra (T.pairs table.now) extra.now))
        (symbols (term_of term.now))) bits.old bits.new }
{
    if let Term::App(symbol, arguments) = term {
        add_number(number_of(table, extra, symbol), bits);
        add_terms(table, extra, arguments.as_slice(), bits);
    }
}

#[cycle(add)]
fn add_terms<'a, T: SymTable>(table: &T, extra: &Extra<'a>, terms: &'a [Term], bits: &mut Row)
    requires few { length extra.now ≤ MOST_OCCURRENCES }
    ensures { AddsNumbers (map (number_in (with_extra (T.pairs table.now) extra.now))
        (symbols_of_all (row (map term_of terms.now)))) bits.old bits.new }
{
    for i in 0..terms.len() {
        add_term(table, extra, &terms[i], bits);
    }
}

/// Adds a number to a row.
fn add_number(number: u32, bits: &mut Row)
    ensures { AddsNumbers (number ∷ []) bits.old bits.new }
{
    set_bit(bits, (number % 256) as u8);
}

/// The number of a symbol, and 0 where it has none.
fn number_of<'a, T: SymTable>(table: &T, extra: &Extra<'a>, symbol: &'a Sym) -> u32
    requires few { length extra.now ≤ MOST_OCCURRENCES }
    ensures is { result ≡ number_in (with_extra (T.pairs table.now) extra.now)
        (symbol_of symbol.now) }
    ensures small { result < 2 ^ 32 - 1 }
{
    match table.id_of(symbol) {
        Some(number) => number,
        None => extra.number_of(symbol),
    }
}
