// Literals as flat terms, over a table of one symbol, made of terms and read from tokens.
ghost use Rattle.std.specs.Prelude.{◌≡◌, ◌≤◌, [], ◌∷◌, length};
ghost use Rattle.si_defs.specs.Clauses.{IsSoundPattern};
ghost use Rattle.si_defs.specs.declared.TheConstants.{MOST_BYTES};
ghost use Rattle.si_term.specs.Meaning.{pattern_of};
ghost use Rattle.si_term.specs.Terms.{symbol_of};

use si_flat::{Cell, Flat, FlatQuery, flatten_entry};
use si_lex::{Lexeme, lex};
use si_parse::pattern::PatternKind;
use si_query::read_flat;
use si_term::{Pattern, Side, Sym, SymKind, SymTable, Text};
use si_texts::pattern_in;
use std::alloc::{AllocError, Global};
use std::process::Abort;
use std::test::Fail;

/// A table of one symbol, which has the number 4.
#[derive(Drop)]
struct OneSymbol {
    symbol: Sym,
}

impl SymTable for OneSymbol {
    ghost pairs = { λ t. (symbol_of t.symbol, 4) ∷ [] };

    fn id_of(&self, sym: &Sym) -> Option<u32> {
        if sym.is(&self.symbol) { Some(4) } else { None }
    }

    fn sym_at(&self, id: u32) -> Option<&Sym> {
        if id == 4 { Some(&self.symbol) } else { None }
    }
}

/// The table of the predicate `p` of two arguments.
fn table(alloc: Global) -> Result<OneSymbol, AllocError> {
    let symbol = Sym {
        kind: SymKind::Word,
        text: Text::from_bytes(alloc, b"p")?,
        side: Side::Predicate,
        arity: 2,
    };
    Ok(OneSymbol { symbol })
}

fn cells_seen(flat: &Option<Flat>) -> &[Cell] {
    let Some(flat) = flat else {
        return &[];
    };
    flat.cells()
}

fn assert_cells(rt: &impl Abort, seen: &[Cell], due: &[Cell]) {
    assert_eq!(rt; seen, due);
}

/// The entry's flat term, and none where `due` is empty.
fn assert_entry(
    rt: &impl Abort,
    alloc: Global,
    table: &OneSymbol,
    literal: &Pattern,
    due: &[Cell],
) -> Result<(), AllocError>
    requires { IsSoundPattern (pattern_of literal.now) }
{
    let seen = flatten_entry(alloc, table, literal.as_entry())?;
    assert_cells(rt, cells_seen(&seen), due);
    Ok(())
}

fn assert_literal(
    rt: &impl Abort,
    alloc: Global,
    text: &[u8],
    due: &[Cell],
) -> Result<(), AllocError> {
    let table = table(alloc)?;
    let literal = pattern_in(alloc, text, PatternKind::Lit)?;
    assert_entry(rt, alloc, &table, &literal, due)
}

/// Literals, and their cells, or none where the table lacks a symbol.
const LITERALS: [(&[u8], &[Cell]); 2] = [
    (
        b"~p(X,X)",
        &[
            Cell::App {
                sym: 5,
                arity: 2,
                len: 3,
            },
            Cell::Entry(0),
            Cell::Entry(0),
        ],
    ),
    (b"~p(g(X),Y)", &[]),
];

#[test]
fn literals_have_their_cells(rt: HostRuntime) -> Result<(), Fail> {
    for (text, due) in &LITERALS {
        assert_literal(&rt, rt.alloc(), text, due)?;
    }
    Ok(())
}

fn cells_read(query: &Option<FlatQuery>) -> &[Cell] {
    let Some(query) = query else {
        return &[];
    };
    query.flat.cells()
}

fn assert_read_from(
    rt: &impl Abort,
    alloc: Global,
    table: &OneSymbol,
    tokens: &[Lexeme<'_>],
    due: &[Cell],
) -> Result<(), AllocError>
    requires { length tokens.now ≤ MOST_BYTES }
{
    let query = read_flat(alloc, table, tokens, PatternKind::Lit)?;
    assert_cells(rt, cells_read(&query), due);
    Ok(())
}

/// What is read of a literal straight from its tokens, and nothing where `due` is empty.
fn assert_read(rt: &impl Abort, alloc: Global, text: &[u8], due: &[Cell]) -> Result<(), AllocError>
    requires { length text.now ≤ MOST_BYTES }
{
    let table = table(alloc)?;
    let lexing = lex(alloc, text, 0)?;
    assert_read_from(rt, alloc, &table, lexing.tokens.as_slice(), due)
}

fn cell(sym: u32, len: u32) -> Cell {
    Cell::App { sym, arity: 2, len }
}

#[test]
fn literals_read_from_their_tokens(rt: HostRuntime) -> Result<(), Fail> {
    let same = [cell(5, 3), Cell::Query(0), Cell::Query(0)];
    assert_read(&rt, rt.alloc(), b"~p(X,X)", &same)?;
    let apart = [cell(4, 3), Cell::Query(0), Cell::Query(1)];
    assert_read(&rt, rt.alloc(), b"p(X,Y)", &apart)?;
    assert_read(&rt, rt.alloc(), b"p(X)", &[])?;
    assert_read(&rt, rt.alloc(), b"p(X,Y)p", &[])?;
    Ok(())
}
