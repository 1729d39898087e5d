// Equations solved under each freezing, whose answers were worked out by Robinson's algorithm.
ghost use Rattle.std.specs.Prelude.{◌∷◌, []};
ghost use Rattle.si_flat.specs.Cells.{IsWhole};

use si_flat::{Cell, Flat};
use si_trail::Trail;
use si_unify::{Scratch, Slots, solve, solve_with};
use std::alloc::{AllocError, Global};
use std::process::Abort;
use std::test::Fail;

// A term is written by its signs in preorder: a, b and c are constants, g and h have one argument,
// f has two. The symbols c and g have one number and different arities. The query's variables are
// x, y and z, the entry's X, Y and Z, the indicators p and q.

fn constant(alloc: Global, sym: u32) -> Result<Flat, AllocError> {
    let cell = Cell::App {
        sym,
        arity: 0,
        len: 1,
    };
    Flat::from_cells(alloc, &[cell])
}

fn variable(alloc: Global, cell: Cell) -> Result<Flat, AllocError>
    requires { IsWhole (cell ∷ []) }
{
    Flat::from_cells(alloc, &[cell])
}

fn one(alloc: Global, sym: u32, t: &Flat) -> Result<Flat, AllocError> {
    let Ok(len) = u32::try_from(1 + t.cells().len()) else {
        return Err(AllocError);
    };
    let mut cells = Vec::new(alloc);
    cells.push(Cell::App { sym, arity: 1, len })?;
    cells.extend_from_slice(t.cells())?;
    Flat::from_cells(alloc, &cells)
}

fn two(alloc: Global, sym: u32, t: &Flat, u: &Flat) -> Result<Flat, AllocError> {
    let Ok(len) = u32::try_from(1 + t.cells().len() + u.cells().len()) else {
        return Err(AllocError);
    };
    let mut cells = Vec::new(alloc);
    cells.push(Cell::App { sym, arity: 2, len })?;
    cells.extend_from_slice(t.cells())?;
    cells.extend_from_slice(u.cells())?;
    Flat::from_cells(alloc, &cells)
}

// Takes the last term away. Signs that are no term are answered like want of memory.
fn taken(terms: &mut Vec<Flat>) -> Result<Flat, AllocError> {
    terms.pop().ok_or(AllocError)
}

fn put_one(alloc: Global, terms: &mut Vec<Flat>, sym: u32) -> Result<(), AllocError> {
    let first = taken(terms)?;
    let term = one(alloc, sym, &first)?;
    terms.push(term)?;
    Ok(())
}

fn put_two(alloc: Global, terms: &mut Vec<Flat>, sym: u32) -> Result<(), AllocError> {
    let first = taken(terms)?;
    let second = taken(terms)?;
    let term = two(alloc, sym, &first, &second)?;
    terms.push(term)?;
    Ok(())
}

fn put_leaf(alloc: Global, terms: &mut Vec<Flat>, sign: u8) -> Result<(), AllocError> {
    let term = match sign {
        b'a' | b'b' => constant(alloc, sign as u32)?,
        b'c' => constant(alloc, b'g' as u32)?,
        b'x'..=b'z' => variable(alloc, Cell::Query((sign - b'x') as u32))?,
        b'X'..=b'Z' => variable(alloc, Cell::Entry((sign - b'X') as u32))?,
        b'p'..=b'q' => variable(alloc, Cell::Ind((sign - b'p') as u32))?,
        _ => return Err(AllocError),
    };
    terms.push(term)?;
    Ok(())
}

// The term of these signs.
fn read(alloc: Global, signs: &[u8]) -> Result<Flat, AllocError> {
    let mut terms = Vec::new(alloc);
    for &sign in signs.iter().rev() {
        match sign {
            b'f' => put_two(alloc, &mut terms, sign as u32)?,
            b'g' | b'h' => put_one(alloc, &mut terms, sign as u32)?,
            _ => put_leaf(alloc, &mut terms, sign)?,
        }
    }
    taken(&mut terms)
}

fn sign_at(signs: &[u8], number: usize) -> u8 {
    if number >= signs.len() {
        return b'?';
    }
    signs[number]
}

fn symbol_sign(sym: u32, arity: u32) -> u8 {
    if arity == 0 && sym == b'g' as u32 {
        return b'c';
    }
    u8::try_from(sym).unwrap_or(b'?')
}

fn sign_of(cell: Cell) -> u8 {
    match cell {
        Cell::App { sym, arity, .. } => symbol_sign(sym, arity),
        Cell::Query(number) => sign_at(b"xyz", number as usize),
        Cell::Entry(number) => sign_at(b"XYZ", number as usize),
        Cell::Ind(number) => sign_at(b"pq", number as usize),
    }
}

fn put_cells(signs: &mut Vec<u8>, cells: &[Cell]) -> Result<(), AllocError> {
    for &cell in cells {
        signs.push(sign_of(cell))?;
    }
    Ok(())
}

// The bindings in order, each with a blank after it.
fn listed<'a>(alloc: Global, trail: &Trail<&'a [Cell]>) -> Result<Vec<u8>, AllocError> {
    let mut signs = Vec::new(alloc);
    for n in 0..trail.mark() {
        let slot = trail.slot(n);
        signs.push(sign_at(b"xyzXYZpq", slot))?;
        signs.push(b'=')?;
        if let Some(value) = trail.get(slot) {
            put_cells(&mut signs, value)?;
        }
        signs.push(b' ')?;
    }
    Ok(signs)
}

// The bindings that make the two terms equal, or `false`; in memory that is lent, or that isn't.
fn answer(
    alloc: Global,
    scratch: Option<&mut Scratch>,
    slots: &Slots,
    s: &Flat,
    t: &Flat,
) -> Result<Vec<u8>, AllocError> {
    if !slots.are_in_range(s.cells()) {
        return Err(AllocError);
    }
    if !slots.are_in_range(t.cells()) {
        return Err(AllocError);
    }
    let mut trail = Trail::with_slots(alloc, slots.count())?;
    let is_solved = match scratch {
        Some(scratch) => solve_with(scratch, &mut trail, slots, s.cells(), t.cells())?,
        None => solve(alloc, &mut trail, slots, s.cells(), t.cells())?,
    };
    if is_solved {
        listed(alloc, &trail)
    } else {
        Vec::from_slice(alloc, b"false")
    }
}

fn frozen(query: bool, entry: bool) -> Slots {
    Slots {
        query: 3,
        entry: 3,
        inds: 2,
        freeze_query: query,
        freeze_entry: entry,
    }
}

// Two terms, and their answers: with nothing frozen, the query's variables, the entry's, and both.
type Row = (&'static [u8], &'static [u8], [&'static [u8]; 4]);

fn assert_signs(rt: &impl Abort, seen: &[u8], due: &[u8]) {
    assert_eq!(rt; seen, due);
}

fn assert_solved(
    rt: &impl Abort,
    alloc: Global,
    scratch: Option<&mut Scratch>,
    slots: &Slots,
    (s, t, due): (&Flat, &Flat, &[u8]),
) -> Result<(), AllocError> {
    let seen = answer(alloc, scratch, slots, s, t)?;
    assert_signs(rt, seen.as_slice(), due);
    Ok(())
}

// Looks at one equation, in memory that is lent and in memory that isn't.
fn assert_answer(
    rt: &impl Abort,
    alloc: Global,
    scratch: &mut Scratch,
    slots: &Slots,
    row: (&[u8], &[u8], &[u8]),
) -> Result<(), AllocError> {
    let s = read(alloc, row.0)?;
    let t = read(alloc, row.1)?;
    assert_solved(rt, alloc, Some(scratch), slots, (&s, &t, row.2))?;
    assert_solved(rt, alloc, None, slots, (&s, &t, row.2))
}

fn assert_row(
    rt: &impl Abort,
    alloc: Global,
    scratch: &mut Scratch,
    row: &Row,
) -> Result<(), AllocError> {
    let freezings = [
        frozen(false, false),
        frozen(true, false),
        frozen(false, true),
        frozen(true, true),
    ];
    for (slots, expected) in freezings.iter().zip(row.2.iter()) {
        assert_answer(rt, alloc, scratch, slots, (row.0, row.1, *expected))?;
    }
    Ok(())
}

// Looks at the rows under each freezing, in memory that is lent.
fn assert_rows_in(
    rt: &impl Abort,
    alloc: Global,
    scratch: &mut Scratch,
    rows: &[Row],
) -> Result<(), AllocError> {
    // Room for terms of eight cells. For longer ones it grows.
    scratch.reserve(&frozen(false, false), 8)?;
    for row in rows {
        assert_row(rt, alloc, scratch, row)?;
    }
    Ok(())
}

fn assert_rows(rt: &impl Abort, alloc: Global, rows: &[Row]) -> Result<(), AllocError> {
    let mut scratch = Scratch::new(alloc);
    assert_rows_in(rt, alloc, &mut scratch, rows)
}

// Clashes at every depth.
const CLASHES: &[Row] = &[
    (b"a", b"a", [b""; 4]),
    (b"a", b"b", [b"false"; 4]),
    (b"ga", b"gb", [b"false"; 4]),
    (b"gga", b"ggb", [b"false"; 4]),
    (b"ggga", b"gggb", [b"false"; 4]),
    (b"faga", b"fagb", [b"false"; 4]),
    (b"fgab", b"fgaa", [b"false"; 4]),
    (b"ga", b"ha", [b"false"; 4]),
    (b"ga", b"a", [b"false"; 4]),
    (b"fab", b"ga", [b"false"; 4]),
    (b"ga", b"fab", [b"false"; 4]),
    (b"fafbc", b"fafbb", [b"false"; 4]),
    (b"fab", b"fba", [b"false"; 4]),
    (b"gga", b"ga", [b"false"; 4]),
];

// Equal terms.
const EQUAL: &[Row] = &[
    (b"gx", b"gx", [b""; 4]),
    (b"fxX", b"fxX", [b""; 4]),
    (b"fab", b"fab", [b""; 4]),
    (b"fxfyz", b"fxfyz", [b""; 4]),
    (b"ggX", b"ggX", [b""; 4]),
];

// A variable and a term.
const TERMS: &[Row] = &[
    (b"x", b"a", [b"x=a ", b"false", b"x=a ", b"false"]),
    (b"a", b"x", [b"x=a ", b"false", b"x=a ", b"false"]),
    (b"X", b"a", [b"X=a ", b"X=a ", b"false", b"false"]),
    (b"a", b"X", [b"X=a ", b"X=a ", b"false", b"false"]),
    (b"gx", b"ga", [b"x=a ", b"false", b"x=a ", b"false"]),
    (b"ga", b"gX", [b"X=a ", b"X=a ", b"false", b"false"]),
    (b"fxX", b"fab", [b"x=a X=b ", b"false", b"false", b"false"]),
    (
        b"fgxgX",
        b"fgagb",
        [b"x=a X=b ", b"false", b"false", b"false"],
    ),
    (b"x", b"gga", [b"x=gga ", b"false", b"x=gga ", b"false"]),
    (b"gfxy", b"X", [b"X=gfxy ", b"X=gfxy ", b"false", b"false"]),
];

// A variable and a variable.
const VARIABLES: &[Row] = &[
    (b"x", b"y", [b"x=y ", b"false", b"x=y ", b"false"]),
    (b"y", b"x", [b"y=x ", b"false", b"y=x ", b"false"]),
    (b"x", b"X", [b"x=X ", b"X=x ", b"x=X ", b"false"]),
    (b"X", b"x", [b"X=x ", b"X=x ", b"x=X ", b"false"]),
    (b"X", b"Y", [b"X=Y ", b"X=Y ", b"false", b"false"]),
    (b"Y", b"X", [b"Y=X ", b"Y=X ", b"false", b"false"]),
    (b"p", b"x", [b"p=x "; 4]),
    (b"x", b"p", [b"x=p ", b"p=x ", b"x=p ", b"p=x "]),
    (b"p", b"X", [b"p=X "; 4]),
    (b"X", b"p", [b"X=p ", b"X=p ", b"p=X ", b"p=X "]),
    (b"p", b"q", [b"p=q "; 4]),
    (b"q", b"p", [b"q=p "; 4]),
    (b"p", b"p", [b""; 4]),
    (b"x", b"x", [b""; 4]),
    (b"X", b"X", [b""; 4]),
];

// Indicators.
const INDICATORS: &[Row] = &[
    (b"p", b"ga", [b"p=ga "; 4]),
    (b"ga", b"p", [b"p=ga "; 4]),
    (b"fpq", b"fab", [b"p=a q=b "; 4]),
    (b"fpp", b"fab", [b"false"; 4]),
    (b"fpp", b"faa", [b"p=a "; 4]),
    (
        b"fpx",
        b"fqp",
        [b"p=q x=q ", b"p=q q=x ", b"p=q x=q ", b"p=q q=x "],
    ),
    (b"gp", b"gga", [b"p=ga "; 4]),
    (b"fpgp", b"fqga", [b"p=q q=a "; 4]),
    (b"c", b"ga", [b"false"; 4]),
    (b"ga", b"c", [b"false"; 4]),
    (b"fca", b"fgaa", [b"false"; 4]),
    (b"fac", b"faga", [b"false"; 4]),
];

// Circles.
const CIRCLES: &[Row] = &[
    (b"x", b"gx", [b"false"; 4]),
    (b"gx", b"x", [b"false"; 4]),
    (b"X", b"gX", [b"false"; 4]),
    (b"p", b"gp", [b"false"; 4]),
    (b"fxx", b"fxgx", [b"false"; 4]),
    (b"fxy", b"fgygx", [b"false"; 4]),
    (b"fpq", b"fgqgp", [b"false"; 4]),
    (b"fxX", b"fgXgx", [b"false"; 4]),
    (b"fxfyz", b"fgyfgzgx", [b"false"; 4]),
    (b"ffxyfzX", b"ffgygzfgXgx", [b"false"; 4]),
    (b"fxX", b"fXgx", [b"false"; 4]),
    (b"fxy", b"fyx", [b"x=y ", b"false", b"x=y ", b"false"]),
];

// Variables that stand twice.
const TWICE: &[Row] = &[
    (b"fxx", b"fab", [b"false"; 4]),
    (b"fxx", b"faa", [b"x=a ", b"false", b"x=a ", b"false"]),
    (
        b"fxy",
        b"fya",
        [b"x=y y=a ", b"false", b"x=y y=a ", b"false"],
    ),
    (
        b"fxx",
        b"fyY",
        [b"x=y Y=y ", b"false", b"x=y y=Y ", b"false"],
    ),
    (
        b"fxfyz",
        b"fyfza",
        [b"x=y z=y y=a ", b"false", b"x=y z=y y=a ", b"false"],
    ),
    (
        b"fxfxy",
        b"fgYfgaz",
        [b"x=gY y=z Y=a ", b"false", b"false", b"false"],
    ),
    (
        b"fxfxx",
        b"fyfza",
        [b"x=y z=y y=a ", b"false", b"x=y z=y y=a ", b"false"],
    ),
    (
        b"fxfyz",
        b"ffyyffzzfaa",
        [
            b"x=fyy y=fzz z=faa ",
            b"false",
            b"x=fyy y=fzz z=faa ",
            b"false",
        ],
    ),
    (
        b"ffxfyzfXY",
        b"fffyyffzzfaafffZZfZZffaafaa",
        [
            b"x=fyy y=fzz z=faa X=ffZZfZZ Y=ffaafaa ",
            b"false",
            b"false",
            b"false",
        ],
    ),
    (
        b"ffxfyzx",
        b"fffyyffzzfXXfffXXfXXffXXfXX",
        [
            b"x=fyy y=fzz z=fXX ",
            b"false",
            b"x=fyy y=fzz z=fXX ",
            b"false",
        ],
    ),
    (
        b"fyfza",
        b"fxfyz",
        [b"y=x z=x x=a ", b"false", b"y=x z=x x=a ", b"false"],
    ),
    (
        b"fxfXx",
        b"fyfYX",
        [b"x=y X=Y y=Y ", b"false", b"false", b"false"],
    ),
    (b"fXY", b"fYX", [b"X=Y ", b"X=Y ", b"false", b"false"]),
    (
        b"fXgX",
        b"fgaY",
        [b"X=ga Y=gX ", b"X=ga Y=gX ", b"false", b"false"],
    ),
    (
        b"fXfYZ",
        b"fYfZX",
        [b"X=Y Z=Y ", b"X=Y Z=Y ", b"false", b"false"],
    ),
    (b"fgXfXx", b"fyfyy", [b"false"; 4]),
    (
        b"fxX",
        b"fXgb",
        [b"x=X X=gb ", b"false", b"false", b"false"],
    ),
];

// A test for each table or two: the text of all rows together is long.

#[test]
fn clashes_and_equal_terms(rt: HostRuntime) -> Result<(), Fail> {
    assert_rows(&rt, rt.alloc(), CLASHES)?;
    assert_rows(&rt, rt.alloc(), EQUAL)?;
    Ok(())
}

#[test]
fn variables_and_terms(rt: HostRuntime) -> Result<(), Fail> {
    assert_rows(&rt, rt.alloc(), TERMS)?;
    Ok(())
}

#[test]
fn variables_and_variables(rt: HostRuntime) -> Result<(), Fail> {
    assert_rows(&rt, rt.alloc(), VARIABLES)?;
    Ok(())
}

#[test]
fn indicators(rt: HostRuntime) -> Result<(), Fail> {
    assert_rows(&rt, rt.alloc(), INDICATORS)?;
    Ok(())
}

#[test]
fn circles(rt: HostRuntime) -> Result<(), Fail> {
    assert_rows(&rt, rt.alloc(), CIRCLES)?;
    Ok(())
}

#[test]
fn variables_that_stand_twice(rt: HostRuntime) -> Result<(), Fail> {
    assert_rows(&rt, rt.alloc(), TWICE)?;
    Ok(())
}
