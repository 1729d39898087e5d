// The least maps of one clause to another.
use si_flat::LitMap;
use si_subsume::least_map;
use si_texts::formula_in;
use std::alloc::{AllocError, Global};
use std::process::Abort;
use std::test::Fail;

/// The numbers of the least map, and none where there is no map.
fn answer(alloc: Global, c: &[u8], d: &[u8]) -> Result<LitMap, AllocError> {
    let c = formula_in(alloc, c)?;
    let d = formula_in(alloc, d)?;
    let map = least_map(alloc, &c, &d)?;
    Ok(map.unwrap_or(LitMap::new(alloc)))
}

fn assert_map(rt: &impl Abort, seen: &[u32], due: &[u32]) {
    assert_eq!(rt; seen, due);
}

fn assert_row(rt: &impl Abort, alloc: Global, row: &Row) -> Result<(), AllocError> {
    let map = answer(alloc, row.0, row.1)?;
    assert_map(rt, map.as_slice(), row.2);
    Ok(())
}

/// Two formulas, and the least map, or nothing.
type Row = (&'static [u8], &'static [u8], &'static [u32]);

fn assert_rows(rt: &impl Abort, alloc: Global, rows: &[Row]) -> Result<(), AllocError> {
    for row in rows {
        assert_row(rt, alloc, row)?;
    }
    Ok(())
}

const LEAST: [Row; 13] = [
    (b"p(a)|p(b)", b"p(X)|p(Y)", &[]),
    (b"p(a)|q(b)|~r(X)", b"~r(c)|q(b)|p(a)", &[3, 2, 1]),
    (b"p(X)|~p(X)", b"p(a)|p(b)|~p(b)", &[2, 3]),
    (
        b"q(X)|r(Y)|t(Z)|s(X)|u(Y)",
        b"q(a)|q(b)|r(c)|r(d)|t(e)|t(f)|s(b)|u(d)",
        &[2, 4, 5, 7, 8],
    ),
    (
        b"q(X)|r(Y)|t(Z)|s(X)|u(Y)",
        b"q(a)|q(b)|r(c)|r(d)|t(e)|t(f)|s(b)|u(e)",
        &[],
    ),
    (
        b"r(Y)|q(X)|s(X)|u(Y)",
        b"r(c)|r(d)|q(a)|q(b)|s(b)|s(a)|u(c)",
        &[1, 3, 6, 7],
    ),
    (b"p(X)|q(X)", b"p(Y)|q(Z)", &[]),
    (b"p(Y)|q(Z)", b"p(X)|q(X)", &[1, 2]),
    (b"p(X)|q(X)", b"q(Y)|p(Y)", &[2, 1]),
    (b"p(X)", b"p(a)|p(b)|p(c)", &[1]),
    (
        b"p(X)|p(Y)|q(X)|q(Y)",
        b"p(a)|p(b)|p(c)|q(c)",
        &[3, 3, 4, 4],
    ),
    // Parts that share no variable, one of which has no map in the second row.
    (
        b"p(X,Y)|p(Z,W)|p(Y,b)|p(W,a)",
        b"p(a,a)|p(a,b)|p(b,a)|p(b,b)",
        &[1, 1, 2, 1],
    ),
    (
        b"p(X,Y)|p(Z,W)|p(Y,b)|p(W,c)",
        b"p(a,a)|p(a,b)|p(b,a)|p(b,b)",
        &[],
    ),
];

#[test]
fn maps_are_the_least(rt: HostRuntime) -> Result<(), Fail> {
    assert_rows(&rt, rt.alloc(), &LEAST)?;
    Ok(())
}
