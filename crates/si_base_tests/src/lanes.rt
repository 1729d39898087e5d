ghost use Rattle.std.specs.Prelude.{◌<◌, length};

use si_lanes::{Row, subset_rows, superset_rows};
use std::alloc::{AllocError, Global};
use std::process::Abort;
use std::test::Fail;

fn put_kept(is_subset: bool, mask: &Row, rows: &[Row], out: &mut Vec<u32>) -> Result<(), AllocError>
    requires { length rows.now < 100 }
{
    if is_subset {
        return subset_rows(mask, rows, out);
    }
    superset_rows(mask, rows, out)
}

/// The positions that a kernel appends to a list that holds 9.
fn kept(alloc: Global, is_subset: bool, mask: &Row, rows: &[Row]) -> Result<Vec<u32>, AllocError>
    requires { length rows.now < 100 }
{
    let mut out = vec![in alloc; 9]?;
    put_kept(is_subset, mask, rows, &mut out)?;
    Ok(out)
}

const ROWS: [Row; 6] = [
    [2, 0, 0, 0],
    [4, 0, 0, 0],
    [8, 0, 0, 0],
    [0; 4],
    [6, 0, 0, 0],
    [2, 0, 0, 1 << 63],
];

fn assert_kept(
    rt: &impl Abort,
    alloc: Global,
    is_subset: bool,
    mask: &Row,
    due: &[u32],
) -> Result<(), AllocError> {
    let out = kept(alloc, is_subset, mask, &ROWS)?;
    assert_eq!(rt; out.as_slice(), due);
    Ok(())
}

#[test]
fn rows_are_kept(rt: HostRuntime) -> Result<(), Fail> {
    assert_kept(&rt, rt.alloc(), true, &[6, 0, 0, 0], &[9, 0, 1, 3, 4])?;
    assert_kept(&rt, rt.alloc(), false, &[2, 0, 0, 0], &[9, 0, 4, 5])?;
    Ok(())
}

/// Whether the row's bits are all set in the other one, word by word.
fn is_within(row: &Row, other: &Row) -> bool {
    row.iter()
        .zip(other.iter())
        .all(|(word, outer)| word & !outer == 0)
}

/// Rows whose bits are drawn, few in each word.
fn drawn() -> [Row; 20] {
    let mut rows = [[0; 4]; 20];
    let mut state: u64 = 1;
    for row in rows.iter_mut() {
        for word in row.iter_mut() {
            state = state
                .wrapping_mul(6364136223846793005)
                .wrapping_add(1442695040888963407);
            *word = 1u64.rotate_left((state >> 61) as u32) | (1u64 << 63 & state);
        }
    }
    rows
}

/// Appends the positions of the rows that the plain filter keeps.
fn put_filtered(
    is_subset: bool,
    mask: &Row,
    rows: &[Row],
    out: &mut Vec<u32>,
) -> Result<(), AllocError>
    requires { length rows.now < 100 }
{
    for position in 0..rows.len() {
        let row = &rows[position];
        let keeps = if is_subset {
            is_within(row, mask)
        } else {
            is_within(mask, row)
        };
        if keeps {
            out.push(position as u32)?;
        }
    }
    Ok(())
}

fn assert_filtered(
    rt: &impl Abort,
    alloc: Global,
    is_subset: bool,
    mask: &Row,
    rows: &[Row],
) -> Result<(), AllocError>
    requires { length rows.now < 100 }
{
    let mut due = vec![in alloc; 9]?;
    put_filtered(is_subset, mask, rows, &mut due)?;
    let out = kept(alloc, is_subset, mask, rows)?;
    assert_eq!(rt; out.as_slice(), due.as_slice());
    Ok(())
}

#[test]
fn up_to_twenty_rows_are_filtered(rt: HostRuntime) -> Result<(), Fail> {
    let rows = drawn();
    let masks = [[0; 4], [7, 7, 7, 7], [1, 3, 0, 1 << 63], [u64::MAX; 4]];
    for count in 0..21 {
        for mask in &masks {
            assert_filtered(&rt, rt.alloc(), true, mask, &rows[..count])?;
            assert_filtered(&rt, rt.alloc(), false, mask, &rows[..count])?;
        }
    }
    Ok(())
}
