//! Rows of bits, compared by lanes: which of many rows may matter for a question, before any of
//! them is looked at closely. A screen of this kind stands before most indexes of clauses (feature
//! vectors, Schulz 2004); here a row has 256 bits.
//!
//! A row is four words of 64 bits; `specs/Rows.antt` says which bit stands where.
#![tactic(auto)]

ghost use Rattle.std.specs.Prelude.{◌≡◌, ◌↔◌, ◌+◌, ◌-◌, ◌^◌, ◌<◌, ◌≤◌, [], ◌∷◌, ◌++◌, OnOk, OnErr, IsTrue, length, take, vec_len, vec_capacity};
ghost use Rattle.si_lanes.specs.Rows.{IsSubset, AppendsPositions, SetsBit};

use std::alloc::AllocError;
use std::simd::prelude::*;

/// A row of 256 bits.
pub type Row = [u64; 4];

/// The row in which no bit is set.
pub const EMPTY: Row = [0; 4];

/// Sets a bit.
pub fn set_bit(row: &mut Row, bit: u8)
    ensures { SetsBit row.old row.new bit }
{
    row[(bit / 64) as usize] |= 1 << (bit % 64);
}

/// Appends the positions from 0 of exactly the rows whose set bits are all set in the mask, rising.
///
/// # Errors
///
/// `AllocError` where there is no memory for the positions. Then `out` is as before.
pub fn subset_rows(mask: &Row, rows: &[Row], out: &mut Vec<u32>) -> Result<(), AllocError>
    requires { length rows.now < 2 ^ 32 - 1 }
    ensures ok { OnOk result (AppendsPositions (λ row. IsSubset row mask.now) rows.now
        out.old.items out.new.items) }
    ensures err { OnErr result (out.new.items ≡ out.old.items) }
    ensures full { OnErr result (vec_capacity out.old < vec_len out.old + length rows.now) }
{
    let mark = out.len();
    for position in 0..rows.len() {
        if is_within(&rows[position], mask) {
            append(position as u32, mark, out)?;
        }
    }
    Ok(())
}

/// Appends the positions from 0 of exactly the rows in which all set bits of the mask are set,
/// rising.
///
/// # Errors
///
/// `AllocError` where there is no memory for the positions. Then `out` is as before.
pub fn superset_rows(mask: &Row, rows: &[Row], out: &mut Vec<u32>) -> Result<(), AllocError>
    requires { length rows.now < 2 ^ 32 - 1 }
    ensures ok { OnOk result (AppendsPositions (λ row. IsSubset mask.now row) rows.now
        out.old.items out.new.items) }
    ensures err { OnErr result (out.new.items ≡ out.old.items) }
    ensures full { OnErr result (vec_capacity out.old < vec_len out.old + length rows.now) }
{
    let mark = out.len();
    for position in 0..rows.len() {
        if is_within(mask, &rows[position]) {
            append(position as u32, mark, out)?;
        }
    }
    Ok(())
}

/// Appends one position. Where memory runs out, the list is cut to its first `mark` items.
#[inline(never)]
fn append(position: u32, mark: usize, out: &mut Vec<u32>) -> Result<(), AllocError>
    requires { mark ≤ length out.old.items }
    ensures ok { OnOk result (out.new.items ≡ out.old.items ++ position ∷ []) }
    ensures err { OnErr result (out.new.items ≡ take mark out.old.items) }
    ensures len { OnOk result (vec_len out.new ≡ vec_len out.old + 1) }
    ensures capacity { OnOk result (vec_capacity out.old ≤ vec_capacity out.new) }
    ensures full { OnErr result (vec_capacity out.old ≤ vec_len out.old) }
{
    match out.push(position) {
        Ok(()) => Ok(()),
        Err(_) => {
            out.truncate(mark);
            Err(AllocError)
        }
    }
}

/// Whether each bit that is set in the row is set in the other one. Most rows differ in the first
/// word, so that is looked at before the lanes are.
#[inline(always)]
fn is_within(row: &Row, other: &Row) -> bool
    ensures { IsTrue result ↔ IsSubset row.now other.now }
{
    if row[0] & !other[0] != 0 {
        return false;
    }
    is_subset(u64x4::from_array(*row), u64x4::from_array(*other))
}

/// Whether each bit that is set in the row is set in the other one.
#[inline(always)]
fn is_subset(row: u64x4, other: u64x4) -> bool
    ensures { IsTrue result ↔ IsSubset row other }
{
    let outside = row & !other;
    outside.simd_eq(u64x4::splat(0)).to_bitmask() == 15
}
