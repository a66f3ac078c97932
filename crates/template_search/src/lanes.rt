//! Sixteen candidates compared at once with what is known of cells in a row, each in a lane of a vector.

ghost use Rattle.std.specs.Prelude.{◌≡◌, ◌+◌, ◌-◌, ◌<◌, ◌≤◌, ◌^◌, ℕ, length, slice_index};
ghost use Rattle.std.specs.Int.{bit_at};
ghost use Rattle.template_search.specs.Openings.{AreUnlike, Differs};

use std::simd::prelude::*;

/// How many candidates are compared at once.
pub const LANES: u32 = 16;

/// How many candidates, of sixteen from `place` on, come before the first that the row does not rule out. A candidate is
/// ruled out if the cells compared are all known, and one of them differs.
#[inline(always)]
pub fn ruled_out_ahead(nops: &[u8], row: &[u8], place: u32) -> u32
    requires nops { (j : ℕ) → j < length nops.now → slice_index nops.now j < 2 }
    requires within { place + 23 ≤ length row.now }
    ensures at_most { result ≤ 16 }
    ensures differ { (j : ℕ) → j < result → Differs nops.now row.now (place + j) }
{
    let likely = likely_from(nops, row, place as usize);
    if likely == 0 {
        LANES
    } else {
        likely.trailing_zeros()
    }
}

/// The same of sixteen candidates from `place` back.
#[inline(always)]
pub fn ruled_out_behind(nops: &[u8], row: &[u8], place: u32) -> u32
    requires nops { (j : ℕ) → j < length nops.now → slice_index nops.now j < 2 }
    requires begin { 15 ≤ place }
    requires within { place + 8 ≤ length row.now }
    ensures at_most { result ≤ 16 }
    ensures differ { (j : ℕ) → j < result → Differs nops.now row.now (place - j) }
{
    let likely = likely_from(nops, row, place as usize - 15);
    likely.leading_zeros() - 48
}

// Bit j is 0 only if the candidate j cells after `place` is ruled out: its bits that differ are 1 to 31.
#[inline(always)]
fn likely_from(nops: &[u8], row: &[u8], place: usize) -> u64
    requires nops { (j : ℕ) → j < length nops.now → slice_index nops.now j < 2 }
    requires within { place + 23 ≤ length row.now }
    ensures below { result < 2 ^ 16 }
    ensures differ { (j : ℕ) → j < 16 → bit_at result j ≡ 0 → Differs nops.now row.now (place + j) }
{
    let unlike = unlike_from(nops, row, place);
    (unlike - u8x16::splat(1))
        .simd_ge(u8x16::splat(31))
        .to_bitmask()
}

// The bits in which the first eight cells of each candidate, or as many as the template has, differ from the
// complement's. They are below 32 only if these cells are all known.
#[inline(always)]
fn unlike_from(nops: &[u8], row: &[u8], place: usize) -> u8x16
    requires nops { (j : ℕ) → j < length nops.now → slice_index nops.now j < 2 }
    requires within { place + 23 ≤ length row.now }
    ensures { AreUnlike nops.now row.now place 8 result }
{
    let mut unlike = u8x16::splat(0);
    for at in 0..nops.len().min(8) {
        unlike = unlike | (u8x16::from_slice(&row[place + at..]) ^ u8x16::splat(nops[at] ^ 1));
    }
    unlike
}
