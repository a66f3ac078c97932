//! The first cells of a template's complement, compared all at once with what is known of cells in a row.

ghost use Rattle.std.specs.Prelude.{◌≡◌, ◌+◌, ◌<◌, ◌≤◌, ◌^◌, List, ℕ, length, slice_index, take, true};
ghost use Rattle.template_search.specs.Openings.{Agrees, Differs, IsOpening, mask_at, packed};

use crate::template::Template;

/// The bit that turns each nop into the other, in each of eight bytes.
const OTHER_NOPS: u64 = 0x0101_0101_0101_0101;

/// The bits that no instruction's code has, in each of eight bytes.
const NO_CODE: u64 = 0xE0E0_E0E0_E0E0_E0E0;

/// The first eight cells of a template's complement, or all that it has, as the bytes of a number, the first cell the
/// lowest. The mask has 255 for each of them.
#[derive(Clone, Copy, Drop)]
pub struct Opening {
    pub cells: u64,
    pub mask: u64,
}

impl Opening {
    /// The opening of a template's complement.
    pub fn of(template: &Template) -> Opening
        ensures { IsOpening (take template.now.len template.now.cells) result }
    {
        let mask = mask_of(template.len);
        Opening {
            cells: (template.word ^ OTHER_NOPS) & mask,
            mask,
        }
    }

    /// Whether the row shows a mismatch from `place` on: the cells compared are all known, and one of them differs.
    #[inline]
    pub fn differs(self, row: &[u8], place: u32) -> bool
        requires { place + 8 ≤ length row.now }
        ensures { (vs : List ℕ) → IsOpening vs self → result ≡ true → Differs vs row.now place }
    {
        let seen = word_at(row, place as usize) & self.mask;
        seen != self.cells && seen & NO_CODE == 0
    }

    /// Whether the row shows a match from `place` on, as far as the opening goes.
    #[inline]
    pub fn agrees(self, row: &[u8], place: u32) -> bool
        requires { place + 8 ≤ length row.now }
        ensures { (vs : List ℕ) → IsOpening vs self → result ≡ true → Agrees vs row.now place }
    {
        word_at(row, place as usize) & self.mask == self.cells
    }

    /// Whether the row shows a mismatch from each of two places on.
    #[inline]
    pub fn both_differ(self, row: &[u8], first: u32, second: u32) -> bool
        requires first { first + 8 ≤ length row.now }
        requires second { second + 8 ≤ length row.now }
        ensures { (vs : List ℕ) → IsOpening vs self → result ≡ true
            → Differs vs row.now first × Differs vs row.now second }
    {
        let one = word_at(row, first as usize) & self.mask;
        let other = word_at(row, second as usize) & self.mask;
        if (one & NO_CODE) | (other & NO_CODE) != 0 {
            return false;
        }
        one != self.cells && other != self.cells
    }
}

// 255 in each of the first `len` of eight bytes.
fn mask_of(len: u32) -> u64
    ensures { (vs : List ℕ) → length vs ≡ len → result ≡ packed (mask_at vs) }
{
    if len < 8 {
        (1 << (8 * len)) - 1
    } else {
        u64::MAX
    }
}

// The eight cells of the row from `place` on.
fn word_at(row: &[u8], place: usize) -> u64
    requires { place + 8 ≤ length row.now }
    ensures word { result ≡ packed (λ j. slice_index row.now (place + j)) }
    ensures bytes { (j : ℕ) → slice_index row.now j < 2 ^ 8 }
{
    u64::from_le_bytes([
        row[place],
        row[place + 1],
        row[place + 2],
        row[place + 3],
        row[place + 4],
        row[place + 5],
        row[place + 6],
        row[place + 7],
    ])
}
