//! A soup as seen by code that reads and writes its cells, and a world as it is now.

ghost use Rattle.std.specs.Prelude.{◌≡◌, ◌==◌, ℕ, ◌<◌, Bool, IfSome, true, length, if◌then◌else◌, slice_index, slice_index_or};

use crate::creatures::{Block, Creature, Standing};

/// Cells that can be looked at and written. A view may keep account of both.
pub trait View {
    /// How many cells there are.
    ghost size: { Self → ℕ };

    /// What each cell holds.
    ghost cells: { Self → ℕ → ℕ };

    /// Whether a cell may be written.
    ghost writable: { Self → ℕ → Bool };

    /// The view that a look at a cell leaves.
    ghost looked: { Self → ℕ → Self };

    /// The view that the write of a value to a cell leaves.
    ghost written: { Self → ℕ → ℕ → Self };

    fn size(&self) -> u32
        ensures { result ≡ size self.now };

    fn get(&mut self, at: u32) -> u8
        requires { at < size self.old }
        ensures value { result ≡ cells self.old at }
        ensures after { self.new ≡ looked self.old at };

    fn may_write(&self, at: u32) -> bool
        requires { at < size self.now }
        ensures { result ≡ writable self.now at };

    fn set(&mut self, at: u32, value: u8)
        requires inside { at < size self.old }
        requires allowed { writable self.old at ≡ true }
        requires a_code { value < 32 }
        ensures { self.new ≡ written self.old at value };

    /// One byte for each cell, if the view has them in one slice: a byte below 32 is what the cell holds, and a look at
    /// that cell changes nothing. Any other byte tells nothing.
    fn row(&self) -> Option<&[u8]>
        ensures len { IfSome result (λ row. length row.now ≡ size self.now) }
        ensures held { IfSome result (λ row. (p : ℕ) → p < size self.now → slice_index row.now p < 32
            → slice_index row.now p ≡ cells self.now p) }
        ensures traceless { IfSome result (λ row. (p : ℕ) → p < size self.now → slice_index row.now p < 32
            → looked self.now p ≡ self.now) }
    {
        None
    }

    /// A look changes nothing that can be seen.
    ghost look_keeps_size: { (v : Self) (p : ℕ) → size (looked v p) ≡ size v };

    ghost look_keeps_cells: { (v : Self) (p q : ℕ) → cells (looked v p) q ≡ cells v q };

    ghost look_keeps_writable: { (v : Self) (p q : ℕ) → writable (looked v p) q ≡ writable v q };

    /// A write changes that cell alone, and not what may be written.
    ghost write_keeps_size: { (v : Self) (p x : ℕ) → p < size v → writable v p ≡ true → x < 32
        → size (written v p x) ≡ size v };

    ghost write_sets_cell: { (v : Self) (p x q : ℕ) → p < size v → writable v p ≡ true → x < 32 → q < size v
        → cells (written v p x) q ≡ (if q == p then x else cells v q) };

    ghost write_keeps_writable: { (v : Self) (p x q : ℕ) → p < size v → writable v p ≡ true → x < 32
        → writable (written v p x) q ≡ writable v q };
}

/// A world as it is now, for comparison with what a quantum read.
pub trait Now {
    ghost use Rattle.tierra_model.specs.World.{World, front};
    ghost use Rattle.tierra_model.specs.FreeList.{free_list};
    ghost use Rattle.tierra_model.specs.Yard.{yard, no_standing};
    ghost use Rattle.tierra_model.specs.Blocks.{no_block};

    ghost world: { Self → World };

    fn cell(&self, at: u32) -> u8
        requires { at < length (world self.now).soup }
        ensures { result ≡ slice_index (world self.now).soup at };

    fn front(&self) -> &Creature
        ensures { result.now ≡ front (world self.now) };

    fn free_len(&self) -> u32
        ensures { result ≡ length (free_list (world self.now)) };

    fn free_at(&self, place: u32) -> Block
        requires { place < length (free_list (world self.now)) }
        ensures { result ≡ slice_index_or (free_list (world self.now)) place no_block };

    fn yard_len(&self) -> u32
        ensures { result ≡ length (yard (world self.now)) };

    fn standing(&self, place: u32) -> Standing
        requires { place < length (yard (world self.now)) }
        ensures { result ≡ slice_index_or (yard (world self.now)) place no_standing };
}
