//! Cells in one row.

ghost use Rattle.std.specs.Prelude.{◌≡◌, ◌<◌, IfOk, length, replicate, slice_index, slice_set};

use crate::pages::Pages;
use std::alloc::Global;
use std::marker::Model;
use tierra_model::OutOfMemory;

/// Cells in one row, which no version shares.
#[derive(Drop)]
pub(crate) struct Row {
    cells: Vec<u8>,
}

impl Model for Row {
    ghost use Rattle.std.specs.Prelude.{◌<◌, ◌^◌, All, List, ℕ, length};

    ghost Value = { List ℕ };

    ghost view = { λ r. r.cells.items };

    ghost invariant = { λ r. (length r.cells.items < 2 ^ 32) × All (λ v. v < 32) r.cells.items };
}

impl Row {
    /// A row of `size` cells, all 0.
    pub(crate) fn new(alloc: Global, size: u32) -> Result<Row, OutOfMemory>
        ensures { IfOk result (λ r. r ≡ replicate size 0) }
    {
        Ok(Row {
            cells: vec![in alloc; 0; size as usize]?,
        })
    }

    #[inline]
    pub(crate) fn get(&self, at: u32) -> u8
        requires { at < length self.now }
        ensures value { result ≡ slice_index self.now at }
        ensures code { result < 32 }
    {
        self.cells[at as usize]
    }

    #[inline]
    pub(crate) fn cells(&self) -> &[u8]
        ensures { result.now ≡ self.now }
    {
        self.cells.as_slice()
    }

    #[inline]
    pub(crate) fn set(&mut self, at: u32, value: u8)
        requires within { at < length self.old }
        requires code { value < 32 }
        ensures { self.new ≡ slice_set self.old at value }
    {
        self.cells[at as usize] = value;
    }

    /// The cells, cut into pages.
    pub(crate) fn cut(&self) -> Result<Pages, OutOfMemory>
        ensures { IfOk result (λ p. p.cells ≡ self.now) }
    {
        Pages::cut(*self.cells.allocator(), self.cells.as_slice())
    }
}
