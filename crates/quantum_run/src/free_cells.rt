//! The free cells as a quantum that runs alone sees them.

ghost use Rattle.std.specs.Prelude.{◌≡◌, ◌+◌, ◌<◌, ◌≤◌, ◌^◌, ◌&&◌, ◌||◌, ℕ, IfOk, length, not, true, false};
ghost use Rattle.tierra_model.specs.Blocks.{is_in};
ghost use Rattle.tierra_model.specs.FreeList.{is_in_some, runs_of};
ghost use Rattle.tierra_model.specs.Room as room;
ghost use Rattle.block_alloc.specs.Runs.{AllBelow, AreRuns};

use block_alloc::{Blocks, filled_of, fit_in};
use std::marker::Model;
use tierra_model::{Block, OutOfMemory};

/// The free runs of a job until a block is taken or given back, and a copy of them from then on. The room for the copy
/// is there from the beginning, so no change takes memory.
#[derive(Drop)]
pub(crate) struct FreeCells<'a> {
    size: u32,
    shown: &'a [Block],
    own: Blocks,
    is_own: bool,
}

impl<'a> Model for FreeCells<'a> {
    ghost use Rattle.std.specs.Prelude.{◌≡◌, ◌+◌, ◌-◌, ◌≤◌, if◌then◌else◌, length, false, true};
    ghost use Rattle.block_alloc.specs.Runs.{AreRuns};
    ghost use Rattle.block_alloc.specs.Blocks.{BlocksFields};

    ghost Value = { BlocksFields };

    ghost view = { λ f. record {
      size = f.size;
      free = if f.is_own then f.own.free else f.shown.now;
      spare = if f.is_own then f.own.spare else length f.own.free + f.own.spare - length f.shown.now;
    } };

    ghost invariant = { λ f. AreRuns 0 f.size f.shown.now
        × (f.is_own ≡ false → length f.shown.now ≤ length f.own.free + f.own.spare)
        × (f.is_own ≡ true → f.own.size ≡ f.size) };
}

impl<'a> FreeCells<'a> {
    /// The free runs of a job in a soup of `size` cells, with room for `more` changes. The copy goes into `own`,
    /// whose contents do not matter.
    pub(crate) fn begin(
        shown: &'a [Block],
        size: u32,
        own: Blocks,
        more: u32,
    ) -> Result<FreeCells<'a>, OutOfMemory>
        requires runs { AreRuns 0 size shown.now }
        requires few { length shown.now + more < 2 ^ 32 }
        ensures free { IfOk result (λ f. f.free ≡ shown.now) }
        ensures size { IfOk result (λ f. f.size ≡ size) }
        ensures room { IfOk result (λ f. more ≤ f.spare) }
    {
        let mut own = own;
        own.reserve(shown.len() as u32 + more)?;
        Ok(FreeCells {
            size,
            shown,
            own,
            is_own: false,
        })
    }

    /// The room of the copy.
    pub(crate) fn into_own(self) -> Blocks {
        self.own
    }

    /// The least address of a block of free cells, if there is one of that size.
    pub(crate) fn fit(&self, size: u32) -> Option<u32>
        requires { 1 ≤ size }
        ensures { result ≡ room.first_fit self.now.size (λ p. not (is_in_some self.now.free p)) size }
    {
        if self.is_own {
            self.own.fit(size)
        } else {
            fit_in(self.shown, self.size, size)
        }
    }

    /// How many cells are owned.
    pub(crate) fn filled(&self) -> u32
        ensures { result ≡ room.filled self.now.size (λ p. not (is_in_some self.now.free p)) }
    {
        if self.is_own {
            self.own.filled()
        } else {
            filled_of(self.shown, self.size)
        }
    }

    /// Takes a block of free cells.
    pub(crate) fn take(&mut self, block: Block)
        requires free { (p : ℕ) → is_in block p ≡ true → is_in_some self.old.free p ≡ true }
        requires room { 0 < self.old.spare }
        ensures free { self.new.free ≡ runs_of self.old.size (λ p. is_in_some self.old.free p && not (is_in block p)) }
        ensures size { self.new.size ≡ self.old.size }
        ensures room { self.old.spare ≤ self.new.spare + 1 }
    {
        make_own(&mut self.own, &mut self.is_own, self.size, self.shown);
        self.own.take(block);
    }

    /// Gives a block back, whose cells are then free.
    pub(crate) fn give_back(&mut self, block: Block)
        requires within { AllBelow self.old.size block }
        requires owned { (p : ℕ) → is_in block p ≡ true → is_in_some self.old.free p ≡ false }
        requires room { 0 < self.old.spare }
        ensures free { self.new.free ≡ runs_of self.old.size (λ p. is_in_some self.old.free p || is_in block p) }
        ensures size { self.new.size ≡ self.old.size }
        ensures room { self.old.spare ≤ self.new.spare + 1 }
    {
        make_own(&mut self.own, &mut self.is_own, self.size, self.shown);
        self.own.give_back(block);
    }
}

ghost use Rattle.std.specs.Prelude.{◌-◌, if◌then◌else◌};

// Makes the copy, if it was not made before.
fn make_own(own: &mut Blocks, is_own: &mut bool, size: u32, shown: &[Block])
    requires runs { AreRuns 0 size shown.now }
    requires room { is_own.old ≡ false → length shown.now ≤ length own.old.free + own.old.spare }
    requires size { is_own.old ≡ true → own.old.size ≡ size }
    ensures free { own.new.free ≡ (if is_own.old then own.old.free else shown.now) }
    ensures size { own.new.size ≡ size }
    ensures room { (if is_own.old then own.old.spare else length own.old.free + own.old.spare - length shown.now)
        ≤ own.new.spare }
    ensures made { is_own.new ≡ true }
{
    if !*is_own {
        own.refill(size, shown);
        *is_own = true;
    }
}
