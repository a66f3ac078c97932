//! The block allocator.

ghost use Rattle.std.specs.Prelude.{◌≡◌, ◌↔◌, ◌+◌, ◌<◌, ◌≤◌, ◌&&◌, ◌||◌, [], ℕ, IfOk, IsTrue, OnOk, OnErr, Some, false, find, length, nat_le, not, option_map, slice_get, true};
ghost use Rattle.tierra_model.specs.Blocks.{is_in};
ghost use Rattle.tierra_model.specs.FreeList.{is_in_some, runs_of};
ghost use Rattle.tierra_model.specs.Room as room;
ghost use Rattle.block_alloc.specs.Runs.{AllBelow, AreRuns, cells_of};
ghost use Rattle.block_alloc.specs.Again.{tells};

use crate::runs::{put_in, take_out};
use std::alloc::Global;
use std::marker::Model;
use tierra_model::{Block, OutOfMemory};

/// The cells of a soup, each free or owned. A block is taken where it fits at the least address.
#[derive(Drop)]
pub struct Blocks {
    size: u32,
    // The runs of free cells, in order, none touching the next.
    free: Vec<Block>,
    filled: u32,
}

impl Model for Blocks {
    ghost use Rattle.std.specs.Prelude.{◌-◌, vec_len};
    ghost use Rattle.std.specs.Vec.{vec_capacity};
    ghost use Rattle.block_alloc.specs.Runs.{AreFree};
    ghost use Rattle.block_alloc.specs.Blocks.{BlocksFields};

    ghost Value = { BlocksFields };

    ghost view = { λ b. record { size = b.size; free = b.free.items; spare = vec_capacity b.free - vec_len b.free } };

    ghost invariant = { λ b. AreFree b.size b.filled b.free.items };
}

impl Blocks {
    /// All cells are free.
    pub fn new(alloc: Global, size: u32) -> Result<Blocks, OutOfMemory>
        ensures size { IfOk result (λ b. b.size ≡ size) }
        ensures free { IfOk result (λ b. b.free ≡ runs_of size (λ p. true)) }
    {
        let mut free = Vec::new(alloc);
        if size > 0 {
            free.push(Block { at: 0, size })?;
        }
        Ok(Blocks {
            size,
            free,
            filled: 0,
        })
    }

    /// An allocator whose runs of free cells are these.
    pub fn of_runs(alloc: Global, size: u32, runs: &[Block]) -> Result<Blocks, OutOfMemory>
        requires { AreRuns 0 size runs.now }
        ensures size { IfOk result (λ b. b.size ≡ size) }
        ensures free { IfOk result (λ b. b.free ≡ runs.now) }
    {
        let mut free = Vec::with_capacity(alloc, runs.len())?;
        free.extend_from_slice(runs)?;
        Ok(Blocks {
            size,
            free,
            filled: filled_of(runs, size),
        })
    }

    /// An allocator with no free cell. It takes no memory.
    pub fn full(alloc: Global, size: u32) -> Blocks
        ensures size { result.size ≡ size }
        ensures free { result.free ≡ [] }
    {
        Blocks {
            size,
            free: Vec::new(alloc),
            filled: size,
        }
    }

    /// Sets the runs of free cells to these, in a soup of `size` cells, whatever was free before. It takes no memory.
    pub fn refill(&mut self, size: u32, runs: &[Block])
        requires runs { AreRuns 0 size runs.now }
        requires room { length runs.now ≤ length self.old.free + self.old.spare }
        ensures size { self.new.size ≡ size }
        ensures free { self.new.free ≡ runs.now }
        ensures room { length self.old.free + self.old.spare ≤ length runs.now + self.new.spare }
    {
        self.free.clear();
        let copied: Result<_, _> = self.free.extend_from_slice(runs);
        copied.unwrap();
        self.size = size;
        self.filled = filled_of(runs, size);
    }

    /// The least address of a block of free cells, if there is one of that size.
    pub fn fit(&self, size: u32) -> Option<u32>
        requires { 1 ≤ size }
        ensures { result ≡ room.first_fit self.now.size (λ p. not (is_in_some self.now.free p)) size }
    {
        first_long(&self.free, size)
    }

    /// Whether a block that is given back would be the first fit of its size again: no free run before it is as long,
    /// and none ends where it begins.
    pub fn fits_again(&self, block: Block) -> bool
        requires some { 1 ≤ block.size }
        requires within { AllBelow self.now.size block }
        requires owned { (p : ℕ) → is_in block p ≡ true → is_in_some self.now.free p ≡ false }
        ensures { IsTrue result ↔ (room.first_fit self.now.size
            (λ p. not (is_in_some self.now.free p || is_in block p)) block.size ≡ Some block.at) }
    {
        match first_told(&self.free, block) {
            Some(run) => block.at <= run.at,
            None => true,
        }
    }

    /// Makes room for `more` changes, so that they need no memory.
    pub fn reserve(&mut self, more: u32) -> Result<(), OutOfMemory>
        ensures free { self.new.free ≡ self.old.free }
        ensures size { self.new.size ≡ self.old.size }
        ensures ok { OnOk result (more ≤ self.new.spare) }
        ensures err { OnErr result (self.old.spare < more) }
        ensures room { self.old.spare ≤ self.new.spare }
    {
        self.free.reserve(more as usize)
    }

    /// Takes a block of free cells.
    pub fn take(&mut self, block: Block)
        requires free { (p : ℕ) → is_in block p ≡ true → is_in_some self.old.free p ≡ true }
        requires room { 0 < self.old.spare }
        ensures free { self.new.free ≡ runs_of self.old.size (λ p. is_in_some self.old.free p && not (is_in block p)) }
        ensures size { self.new.size ≡ self.old.size }
        ensures room { length self.new.free + self.new.spare ≡ length self.old.free + self.old.spare }
        ensures spare { self.old.spare ≤ self.new.spare + 1 }
    {
        take_out(&mut self.free, block);
        self.filled += block.size;
    }

    /// Gives a block back; its cells are then free.
    pub fn give_back(&mut self, block: Block)
        requires within { AllBelow self.old.size block }
        requires owned { (p : ℕ) → is_in block p ≡ true → is_in_some self.old.free p ≡ false }
        requires room { 0 < self.old.spare }
        ensures free { self.new.free ≡ runs_of self.old.size (λ p. is_in_some self.old.free p || is_in block p) }
        ensures size { self.new.size ≡ self.old.size }
        ensures room { length self.new.free + self.new.spare ≡ length self.old.free + self.old.spare }
        ensures spare { self.old.spare ≤ self.new.spare + 1 }
    {
        put_in(&mut self.free, block);
        self.filled -= block.size;
    }

    /// How many cells are owned.
    pub fn filled(&self) -> u32
        ensures { result ≡ room.filled self.now.size (λ p. not (is_in_some self.now.free p)) }
    {
        self.filled
    }

    /// How many runs of free cells there are.
    pub fn free_len(&self) -> u32
        ensures len { result ≡ length self.now.free }
        ensures runs { AreRuns 0 self.now.size self.now.free }
    {
        self.free.len() as u32
    }

    /// A run of free cells, counted from the lowest.
    pub fn free_at(&self, place: u32) -> Block
        requires { place < length self.now.free }
        ensures { slice_get self.now.free place ≡ Some result }
    {
        self.free[place as usize]
    }

    /// Another allocator with the same free cells.
    pub fn copy(&self) -> Result<Blocks, OutOfMemory>
        ensures size { IfOk result (λ b. b.size ≡ self.now.size) }
        ensures free { IfOk result (λ b. b.free ≡ self.now.free) }
    {
        Ok(Blocks {
            size: self.size,
            free: self.free.clone()?,
            filled: self.filled,
        })
    }
}

/// The least address of `size` free cells, where these are the runs of free cells in a soup of `cells`.
pub fn fit_in(runs: &[Block], cells: u32, size: u32) -> Option<u32>
    requires runs { AreRuns 0 cells runs.now }
    requires one { 1 ≤ size }
    ensures { result ≡ room.first_fit cells (λ p. not (is_in_some runs.now p)) size }
{
    first_long(runs, size)
}

/// How many cells are owned, where these are the runs of free cells in a soup of `cells`.
pub fn filled_of(runs: &[Block], cells: u32) -> u32
    requires { AreRuns 0 cells runs.now }
    ensures filled { result ≡ room.filled cells (λ p. not (is_in_some runs.now p)) }
    ensures count { result + cells_of runs.now ≡ cells }
{
    cells - cells_in(runs, cells)
}

// How many cells the runs have in all.
fn cells_in(runs: &[Block], size: u32) -> u32
    requires { AreRuns 0 size runs.now }
    ensures sum { result ≡ cells_of runs.now }
    ensures few { result ≤ size }
{
    let mut cells = 0;
    for run in runs {
        cells += run.size;
    }
    cells
}

// The address of the first run of that size or more.
fn first_long(runs: &[Block], size: u32) -> Option<u32>
    ensures { result ≡ option_map (λ r. r.at) (find (λ r. nat_le size r.size) runs.now) }
{
    runs.iter().find(|run| size <= run.size).map(|run| run.at)
}

// The first run that tells whether the block, once it is given back, is the first fit of its size: it begins behind the
// block, is as long, or ends where the block begins.
fn first_told(runs: &[Block], block: Block) -> Option<Block>
    ensures { result ≡ find (tells block) runs.now }
{
    runs.iter().copied().find(|run| {
        block.at <= run.at || block.size <= run.size || block.at - run.at == run.size
    })
}
