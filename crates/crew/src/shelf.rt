//! What lies between the worker that runs the quanta and the others.

ghost use Rattle.std.specs.Prelude.{◌≡◌, ◌<◌, ◌≤◌, ◌↔◌, ◌∷◌, ◌++◌, [], IfOk, IsTrue, false, length, true};
ghost use Rattle.crew.specs.Shelf.{OnDraw, OnHand};
ghost use Rattle.crew.specs.declared.shelf.Stage.TheVariants as stage;
ghost use Rattle.crew.specs.declared.shelf.TheConstants.{MOST_PARCELS};

use mutation_streams::TapeBlock;
use std::alloc::Global;
use std::collections::VecDeque;
use tierra_model::OutOfMemory;

/// How many parcels may wait for the hand.
const MOST_PARCELS: usize = 16;

/// How many quanta a block of draws has.
pub(crate) const BLOCK_QUANTA: u64 = 256;

/// How many quanta ahead of the run draws are made.
const AHEAD: u64 = 16_384;

/// What a worker is to do next.
#[derive(Drop)]
pub(crate) enum Task<P> {
    /// To hand a parcel over.
    Hand(P),
    /// To make the draws of a block that begins with this quantum.
    Draw(u64),
    /// Nothing: no more quanta are run.
    End,
}

/// What a worker does beside the one that runs the quanta.
#[derive(Clone, Copy, Drop)]
pub(crate) struct Duties {
    pub hands: bool,
    pub draws: bool,
}

/// Whether the quanta are run.
#[derive(Clone, Copy, Drop)]
pub(crate) enum Stage {
    Coming,
    Running,
    Over,
}

/// The shelf on which workers leave things for each other.
#[derive(Drop)]
pub(crate) struct Shelf<P> {
    stage: Stage,
    // Whether the hand has halted.
    halted: bool,
    // Parcels for the hand, in order.
    parcels: VecDeque<P>,
    // Draws that were made ahead, in no order.
    blocks: Vec<TapeBlock>,
    // The quantum that is run next.
    at: u64,
    // The first quantum whose draws nobody makes yet.
    undrawn: u64,
    // Whether anybody makes draws.
    draws: bool,
}

impl<P: Drop> Shelf<P> {
    /// An empty shelf, before quantum `at` is run.
    pub(crate) fn new(alloc: Global, at: u64, draws: bool) -> Result<Shelf<P>, OutOfMemory>
        ensures { IfOk result (λ s. (s.stage ≡ stage.Coming) × (s.halted ≡ false) × (s.parcels.items ≡ [])
            × (s.at ≡ at) × (s.undrawn ≡ at) × (s.draws ≡ draws)) }
    {
        let parcels = VecDeque::with_capacity(alloc, MOST_PARCELS)?;
        let blocks = Vec::with_capacity(alloc, (AHEAD / BLOCK_QUANTA) as usize)?;
        Ok(Shelf {
            stage: Stage::Coming,
            halted: false,
            parcels,
            blocks,
            at,
            undrawn: at,
            draws,
        })
    }

    /// Whether nobody began to run quanta yet.
    pub(crate) fn is_coming(&self) -> bool
        ensures { IsTrue result ↔ (self.now.stage ≡ stage.Coming) }
    {
        matches!(self.stage, Stage::Coming)
    }

    /// Whether no more quanta are run.
    pub(crate) fn is_over(&self) -> bool
        ensures { IsTrue result ↔ (self.now.stage ≡ stage.Over) }
    {
        matches!(self.stage, Stage::Over)
    }

    /// Whether the hand has halted.
    pub(crate) fn is_halted(&self) -> bool
        ensures { result ≡ self.now.halted }
    {
        self.halted
    }

    pub(crate) fn begin(&mut self)
        ensures { self.new ≡ record self.old { stage = stage.Running } }
    {
        self.stage = Stage::Running;
    }

    pub(crate) fn end(&mut self)
        ensures { self.new ≡ record self.old { stage = stage.Over } }
    {
        self.stage = Stage::Over;
    }

    pub(crate) fn halt(&mut self)
        ensures { self.new ≡ record self.old { halted = true } }
    {
        self.halted = true;
    }

    // ---- parcels

    /// Whether a parcel can be put.
    pub(crate) fn has_room(&self) -> bool
        ensures { IsTrue result ↔ (length self.now.parcels.items < MOST_PARCELS) }
    {
        self.parcels.len() < MOST_PARCELS
    }

    /// Puts a parcel behind the others, and answers whether the hand will get it. If the hand has halted, or if there is
    /// no memory, the parcel is dropped.
    pub(crate) fn put(&mut self, parcel: P) -> bool
        ensures put { IsTrue result → (self.old.halted ≡ false)
            × (self.new.parcels.items ≡ self.old.parcels.items ++ parcel ∷ []) }
        ensures dropped { result ≡ false → self.new.parcels.items ≡ self.old.parcels.items }
        ensures same { self.new ≡ record self.old { parcels = self.new.parcels } }
    {
        !self.halted && self.parcels.push_back(parcel).is_ok()
    }

    // ---- draws

    /// The run has come to this quantum. Takes the block that has its draws, if there is one. Blocks that the run has
    /// passed are dropped.
    pub(crate) fn block_at(&mut self, at: u64) -> Option<TapeBlock>
        ensures { self.new ≡ record self.old { at = at; blocks = self.new.blocks } }
    {
        self.at = at;
        self.blocks.retain(|block| at < block.end());
        let place = self.blocks.iter().position(|block| block.first() <= at)?;
        Some(self.blocks.swap_remove(place))
    }

    /// Lays down a block. If there is no memory, it is dropped.
    pub(crate) fn add(&mut self, block: TapeBlock) {
        let _no_memory = self.blocks.push(block);
    }

    /// Whether half of the draws that may be made ahead are used up, if anybody makes them.
    pub(crate) fn is_low(&self) -> bool {
        self.draws && self.undrawn < self.at.saturating_add(AHEAD / 2)
    }

    // ---- tasks

    /// Whether a worker with these duties has something to do, or may go home.
    pub(crate) fn has_task(&self, duties: Duties) -> bool {
        let hands = duties.hands && !self.parcels.is_empty();
        let draws = duties.draws && self.undrawn < self.at.saturating_add(AHEAD);
        hands || draws || self.is_over()
    }

    /// The next task of a worker that has one. Parcels go first.
    pub(crate) fn task(&mut self, duties: Duties) -> Task<P>
        ensures hand { OnHand result (λ p. self.old.parcels.items ≡ p ∷ self.new.parcels.items) }
        ensures draw { OnDraw result (λ q. self.old.undrawn ≤ q) }
    {
        if duties.hands {
            if let Some(parcel) = self.parcels.pop_front() {
                return Task::Hand(parcel);
            }
        }
        if self.is_over() || !duties.draws {
            return Task::End;
        }
        let first = self.undrawn.max(self.at.saturating_add(BLOCK_QUANTA));
        self.undrawn = first.saturating_add(BLOCK_QUANTA);
        Task::Draw(first)
    }
}
