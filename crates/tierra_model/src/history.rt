//! How quanta were committed.

use crate::creatures::{Block, Standing};

/// The first difference between what a quantum read and a world.
#[derive(Clone, Copy, Drop, PartialEq, Eq, Debug)]
pub enum Stale {
    /// Another creature is at the front.
    Front {
        seen: u64,
        now: u64,
    },
    /// The same creature has another record.
    Body,
    Cell {
        at: u32,
        seen: u8,
        now: u8,
    },
    Free {
        place: u32,
        seen: Option<Block>,
        now: Option<Block>,
    },
    Yard {
        place: u32,
        seen: Option<Standing>,
        now: Option<Standing>,
    },
}

/// How a quantum came to be committed: by a finding that agreed, with no finding, or in place of a stale one.
#[derive(Clone, Copy, Drop, PartialEq, Eq, Debug)]
pub enum How {
    Fresh,
    Missing,
    Stale(Stale),
}

/// A committed quantum, the creature that ran in it, and the caller who committed it.
#[derive(Clone, Copy, Drop, PartialEq, Eq, Debug)]
pub struct Entry {
    pub quantum: u64,
    pub creature: u64,
    pub by: u32,
    pub how: How,
}
