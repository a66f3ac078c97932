//! The keys of the settings, in the order of a soup file: what each counts, its range and its default.

use crate::limits::{MOST_CELLS, MOST_QUANTA, MOST_SIZE, MOST_SLICE};

/// The least, the greatest and the default value of a number.
#[derive(Clone, Copy, Drop, PartialEq, Eq, Debug)]
pub struct Number {
    pub least: u32,
    pub greatest: u32,
    pub default: u32,
}

/// The number of cells of the soup.
pub const SOUP_SIZE: Number = Number {
    least: 100,
    greatest: MOST_CELLS,
    default: 60_000,
};

/// Instructions of a quantum, unless that goes by size.
pub const SLICE_SIZE: Number = Number {
    least: 1,
    greatest: MOST_SLICE,
    default: 25,
};

/// Whether a creature's slice goes by its size.
pub const SLICE_BY_SIZE: bool = false;

/// Instructions for each `slice_den` cells of a creature, where its slice goes by size.
pub const SLICE_NUM: Number = Number {
    least: 1,
    greatest: 100,
    default: 1,
};

/// Cells of a creature for which it has `slice_num` instructions, where its slice goes by size.
pub const SLICE_DEN: Number = Number {
    least: 1,
    greatest: 100,
    default: 4,
};

/// The greatest distance that a search tries, in cells.
pub const SEARCH_LIMIT: Number = Number {
    least: 1,
    greatest: MOST_CELLS,
    default: 400,
};

/// The least length of a template that is searched for, in cells.
pub const MIN_TEMPLATE: Number = Number {
    least: 1,
    greatest: 10,
    default: 1,
};

/// The least size that `mal` gives, in cells.
pub const MIN_CELL: Number = Number {
    least: 1,
    greatest: MOST_SIZE,
    default: 12,
};

/// The greatest size that `mal` gives, in cells. It may not be below `min_cell` either.
pub const MAX_CELL: Number = Number {
    least: 1,
    greatest: MOST_SIZE,
    default: MOST_SIZE,
};

/// How many times the mother's size `mal` may be asked for.
pub const MAL_MULT: Number = Number {
    least: 1,
    greatest: 100,
    default: 3,
};

/// The percentage of the soup's cells that may be filled before `mal` kills.
pub const FILL_PERCENT: Number = Number {
    least: 1,
    greatest: 100,
    default: 80,
};

/// The percentage of a daughter block's cells that must have been copied before it divides.
pub const MOVE_PERCENT: Number = Number {
    least: 0,
    greatest: 100,
    default: 70,
};

/// Individuals that a genotype needs to be saved.
pub const SAVE_AT: Number = Number {
    least: 1,
    greatest: 1_000_000,
    default: 2,
};

/// One quantum in this many, on the average, flips a bit of the soup; 0 for none.
pub const BACK_RATE: Number = Number {
    least: 0,
    greatest: u32::MAX,
    default: 0,
};

/// One copy in this many, on the average, flips a bit of what it writes; 0 for none.
pub const COPY_RATE: Number = Number {
    least: 0,
    greatest: u32::MAX,
    default: 0,
};

/// One instruction in this many, on the average, is flawed; 0 for none.
pub const FLAW_RATE: Number = Number {
    least: 0,
    greatest: u32::MAX,
    default: 0,
};

/// The 32 bytes from which all draws are made.
pub const SEED: [u8; 32] = [0; 32];

/// Each quantum whose number it divides is disturbed; 0 for none.
pub const DIST_EVERY: Number = Number {
    least: 0,
    greatest: MOST_QUANTA as u32,
    default: 0,
};

/// The percentage of the living that a disturbance kills.
pub const DIST_PERCENT: Number = Number {
    least: 0,
    greatest: 100,
    default: 10,
};
