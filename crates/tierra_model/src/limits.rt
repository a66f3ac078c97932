//! The limits, each by its name. Contracts and definitions name them too.

/// The most quanta of a run.
pub const MOST_QUANTA: u64 = 4_000_000;

/// The most cells of a soup.
pub const MOST_CELLS: u32 = 1_048_576;

/// The most cells of a block, and the most instructions of a code.
pub const MOST_SIZE: u32 = 20_000;

/// The most instructions of a quantum.
pub const MOST_SLICE: u32 = 10_000;

/// What the counts of a world and the ranks of names stay below.
pub const COUNT_END: u64 = 1 << 60;

/// The most workers of a run. An observer beside them counts as one.
pub const MOST_WORKERS: u32 = 64;

/// The most soups side by side.
pub const MOST_ISLES: u32 = 64;

/// The most epochs of soups side by side.
pub const MOST_EPOCHS: u32 = 1000;

/// The most looks of an observer.
pub const MOST_LOOKS: u32 = 1000;
