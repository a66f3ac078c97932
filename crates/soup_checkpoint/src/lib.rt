//! The file of checkpoints: it holds states of a run's worlds, one frame for each. A run goes on from the last state. A
//! crash at any moment of a call leaves the last state from before the call or the one that it appends.
#![tactic(auto)]

mod faults;
mod frames;
mod laws;
mod owner;
mod recovery;
mod shelf;

pub use faults::{HoldFault, ShelfFault};
pub use laws::{always_says, one_hold};
pub use shelf::Shelf;
