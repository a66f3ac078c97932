//! The reaper: who dies next.
#![tactic(auto)]

mod hints;
mod reaper;

pub use reaper::Reaper;
