//! Isles: soups side by side, which run in epochs, with migration between them.
#![tactic(auto)]

mod epochs;
mod lists;
mod migration;
mod seeds;
mod settling;
mod text;

pub use epochs::run_isles;
pub use lists::{SetupList, WorldList};
pub use migration::next_setups;
pub use text::isles_text;
