//! Observers beside the workers of a run: what they see of the book's world, and the text of it.
#![tactic(auto)]

mod looking;
mod sight;
mod sights;
mod text;
mod waiting;
mod watching;

pub use looking::look;
pub use sight::{Count, CountList, Sight, sight_of};
pub use sights::Sights;
pub use text::sights_text;
pub use watching::watch;
