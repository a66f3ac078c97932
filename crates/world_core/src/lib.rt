//! The world of a run: what stands between two quanta, and what the events of a quantum do to it.
#![tactic(auto)]

mod building;
mod fitting;
mod genes;
mod groups;
mod living;
mod places;
mod population;
mod prepared;
mod restore;
mod running;
mod state;
mod world;

pub use prepared::Prepared;
pub use running::Running;
pub use world::World;
