//! Runs one quantum alone on a version of the soup that does not change, and gives what it found.
#![tactic(auto)]

mod cells;
mod finding;
mod free_cells;
mod job;
mod on_scene;
mod outcome;
mod page_reader;
mod scratch;
mod standings;
mod workspace;
pub mod yard;

pub use finding::Finding;
pub use job::Job;
pub use scratch::Room;
pub use workspace::{Workspace, run_quantum};
