//! A run that keeps checkpoints, and goes on from the last one as if it had never stopped.
#![tactic(auto)]

mod holding;
mod laws;
mod next;
mod stop;

pub use holding::hold;
pub use laws::{quantum_fits, serial_fits};
pub use stop::HoldStop;
