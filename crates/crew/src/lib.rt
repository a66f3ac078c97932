//! Several workers run the coming quanta in advance, and a book commits what they find in slicer order.
//!
//! The calling thread is worker 1. Between its turns it hands over the groups of the genebank that are new. Each run
//! begins with jobs, whatever the number of workers. What the workers do after that is decided in `trial`: one worker
//! finishes the run in the book's own world, several do it side by side.
#![tactic(auto)]

mod alone;
mod beside;
mod errand;
mod exchange;
mod gate;
mod hand;
mod handing;
mod lead;
mod runs;
mod seats;
mod shelf;
mod trial;
mod turns;
mod worker;

pub use gate::{FreeGate, Gate};
pub use hand::{Hand, Next};
pub use runs::{Ran, run_crew};
pub use seats::{add_seats, work_all};
pub use trial::{number_of_drawers, takes_jobs};
pub use worker::work;
