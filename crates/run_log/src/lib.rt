//! The births and deaths of a run: a log of them, and the curve of the population.
#![tactic(auto)]

mod log;
mod population_curve;
mod record;

pub use log::{Log, Point};
pub use population_curve::curve;
pub use record::Record;
