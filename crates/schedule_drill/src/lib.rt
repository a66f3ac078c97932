//! Schedules of a commit book: what four hands do with it, move by move, made from a number. Whatever the schedule, the
//! book ends in the world of the serial run.
#![tactic(auto)]

mod drill;
mod moves;
mod tally;
mod text;

pub use drill::{Played, play};
pub use moves::{Move, MoveList, moves_from};
pub use tally::Tally;
pub use text::drill_text;
