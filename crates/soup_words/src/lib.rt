//! The words of the command line.
#![tactic(auto)]

mod laws;
mod number;
mod order;
mod split;
mod table;

pub use laws::words_are_clear;
pub use order::{Action, Order, WordsFault, file_for, read_words};
