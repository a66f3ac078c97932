//! The texts that a run prints. Each line ends with one line feed, and numbers are decimal.
#![tactic(auto)]

mod bank;
mod world_dump;
mod world_report;

pub use bank::{bank_text, saved_line};
pub use world_dump::{dump, state_line};
pub use world_report::report;
