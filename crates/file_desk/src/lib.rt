//! The outside of a run as the program has it: a source over an input, and a desk over a file of the working folder and
//! an output.
#![tactic(auto)]

mod disk_file;
mod file_desk;
mod input_source;
mod steady;

pub use file_desk::{FileDesk, print};
pub use input_source::InputSource;
pub use steady::{SteadyRead, SteadyWrite};
