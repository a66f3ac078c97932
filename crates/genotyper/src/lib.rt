//! Genotypes: their numbers, in the order of first birth, and their names.
#![tactic(auto)]

mod genotypes;
mod names;

pub use genotypes::Genotypes;
pub use names::{NameFault, name_text, parse_name};
