//! Tests of the top call over files: runs that keep their genebank, what is told of a genebank, and checkpoints.
#![tactic(auto)]

#[cfg(test)]
mod checkpoints;
#[cfg(test)]
mod runs;
#[cfg(test)]
mod tellings;
