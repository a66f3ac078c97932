//! Tests of the file of checkpoints, and of runs that keep it.
#![tactic(auto)]

#[cfg(test)]
mod frames;
#[cfg(test)]
mod holds;
