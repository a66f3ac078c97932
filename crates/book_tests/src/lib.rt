//! Tests of jobs, of what they find, and of what a book answers.
#![tactic(auto)]

#[cfg(test)]
mod commits;
#[cfg(test)]
mod findings;
