//! Tests of desks and sources, and of the files that stand on them.
#![tactic(auto)]

#[cfg(test)]
mod ancestor;
#[cfg(test)]
mod banks;
#[cfg(test)]
mod calls;
#[cfg(test)]
mod desks;
#[cfg(test)]
mod files;
#[cfg(test)]
mod groups;
#[cfg(test)]
mod images;
#[cfg(test)]
mod journals;
#[cfg(test)]
mod sources;
