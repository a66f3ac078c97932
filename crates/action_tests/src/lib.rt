//! Tests of what the actions over worlds and genebanks tell.
#![tactic(auto)]

#[cfg(test)]
mod bank_lines;
#[cfg(test)]
mod curves;
#[cfg(test)]
mod dumps;
#[cfg(test)]
mod isles;
#[cfg(test)]
mod probes;
#[cfg(test)]
mod threads;
