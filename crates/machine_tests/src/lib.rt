//! Tests of what a quantum is made of: instructions, searches, draws, genotypes, queues and blocks.
#![tactic(auto)]

#[cfg(test)]
mod blocks;
#[cfg(test)]
mod draws;
#[cfg(test)]
mod genotypes;
#[cfg(test)]
mod instructions;
#[cfg(test)]
mod names;
#[cfg(test)]
mod reads;
#[cfg(test)]
mod reaper;
#[cfg(test)]
mod running;
#[cfg(test)]
mod searches;
#[cfg(test)]
mod small;
#[cfg(test)]
mod soup;
