//! Tests of the top call: texts, instructions, runs, and gates that see who works.
#![tactic(auto)]

#[cfg(test)]
mod gates;
#[cfg(test)]
mod instructions;
#[cfg(test)]
mod runs;
#[cfg(test)]
mod texts;
