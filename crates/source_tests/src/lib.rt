//! Tests of the texts that the program reads and tells: listings, digits, words and soup files.
#![tactic(auto)]

#[cfg(test)]
mod digits;
#[cfg(test)]
mod listings;
#[cfg(test)]
mod soup_files;
#[cfg(test)]
mod words;
