//! Tests of worlds: how they begin, their bytes, runs of one creature at a time, and versions of the soup.
#![tactic(auto)]

#[cfg(test)]
mod bytes;
#[cfg(test)]
mod drafts;
#[cfg(test)]
mod looks;
#[cfg(test)]
mod runs;
#[cfg(test)]
mod starts;
#[cfg(test)]
mod versions;
