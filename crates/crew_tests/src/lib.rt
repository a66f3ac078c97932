//! Tests of the commit book: the lock of its turns, its jobs, schedules by hand, workers at it, and observers beside them.
#![tactic(auto)]

#[cfg(test)]
mod ahead;
#[cfg(test)]
mod book;
#[cfg(test)]
mod gates;
#[cfg(test)]
mod hands;
#[cfg(test)]
mod observers;
#[cfg(test)]
mod schedules;
#[cfg(test)]
mod turns;
#[cfg(test)]
mod workers;
