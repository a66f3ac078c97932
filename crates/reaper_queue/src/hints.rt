//! Where creatures were last seen.

use std::alloc::{AllocError, Global};
use std::collections::VecDeque;

/// The place where each creature was last seen, as far as the table has room. The caller checks whether the creature
/// stands there, so nothing is promised of the answer.
#[derive(Drop)]
pub(crate) struct Hints {
    // Indexed by the low bits of the birth number. A place here also counts the creatures that had left before.
    seen: Vec<u32>,
    left: u32,
}

impl Hints {
    pub(crate) fn new(alloc: Global) -> Hints {
        Hints {
            seen: Vec::new(alloc),
            left: 0,
        }
    }

    /// Makes the table large enough for the entries and `more` others, if there is memory. If not, the old one serves.
    pub(crate) fn make_room(&mut self, entries: &VecDeque<(u64, u64)>, more: usize) {
        let slots = entries.len().saturating_add(more).saturating_mul(2);
        if slots <= self.seen.len() {
            return;
        }
        if let Some(slots) = slots.checked_next_power_of_two() {
            if self.seen.resize(slots, 0).is_ok() {
                self.note_all(entries);
            }
        }
    }

    fn note_all(&mut self, entries: &VecDeque<(u64, u64)>) {
        let mut place = 0u32;
        for entry in entries.iter() {
            self.note(entry.0, place);
            place = place.wrapping_add(1);
        }
    }

    pub(crate) fn copy(&self) -> Result<Hints, AllocError> {
        Ok(Hints {
            seen: self.seen.clone()?,
            left: self.left,
        })
    }

    fn slot(&self, id: u64) -> usize {
        id as usize & self.seen.len().saturating_sub(1)
    }

    pub(crate) fn place(&self, id: u64) -> usize {
        match self.seen.get(self.slot(id)) {
            Some(seen) => seen.wrapping_sub(self.left) as usize,
            None => 0,
        }
    }

    pub(crate) fn note(&mut self, id: u64, place: u32) {
        let slot = self.slot(id);
        if let Some(seen) = self.seen.get_mut(slot) {
            *seen = place.wrapping_add(self.left);
        }
    }

    /// Somebody left. Those below have moved up by one place, and the table stays right for them.
    pub(crate) fn note_leaving(&mut self) {
        self.left = self.left.wrapping_add(1);
    }
}
