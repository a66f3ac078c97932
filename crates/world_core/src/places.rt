//! Where records were last seen.

ghost use Rattle.std.specs.Prelude.{◌≡◌};
ghost use Rattle.std.specs.VecDeque.{deque_capacity};

use std::alloc::Global;
use std::collections::VecDeque;

// How many places `near` looks at. A record can be past the place reckoned, since deaths of later-born creatures are
// counted but do not move it.
const NEAR: usize = 24;

/// A guess at the place of each creature's record among those of the living. Nothing is promised of the answer: the
/// caller checks whether the record is there.
///
/// The records are in the order of birth, so each only moves down. `Hints` of `reaper_queue` are guesses too, but at places
/// of that queue, where creatures also move up and change places.
#[derive(Drop)]
pub(crate) struct Places {
    // The birth numbers in the order of the records; they lie closer together in memory than the records.
    ids: VecDeque<u64>,
    // Where each was last seen, by the low bits of its number, plus the value of `left` at that time.
    seen: Vec<usize>,
    left: usize,
}

impl Places {
    pub(crate) fn new(alloc: Global) -> Places {
        Places {
            ids: VecDeque::new(alloc),
            seen: Vec::new(alloc),
            left: 0,
        }
    }

    /// Makes the tables large enough for this many creatures, if there is memory; without it they still work. When
    /// `seen` grows, what it held may be lost.
    pub(crate) fn make_room(&mut self, creatures: usize) {
        let more = creatures.saturating_sub(self.ids.len());
        let _ = self.ids.reserve(more);
        let slots = creatures.saturating_mul(4);
        if slots <= self.seen.len() {
            return;
        }
        if let Some(slots) = slots.checked_next_power_of_two() {
            let _ = self.seen.resize(slots, 0);
        }
    }

    fn slot(&self, id: u64) -> usize {
        id as usize & self.seen.len().saturating_sub(1)
    }

    /// Where the record of a creature was last seen.
    pub(crate) fn last(&self, id: u64) -> usize {
        match self.seen.get(self.slot(id)) {
            Some(seen) => seen.saturating_sub(self.left),
            None => 0,
        }
    }

    /// Where the record is now, if it is one of the `NEAR` places from where it was last seen.
    pub(crate) fn near(&self, id: u64) -> Option<usize> {
        let last = self.last(id);
        for place in last..last.saturating_add(NEAR).min(self.ids.len()) {
            if self.ids[place] == id {
                return Some(place);
            }
        }
        None
    }

    /// Notes that the record of a creature is at the place.
    pub(crate) fn note(&mut self, id: u64, place: usize)
        ensures { self.new.ids ≡ self.old.ids }
    {
        let slot = self.slot(id);
        if let Some(seen) = self.seen.get_mut(slot) {
            *seen = place.wrapping_add(self.left);
        }
    }

    /// Notes a birth, if there is room: the newborn's record is the last. It takes no memory.
    pub(crate) fn note_birth(&mut self, id: u64)
        ensures { deque_capacity self.new.ids ≡ deque_capacity self.old.ids }
    {
        let place = self.ids.len();
        self.note(id, place);
        if place < self.ids.capacity() {
            let _ = self.ids.push_back(id);
        }
    }

    /// Notes that the creature at the place left. Later records move down by one place, which `left` accounts for.
    pub(crate) fn note_leaving(&mut self, place: usize) {
        if place < self.ids.len() {
            self.ids.remove(place);
        }
        self.left = self.left.wrapping_add(1);
    }
}
