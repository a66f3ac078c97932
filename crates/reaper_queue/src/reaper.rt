//! The reaper queue.

ghost use Rattle.std.specs.Prelude.{◌≡◌, ◌==◌, ◌+◌, ◌^◌, ◌<◌, ◌≤◌, [], ◌∷◌, ◌++◌, IfOk, IsTrue, OnOk, OnErr, Some, filter, find, length, not, position, slice_get, slice_index, swap};
ghost use Rattle.std.specs.VecDeque.{deque_len, deque_capacity};
ghost use Rattle.tierra_model.specs.declared.limits.TheConstants.{COUNT_END};
ghost use Rattle.tierra_model.specs.Counting.{times_in};
ghost use Rattle.tierra_model.specs.Queue.{error_move, good_move, place_of_first_other};
ghost use Rattle.reaper_queue.specs.Reaper.{ids_of, is_of, errors_of, errors_in, with_error};
ghost use Rattle.reaper_queue.specs.Standing.{StandsAt};

use crate::hints::Hints;
use std::alloc::{AllocError, Global};
use std::collections::VecDeque;
use std::marker::Model;
use tierra_model::OutOfMemory;

/// The queue of the living; the topmost die first. Errors move a creature up, and good moves down.
#[derive(Drop)]
pub struct Reaper {
    // From the top, each with its error count.
    entries: VecDeque<(u64, u64)>,
    hints: Hints,
}

impl Model for Reaper {
    ghost use Rattle.std.specs.Prelude.{◌-◌, ◌<◌, ◌≤◌, ◌^◌, min};
    ghost use Rattle.std.specs.VecDeque.{deque_len, deque_capacity};
    ghost use Rattle.reaper_queue.specs.Reaper.{ReaperFields};
    ghost use Rattle.reaper_queue.specs.Standing.{IsOnce};

    ghost Value = { ReaperFields };

    // Places are numbers of 32 bits, so room beyond them does not count.
    ghost view = { λ r. record {
      entries = r.entries.items;
      spare = min (deque_capacity r.entries)
          (2 ^ 32 - 1) - deque_len r.entries;
    } };

    // Nobody stands in it twice.
    ghost invariant = { λ r. (deque_len r.entries < 2 ^ 32) × IsOnce r.entries.items };
}

impl Reaper {
    /// An empty queue. It takes no memory.
    pub fn new(alloc: Global) -> Reaper
        ensures { result.entries ≡ [] }
    {
        Reaper {
            entries: VecDeque::new(alloc),
            hints: Hints::new(alloc),
        }
    }

    /// Makes room for `more` creatures, so that they can enter without memory. There is room for 4,294,967,295 in all.
    pub fn reserve(&mut self, more: u32) -> Result<(), OutOfMemory>
        ensures entries { self.new.entries ≡ self.old.entries }
        ensures ok { OnOk result (more ≤ self.new.spare) }
        ensures err { OnErr result (self.old.spare < more) }
        ensures room { self.old.spare ≤ self.new.spare }
    {
        let room = u32::MAX as usize - self.entries.len();
        if room < more as usize {
            return Err(AllocError);
        }
        self.entries.reserve(more as usize)?;
        self.hints.make_room(&self.entries, more as usize);
        Ok(())
    }

    /// Puts a creature without errors at the bottom.
    pub fn enter(&mut self, id: u64)
        requires absent { times_in (ids_of self.old.entries) id ≡ 0 }
        requires room { 0 < self.old.spare }
        ensures entries { self.new.entries ≡ self.old.entries ++ (id, 0) ∷ [] }
        ensures room { self.old.spare ≡ self.new.spare + 1 }
    {
        self.enter_with(id, 0);
    }

    /// Puts a creature with an error count at the bottom.
    #[tactic(auto, using(crate::proofs::Once::once_push))]
    pub fn enter_with(&mut self, id: u64, errors: u64)
        requires absent { times_in (ids_of self.old.entries) id ≡ 0 }
        requires room { 0 < self.old.spare }
        ensures entries { self.new.entries ≡ self.old.entries ++ (id, errors) ∷ [] }
        ensures room { self.old.spare ≡ self.new.spare + 1 }
    {
        self.hints.note(id, self.entries.len() as u32);
        self.entries.push_back_reserved((id, errors));
    }

    /// Counts an error of the creature, which then changes places with the one above it, unless it is at the top or
    /// the one above has more errors.
    pub fn error(&mut self, id: u64)
        requires present { 0 < times_in (ids_of self.old.entries) id }
        requires small { errors_in id self.old.entries < COUNT_END }
        ensures entries { self.new.entries ≡ error_move (is_of id) errors_of (with_error id self.old.entries) }
        ensures room { self.new.spare ≡ self.old.spare }
    {
        let place = self.find_place(id);
        let errors = self.entries[place].1 + 1;
        self.entries[place] = (id, errors);
        move_up(&mut self.entries, &mut self.hints, id, place);
    }

    /// A good move: the creature changes places with the one below it, unless there is none or the creature has more
    /// errors than the one below.
    pub fn good(&mut self, id: u64)
        requires present { 0 < times_in (ids_of self.old.entries) id }
        ensures entries { self.new.entries ≡ good_move (is_of id) errors_of self.old.entries }
        ensures room { self.new.spare ≡ self.old.spare }
    {
        let place = self.find_place(id);
        move_down(&mut self.entries, &mut self.hints, id, place);
    }

    /// Takes a creature out; its room is then free again.
    pub fn remove(&mut self, id: u64)
        requires present { 0 < times_in (ids_of self.old.entries) id }
        ensures entries { self.new.entries ≡ filter (λ x. not (x.0 == id)) self.old.entries }
        ensures room { self.new.spare ≡ self.old.spare + 1 }
    {
        let place = self.find_place(id);
        self.entries.remove(place);
        self.hints.note_leaving();
    }

    /// How many creatures stand in it.
    pub fn len(&self) -> u32
        ensures { result ≡ length self.now.entries }
    {
        self.entries.len() as u32
    }

    /// A creature and its error count; the top has place 0.
    pub fn at(&self, place: u32) -> (u64, u64)
        requires { place < length self.now.entries }
        ensures { slice_get self.now.entries place ≡ Some result }
    {
        self.entries[place as usize]
    }

    /// The topmost creature that is not this one.
    pub fn first_other(&self, id: u64) -> Option<u64>
        ensures { result ≡ find (λ x. not (x == id)) (ids_of self.now.entries) }
    {
        match self.place_of_first_other(id) {
            Some(place) => Some(self.at(place).0),
            None => None,
        }
    }

    /// The place of the topmost creature that is not this one.
    pub fn place_of_first_other(&self, id: u64) -> Option<u32>
        ensures { result ≡ place_of_first_other id (ids_of self.now.entries) }
    {
        match place_of_other(&self.entries, id) {
            Some(place) => Some(place as u32),
            None => None,
        }
    }

    /// Another queue of the same creatures.
    pub fn copy(&self) -> Result<Reaper, OutOfMemory>
        ensures { IfOk result (λ r. r.entries ≡ self.now.entries) }
    {
        Ok(Reaper {
            entries: self.entries.clone()?,
            hints: self.hints.copy()?,
        })
    }

    // Where the creature stands: the place that the hints give, or else the one that a walk from the top finds.
    fn find_place(&mut self, id: u64) -> usize
        requires { 0 < times_in (ids_of self.old.entries) id }
        ensures here { StandsAt self.old.entries id result }
        ensures same { self.new ≡ self.old }
    {
        let hinted = self.hints.place(id);
        if stands_at(&self.entries, hinted, id) {
            return hinted;
        }
        let Some(place) = place_of(&self.entries, id) else {
            unreachable!();
        };
        self.hints.note(id, place as u32);
        place
    }
}

fn stands_at(entries: &VecDeque<(u64, u64)>, place: usize, id: u64) -> bool
    ensures within { IsTrue result → place < length entries.now.items }
    ensures here { IsTrue result → slice_index (ids_of entries.now.items) place ≡ id }
{
    match entries.get(place) {
        Some(entry) => entry.0 == id,
        None => false,
    }
}

// Where a walk from the top finds the creature.
fn place_of(entries: &VecDeque<(u64, u64)>, id: u64) -> Option<usize>
    ensures { result ≡ position (is_of id) entries.now.items }
{
    entries.iter().position(|entry| entry.0 == id)
}

// Where a walk from the top finds another creature.
fn place_of_other(entries: &VecDeque<(u64, u64)>, id: u64) -> Option<usize>
    ensures { result ≡ position (λ x. not (x.0 == id)) entries.now.items }
{
    entries.iter().position(|entry| entry.0 != id)
}

// The creature changes places with the one above it, unless it is at the top or the one above has more errors.
fn move_up(entries: &mut VecDeque<(u64, u64)>, hints: &mut Hints, id: u64, place: usize)
    requires here { StandsAt entries.old.items id place }
    requires small { deque_len entries.old < 2 ^ 32 }
    ensures items { entries.new.items ≡ error_move (is_of id) errors_of entries.old.items }
    ensures len { deque_len entries.new ≡ deque_len entries.old }
    ensures room { deque_capacity entries.new ≡ deque_capacity entries.old }
{
    if place > 0 && entries[place - 1].1 <= entries[place].1 {
        exchange(entries, hints, place - 1);
    }
}

// The creature changes places with the one below it, unless there is none or the creature has more errors.
fn move_down(entries: &mut VecDeque<(u64, u64)>, hints: &mut Hints, id: u64, place: usize)
    requires here { StandsAt entries.old.items id place }
    requires small { deque_len entries.old < 2 ^ 32 }
    ensures items { entries.new.items ≡ good_move (is_of id) errors_of entries.old.items }
    ensures len { deque_len entries.new ≡ deque_len entries.old }
    ensures room { deque_capacity entries.new ≡ deque_capacity entries.old }
{
    if place + 1 < entries.len() && entries[place].1 <= entries[place + 1].1 {
        exchange(entries, hints, place);
    }
}

// Lets a creature change places with the one below it.
fn exchange(entries: &mut VecDeque<(u64, u64)>, hints: &mut Hints, upper: usize)
    requires within { upper + 1 < deque_len entries.old }
    requires small { deque_len entries.old < 2 ^ 32 }
    ensures items { entries.new.items ≡ swap entries.old.items upper (upper + 1) }
    ensures len { deque_len entries.new ≡ deque_len entries.old }
    ensures room { deque_capacity entries.new ≡ deque_capacity entries.old }
{
    entries.swap(upper, upper + 1);
    hints.note(entries[upper].0, upper as u32);
    hints.note(entries[upper + 1].0, upper as u32 + 1);
}
