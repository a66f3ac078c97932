//! The living, in the order of their birth numbers.

ghost use Rattle.std.specs.Prelude.{◌≡◌, ◌==◌, ◌+◌, ◌<◌, ◌≤◌, ℕ, [], ◌∷◌, ◌++◌, All, IfNone, IfSome, OnErr, OnOk, find, length, option_copied, true};
ghost use Rattle.std.specs.List.{AllWithin, HoldsAt};
ghost use Rattle.std.specs.List.Sorted.{IsNonDecreasingBy};
ghost use Rattle.std.specs.VecDeque.{deque_len, deque_capacity};
ghost use Rattle.tierra_model.specs.declared.creatures.Creature.{Creature};
ghost use Rattle.tierra_model.specs.Counting.{times_in};
ghost use Rattle.tierra_model.specs.Living.{ids_of, with_record, without};
ghost use Rattle.tierra_model.specs.Sound.{Ordered};
ghost use Rattle.world_state.specs.Restoring.{HasWords};

use crate::fitting::creature_fits;
use crate::places::Places;
use std::alloc::Global;
use std::collections::VecDeque;
use std::marker::Model;
use tierra_model::{Creature, OutOfMemory};

/// The records of the living. A creature is found by its birth number: at the place where it was last seen or near it,
/// or else by a binary search.
#[derive(Drop)]
pub(crate) struct Living {
    creatures: VecDeque<Creature>,
    places: Places,
}

impl Model for Living {
    ghost use Rattle.std.specs.Prelude.{◌-◌};
    ghost use Rattle.std.specs.VecDeque.{deque_len, deque_capacity};
    ghost use Rattle.tierra_model.specs.Living.{ids_of};
    ghost use Rattle.tierra_model.specs.Sound.{Ordered};
    ghost use Rattle.world_core.specs.Living.{LivingFields};

    ghost Value = { LivingFields };

    ghost view = { λ l. record {
      creatures = l.creatures.items;
      spare = deque_capacity l.creatures - deque_len
          l.creatures;
    } };

    ghost invariant = { λ l. Ordered 1 (ids_of l.creatures.items) };
}

impl Living {
    /// Nobody yet. It takes no memory.
    pub(crate) fn new(alloc: Global) -> Living
        ensures { result.creatures ≡ [] }
    {
        Living {
            creatures: VecDeque::new(alloc),
            places: Places::new(alloc),
        }
    }

    /// Takes the memory that `more` births may need.
    pub(crate) fn reserve(&mut self, more: u32) -> Result<(), OutOfMemory>
        ensures creatures { self.new.creatures ≡ self.old.creatures }
        ensures ok { OnOk result (more ≤ self.new.spare) }
        ensures err { OnErr result (self.old.spare < more) }
        ensures room { self.old.spare ≤ self.new.spare }
    {
        self.creatures.reserve(more as usize)?;
        let creatures = self.creatures.len().saturating_add(more as usize);
        self.places.make_room(creatures);
        Ok(())
    }

    /// The record of a creature, if it lives.
    pub(crate) fn get(&self, id: u64) -> Option<&Creature>
        ensures { option_copied result ≡ find (λ c. c.id == id) self.now.creatures }
    {
        let place = place_of(&self.creatures, &self.places, id)?;
        Some(&self.creatures[place])
    }

    /// The words of each creature fit their types.
    pub(crate) fn words_fit(&self)
        ensures { All HasWords self.now.creatures }
    {
        for place in 0..self.creatures.len() {
            creature_fits(&self.creatures[place]);
        }
    }

    /// Replaces the record of a creature.
    pub(crate) fn put(&mut self, creature: &Creature)
        requires { 0 < times_in (ids_of self.old.creatures) creature.now.id }
        ensures creatures { self.new.creatures ≡ with_record creature.now self.old.creatures }
        ensures room { self.new.spare ≡ self.old.spare }
    {
        match place_of(&self.creatures, &self.places, creature.id) {
            Some(place) => {
                self.creatures[place] = *creature;
                self.places.note(creature.id, place);
            }
            None => unreachable!(),
        }
    }

    /// Takes in a creature that was born after all others.
    pub(crate) fn enter(&mut self, newborn: Creature)
        requires number { 1 ≤ newborn.id }
        requires last { (id : ℕ) → newborn.id ≤ id → times_in (ids_of self.old.creatures) id ≡ 0 }
        requires room { 0 < self.old.spare }
        ensures creatures { self.new.creatures ≡ self.old.creatures ++ newborn ∷ [] }
        ensures room { self.old.spare ≡ self.new.spare + 1 }
    {
        self.places.note_birth(newborn.id);
        self.creatures.push_back_reserved(newborn);
    }

    /// Takes a creature out, which leaves room for one more.
    pub(crate) fn remove(&mut self, id: u64)
        requires { 0 < times_in (ids_of self.old.creatures) id }
        ensures creatures { self.new.creatures ≡ without id self.old.creatures }
        ensures room { self.new.spare ≡ self.old.spare + 1 }
    {
        match place_of(&self.creatures, &self.places, id) {
            Some(place) => {
                self.creatures.remove(place);
                self.places.note_leaving(place);
            }
            None => unreachable!(),
        }
    }
}

// The place of the creature, if it lives: mostly the one where it was last seen.
#[inline]
fn place_of(creatures: &VecDeque<Creature>, places: &Places, id: u64) -> Option<usize>
    requires { Ordered 1 (ids_of creatures.now.items) }
    ensures some { IfSome result (λ place. HoldsAt (λ c. c.id ≡ id) creatures.now.items place
        × (place < length creatures.now.items)) }
    ensures none { IfNone result (times_in (ids_of creatures.now.items) id ≡ 0) }
{
    let last = places.last(id);
    if stands_at(creatures, last, id) {
        return Some(last);
    }
    place_after_moves(creatures, places, id)
}

// The place of the creature, if it lives, when its record is not where it was last seen.
#[inline(never)]
fn place_after_moves(creatures: &VecDeque<Creature>, places: &Places, id: u64) -> Option<usize>
    requires { Ordered 1 (ids_of creatures.now.items) }
    ensures some { IfSome result (λ place. HoldsAt (λ c. c.id ≡ id) creatures.now.items place
        × (place < length creatures.now.items)) }
    ensures none { IfNone result (times_in (ids_of creatures.now.items) id ≡ 0) }
{
    match places.near(id) {
        Some(near) if stands_at(creatures, near, id) => Some(near),
        _ => search(creatures, id),
    }
}

// Whether the creature's record is at the place.
fn stands_at(creatures: &VecDeque<Creature>, place: usize, id: u64) -> bool
    ensures { result ≡ true → HoldsAt (λ c. c.id ≡ id) creatures.now.items place
        × (place < length creatures.now.items) }
{
    let inside = place < creatures.len();
    inside && creatures[place].id == id
}

// The place of the creature, if it lives, by a search.
fn search(creatures: &VecDeque<Creature>, id: u64) -> Option<usize>
    requires { Ordered 1 (ids_of creatures.now.items) }
    ensures some { IfSome result (λ place. HoldsAt (λ c. c.id ≡ id) creatures.now.items place
        × (place < length creatures.now.items)) }
    ensures none { IfNone result (times_in (ids_of creatures.now.items) id ≡ 0) }
{
    let place = born_before(creatures, id);
    if place < creatures.len() && creatures[place].id == id {
        Some(place)
    } else {
        None
    }
}

// How many have lower birth numbers.
fn born_before(creatures: &VecDeque<Creature>, id: u64) -> usize
    requires { IsNonDecreasingBy (λ (c : Creature). c.id) creatures.now.items }
    ensures before { AllWithin (λ c. c.id < id) creatures.now.items 0 result }
    ensures behind { AllWithin (λ c. id ≤ c.id) creatures.now.items result (length creatures.now.items) }
{
    creatures.partition_point(|c| c.id < id)
}
