//! The living and their two queues.

ghost use Rattle.std.specs.Prelude.{◌≡◌, ◌==◌, ◌+◌, ◌<◌, ◌≤◌, ℕ, [], ◌∷◌, ◌++◌, All, OnOk, filter, find, length, not, option_copied, slice_get, slice_index};
ghost use Rattle.tierra_model.specs.declared.limits.TheConstants.{COUNT_END};
ghost use Rattle.tierra_model.specs.Counting.{times_in};
ghost use Rattle.tierra_model.specs.Living.{ids_of, one_of, with_record, without};
ghost use Rattle.tierra_model.specs.Queue.{error_move, good_move, place_of_first_other, rotation};
ghost use Rattle.tierra_model.specs.World.{first_of};
ghost use Rattle.reaper_queue.specs.Reaper.{ids_of as entry_ids};
ghost use Rattle.world_state.specs.Restoring.{HasWords};
ghost use Rattle.world_core.specs.Population.{entries_of};

use crate::living::Living;
use reaper_queue::Reaper;
use slicer_queue::Slicer;
use std::alloc::Global;
use std::marker::Model;
use tierra_model::{Block, Creature, OutOfMemory};

/// The living, the slicer queue and the reaper queue, which shows the errors that each creature's record has.
#[derive(Drop)]
pub(crate) struct Population {
    living: Living,
    slicer: Slicer,
    reaper: Reaper,
}

impl Model for Population {
    ghost use Rattle.std.specs.Prelude.{◌≡◌, min};
    ghost use Rattle.reaper_queue.specs.Reaper.{ids_of};
    ghost use Rattle.world_core.specs.Population.{PopulationFields, entries_of};

    ghost Value = { PopulationFields };

    ghost view = { λ p. record {
      living = p.living.creatures;
      slicer = p.slicer.ids;
      reaper = ids_of p.reaper.entries;
      spare = min p.living.spare (min p.slicer.spare p.reaper.spare);
    } };

    ghost invariant = { λ p. p.reaper.entries ≡ entries_of p.living.creatures (ids_of p.reaper.entries) };
}

impl Population {
    /// Nobody yet. It takes no memory.
    pub(crate) fn new(alloc: Global) -> Population
        ensures living { result.living ≡ [] }
        ensures slicer { result.slicer ≡ [] }
        ensures reaper { result.reaper ≡ [] }
    {
        Population {
            living: Living::new(alloc),
            slicer: Slicer::new(alloc),
            reaper: Reaper::new(alloc),
        }
    }

    /// These living in these queues.
    pub(crate) fn of(living: Living, slicer: Slicer, reaper: Reaper) -> Population
        requires { reaper.entries ≡ entries_of living.creatures (entry_ids reaper.entries) }
        ensures living { result.living ≡ living.creatures }
        ensures slicer { result.slicer ≡ slicer.ids }
        ensures reaper { result.reaper ≡ entry_ids reaper.entries }
    {
        Population {
            living,
            slicer,
            reaper,
        }
    }

    /// Takes the memory that `more` births may need.
    pub(crate) fn reserve(&mut self, more: u32) -> Result<(), OutOfMemory>
        ensures living { self.new.living ≡ self.old.living }
        ensures slicer { self.new.slicer ≡ self.old.slicer }
        ensures reaper { self.new.reaper ≡ self.old.reaper }
        ensures ok { OnOk result (more ≤ self.new.spare) }
        ensures room { self.old.spare ≤ self.new.spare }
    {
        self.living.reserve(more)?;
        self.slicer.reserve(more)?;
        self.reaper.reserve(more)
    }

    /// The words of each creature fit their types.
    pub(crate) fn words_fit(&self)
        ensures { All HasWords self.now.living }
    {
        self.living.words_fit();
    }

    /// The record of a creature, if it lives.
    pub(crate) fn get(&self, id: u64) -> Option<&Creature>
        ensures { option_copied result ≡ find (λ c. c.id == id) self.now.living }
    {
        self.living.get(id)
    }

    /// The record of a creature that lives.
    fn one(&self, id: u64) -> &Creature
        requires { 0 < times_in (ids_of self.now.living) id }
        ensures { result.now ≡ one_of self.now.living id }
    {
        self.living.get(id).unwrap()
    }

    /// The birth number at the front of the slicer queue.
    pub(crate) fn first(&self) -> u64
        requires { 0 < length self.now.slicer }
        ensures { result ≡ first_of self.now.slicer }
    {
        self.slicer.front()
    }

    /// The creature at the front of the slicer queue.
    pub(crate) fn front(&self) -> &Creature
        requires line { 0 < length self.now.slicer }
        requires here { 0 < times_in (ids_of self.now.living) (first_of self.now.slicer) }
        ensures { result.now ≡ one_of self.now.living (first_of self.now.slicer) }
    {
        self.one(self.first())
    }

    /// The birth number at a place of the slicer queue, if the queue reaches that far.
    pub(crate) fn slicer_at(&self, k: u32) -> Option<u64>
        ensures { result ≡ slice_get self.now.slicer k }
    {
        self.slicer.place(k)
    }

    pub(crate) fn reaper_len(&self) -> u32
        ensures { result ≡ length self.now.reaper }
    {
        self.reaper.len()
    }

    /// The reaper queue, with the errors of each creature.
    pub(crate) fn reaper(&self) -> &Reaper
        ensures { result.now.entries ≡ entries_of self.now.living self.now.reaper }
    {
        &self.reaper
    }

    pub(crate) fn reaper_at(&self, place: u32) -> u64
        requires { place < length self.now.reaper }
        ensures { result ≡ slice_index self.now.reaper place }
    {
        let (id, _) = self.reaper.at(place);
        id
    }

    /// The creature at a place of the reaper queue.
    pub(crate) fn at(&self, place: u32) -> &Creature
        requires within { place < length self.now.reaper }
        requires here { 0 < times_in (ids_of self.now.living) (slice_index self.now.reaper place) }
        ensures { result.now ≡ one_of self.now.living (slice_index self.now.reaper place) }
    {
        self.one(self.reaper_at(place))
    }

    /// The first place in the reaper queue that is not the creature's.
    pub(crate) fn place_of_first_other(&self, id: u64) -> Option<u32>
        ensures { result ≡ place_of_first_other id self.now.reaper }
    {
        self.reaper.place_of_first_other(id)
    }

    /// Replaces the record of a creature by one with the same errors.
    pub(crate) fn put(&mut self, creature: &Creature)
        requires here { 0 < times_in (ids_of self.old.living) creature.now.id }
        requires errors { (one_of self.old.living creature.now.id).errors ≡ creature.now.errors }
        ensures living { self.new.living ≡ with_record creature.now self.old.living }
        ensures slicer { self.new.slicer ≡ self.old.slicer }
        ensures reaper { self.new.reaper ≡ self.old.reaper }
        ensures room { self.new.spare ≡ self.old.spare }
    {
        self.living.put(creature);
    }

    /// Replaces the record of a creature by one with one more error, and moves the creature up in the reaper queue.
    pub(crate) fn error(&mut self, creature: Creature)
        requires here { 0 < times_in (ids_of self.old.living) creature.id }
        requires queue { 0 < times_in self.old.reaper creature.id }
        requires errors { creature.errors ≡ (one_of self.old.living creature.id).errors + 1 }
        requires small { creature.errors ≤ COUNT_END }
        ensures living { self.new.living ≡ with_record creature self.old.living }
        ensures slicer { self.new.slicer ≡ self.old.slicer }
        ensures reaper { self.new.reaper
            ≡ error_move (λ id. id == creature.id)
            (λ id. (one_of (with_record creature self.old.living) id).errors) self.old.reaper }
        ensures room { self.new.spare ≡ self.old.spare }
    {
        self.reaper.error(creature.id);
        self.living.put(&creature);
    }

    /// Moves a creature down in the reaper queue.
    pub(crate) fn good(&mut self, id: u64)
        requires { 0 < times_in self.old.reaper id }
        ensures living { self.new.living ≡ self.old.living }
        ensures slicer { self.new.slicer ≡ self.old.slicer }
        ensures reaper { self.new.reaper
            ≡ good_move (λ x. x == id) (λ x. (one_of self.old.living x).errors) self.old.reaper }
        ensures room { self.new.spare ≡ self.old.spare }
    {
        self.reaper.good(id);
    }

    /// Sends the creature at the front to the back of the slicer queue.
    pub(crate) fn rotate(&mut self)
        requires { 0 < length self.old.slicer }
        ensures living { self.new.living ≡ self.old.living }
        ensures slicer { self.new.slicer ≡ rotation self.old.slicer }
        ensures reaper { self.new.reaper ≡ self.old.reaper }
        ensures room { self.new.spare ≡ self.old.spare }
    {
        self.slicer.rotate();
    }

    /// Takes in a newborn, born after all others: at the back of the slicer queue, and at the bottom of the reaper queue.
    pub(crate) fn enter(&mut self, newborn: Creature)
        requires number { 1 ≤ newborn.id }
        requires errors { newborn.errors ≡ 0 }
        requires last { (id : ℕ) → newborn.id ≤ id → times_in (ids_of self.old.living) id ≡ 0 }
        requires slicer { times_in self.old.slicer newborn.id ≡ 0 }
        requires reaper { times_in self.old.reaper newborn.id ≡ 0 }
        requires room { 0 < self.old.spare }
        ensures living { self.new.living ≡ self.old.living ++ newborn ∷ [] }
        ensures slicer { self.new.slicer ≡ self.old.slicer ++ newborn.id ∷ [] }
        ensures reaper { self.new.reaper ≡ self.old.reaper ++ newborn.id ∷ [] }
        ensures room { self.old.spare ≤ self.new.spare + 1 }
    {
        self.living.enter(newborn);
        self.slicer.enter(newborn.id);
        self.reaper.enter(newborn.id);
    }

    /// Takes a creature out of the living and of both queues.
    pub(crate) fn remove(&mut self, id: u64)
        requires here { 0 < times_in (ids_of self.old.living) id }
        requires slicer { 0 < times_in self.old.slicer id }
        requires reaper { 0 < times_in self.old.reaper id }
        ensures living { self.new.living ≡ without id self.old.living }
        ensures slicer { self.new.slicer ≡ filter (λ x. not (x == id)) self.old.slicer }
        ensures reaper { self.new.reaper ≡ filter (λ x. not (x == id)) self.old.reaper }
        ensures room { self.old.spare ≤ self.new.spare }
    {
        self.living.remove(id);
        self.slicer.remove(id);
        self.reaper.remove(id);
    }
}
