//! The other events of a turn, and its end.

ghost use Rattle.std.specs.Prelude.{◌≡◌, ◌+◌, ◌<◌, ◌≤◌, ℕ, false, length, true, ◌||◌};
ghost use Rattle.tierra_model.specs.declared.limits.TheConstants.{COUNT_END};
ghost use Rattle.tierra_model.specs.declared.events.Event.TheVariants as event;
ghost use Rattle.tierra_model.specs.Blocks.{is_in, is_in_daughter};
ghost use Rattle.tierra_model.specs.Events.{apply_event, turn_end as turn_end_of};
ghost use Rattle.tierra_model.specs.FreeList.{is_in_some, runs_of};
ghost use Rattle.tierra_model.specs.Replay.{CanHappen, RecordFits};
ghost use Rattle.tierra_model.specs.Room.{holds};
ghost use Rattle.tierra_model.specs.World.{front, put};
ghost use Rattle.world_core.specs.Running.{IsRunning, KeepsReady, can_be_set};

use crate::running::Running;
use block_alloc::Blocks;
use tierra_model::{Block, Creature};

impl Running {
    /// A cell is set.
    pub fn write(&mut self, at: u32, value: u8)
        requires inside { at < length self.old.world.soup }
        requires ready { can_be_set self.old at ≡ true }
        requires code { value < 32 }
        ensures world { self.new.world ≡ apply_event self.old.world (event.Write at value) }
        ensures ready { KeepsReady self.old self.new }
        ensures births { self.new.births ≡ self.old.births }
        ensures blocks { self.new.blocks ≡ self.old.blocks }
    {
        self.soup.set(at, value);
    }

    /// The creature whose turn it is errs.
    pub fn err(&mut self)
        requires { IsRunning self.old.world }
        ensures world { self.new.world ≡ apply_event self.old.world event.Err }
        ensures ready { KeepsReady self.old self.new }
        ensures births { self.new.births ≡ self.old.births }
        ensures blocks { self.new.blocks ≡ self.old.blocks }
    {
        let mut creature = *self.population.front();
        creature.err();
        self.population.error(creature);
    }

    /// It makes a good move in the reaper queue.
    pub fn good(&mut self)
        requires { IsRunning self.old.world }
        ensures world { self.new.world ≡ apply_event self.old.world event.Good }
        ensures ready { KeepsReady self.old self.new }
        ensures births { self.new.births ≡ self.old.births }
        ensures blocks { self.new.blocks ≡ self.old.blocks }
    {
        let id = self.front_id();
        self.population.good(id);
    }

    /// The creature at a place of the reaper queue, not the one whose turn it is, dies.
    pub fn reap(&mut self, place: u32)
        requires within { IsRunning self.old.world }
        requires can { CanHappen self.old.world (event.Reap place) }
        requires room { 2 ≤ self.old.blocks }
        ensures world { self.new.world ≡ apply_event self.old.world (event.Reap place) }
        ensures ready { KeepsReady self.old self.new }
        ensures births { self.old.births ≤ self.new.births }
        ensures blocks { self.old.blocks ≤ self.new.blocks + 2 }
    {
        let creature = *self.population.at(place);
        give_back_all(&mut self.blocks, &creature);
        self.population.remove(creature.id);
        self.census.died(creature.genotype);
        self.deaths += 1;
    }

    /// Replaces the record of the creature whose turn it is by the one after its instructions.
    pub fn put(&mut self, after: &Creature)
        requires within { IsRunning self.old.world }
        requires fits { RecordFits (front self.old.world) after.now }
        ensures world { self.new.world ≡ put after.now self.old.world }
        ensures ready { KeepsReady self.old self.new }
        ensures births { self.new.births ≡ self.old.births }
        ensures blocks { self.new.blocks ≡ self.old.blocks }
    {
        self.population.put(after);
    }

    /// The creature goes to the back of the slicer queue, and the quantum is counted.
    pub fn turn_end(&mut self)
        requires line { 0 < length self.old.world.slicer }
        requires count { self.old.world.quanta < COUNT_END }
        ensures world { self.new.world ≡ turn_end_of self.old.world }
        ensures ready { KeepsReady self.old self.new }
        ensures births { self.new.births ≡ self.old.births }
        ensures blocks { self.new.blocks ≡ self.old.blocks }
    {
        self.population.rotate();
        self.quanta += 1;
    }
}

// Gives back the blocks that a creature has.
fn give_back_all(blocks: &mut Blocks, creature: &Creature)
    requires runs { blocks.old.free ≡ runs_of blocks.old.size (λ p. is_in_some blocks.old.free p) }
    requires within { (p : ℕ) → holds creature.now p ≡ true → p < blocks.old.size }
    requires owned { (p : ℕ) → holds creature.now p ≡ true → is_in_some blocks.old.free p ≡ false }
    requires apart { (p : ℕ) → is_in creature.now.own p ≡ true → is_in_daughter creature.now.daughter p ≡ false }
    requires room { 2 ≤ blocks.old.spare }
    ensures size { blocks.new.size ≡ blocks.old.size }
    ensures free { blocks.new.free
        ≡ runs_of blocks.old.size (λ p. is_in_some blocks.old.free p || holds creature.now p) }
    ensures room { blocks.old.spare ≤ blocks.new.spare + 2 }
{
    blocks.give_back(creature.own);
    give_back_daughter(blocks, creature.daughter);
}

fn give_back_daughter(blocks: &mut Blocks, daughter: Option<Block>)
    requires runs { blocks.old.free ≡ runs_of blocks.old.size (λ p. is_in_some blocks.old.free p) }
    requires within { (p : ℕ) → is_in_daughter daughter p ≡ true → p < blocks.old.size }
    requires owned { (p : ℕ) → is_in_daughter daughter p ≡ true → is_in_some blocks.old.free p ≡ false }
    requires room { 0 < blocks.old.spare }
    ensures size { blocks.new.size ≡ blocks.old.size }
    ensures free { blocks.new.free
        ≡ runs_of blocks.old.size (λ p. is_in_some blocks.old.free p || is_in_daughter daughter p) }
    ensures room { blocks.old.spare ≤ blocks.new.spare + 1 }
{
    if let Some(block) = daughter {
        blocks.give_back(block);
    }
}
