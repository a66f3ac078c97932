//! The turn of the creature at the front.

ghost use Rattle.std.specs.Prelude.{◌≡◌, ◌+◌, ◌<◌, OnOk};
ghost use Rattle.tierra_model.specs.declared.limits.TheConstants.{MOST_QUANTA};
ghost use Rattle.tierra_model.specs.Quantum.{quantum, slice_of};
ghost use Rattle.tierra_model.specs.Sound.{IsSound};
ghost use Rattle.tierra_model.specs.World.{front};

use crate::sole::Sole;
use mutation_streams::{Draws, Tape};
use quantum_core::{Ground, run_slice};
use slicer_queue::slice_of;
use std::alloc::Global;
use std::sync::ledger::Ledger;
use step_count::Steps;
use tierra_model::{Act, Block, Creature, OutOfMemory, Settings};

/// The next quantum, with draws off the tape.
pub(crate) fn run_quantum<T: Tape, L: Ledger>(
    alloc: Global,
    sole: &mut Sole,
    tape: &mut T,
    settings: &Settings,
    steps: &mut Steps<L>,
) -> Result<(), OutOfMemory>
    requires sound { IsSound sole.old.world }
    requires more { sole.old.world.quanta < MOST_QUANTA }
    requires settings { settings.now ≡ sole.old.world.settings }
    ensures world { OnOk result (sole.new.world ≡ quantum sole.old.world) }
    ensures ticks { OnOk result (steps.new
        ≡ steps.old + slice_of (front sole.old.world).own.size sole.old.world.settings) }
{
    let quantum = sole.quanta() + 1;
    let creature = sole.begin_turn();
    let slice = slice_of(creature.own.size, settings);
    let mut turn = CreatureTurn {
        alloc,
        sole,
        creature,
    };
    run_slice(&mut turn, tape, settings, quantum, slice, steps)?;
    let after = turn.creature;
    turn.sole.end_turn(&after);
    Ok(())
}

/// A world in the middle of a turn. Until the turn ends, the record of the creature that runs is kept apart from it.
#[derive(Drop)]
struct CreatureTurn<'s> {
    alloc: Global,
    sole: &'s mut Sole,
    creature: Creature,
}

impl Ground for CreatureTurn<'_> {
    ghost use Rattle.std.specs.Prelude.{◌+◌};
    ghost use Rattle.tierra_model.specs.Quantum.{world_machine};
    ghost use Rattle.tierra_model.specs.World.{World, put};
    ghost use Rattle.serial_slicer.specs.ReadyLaws.{fewer};
    ghost use Rattle.serial_slicer.specs.Turns.{IsReady};

    ghost State = { World };

    ghost machine = { world_machine };

    ghost state = { λ t. put t.creature t.sole.now.world };

    ghost frame = { λ t. record {
      settings = t.sole.now.world.settings;
      quantum = t.sole.now.world.quanta + 1;
      lent = t.sole.ghost_name;
    } };

    ghost Ready = { λ t n. IsReady t.creature t.sole.now n };

    ghost Refusal = { Unit {0} };

    ghost ready_fewer = { λ t m n. fewer t.creature t.sole.now m n };

    fn front(&self) -> &Creature {
        &self.creature
    }

    fn room_for(&self, size: u32) -> Option<u32> {
        self.sole.room_for(size)
    }

    fn reaper_len(&self) -> u32 {
        self.sole.reaper_len()
    }

    fn others(&self) -> u32 {
        self.sole.reaper_len() - 1
    }

    fn victim(&mut self) -> Option<u32> {
        self.sole.victim()
    }

    fn ask_free(&mut self) {}

    fn ask_reaper(&mut self) {}

    fn flip(&mut self, at: u32, bit: u8) {
        self.sole.flip(at, bit);
    }

    // Put into each loop that runs a slice: as a call it took a seventh longer.
    #[inline(always)]
    fn step<L: Ledger>(
        &mut self,
        draws: &mut Draws,
        i: u32,
        settings: &Settings,
        steps: &mut Steps<L>,
    ) -> Act {
        let act = cpu_core::step(&mut self.creature, self.sole, draws, i, settings, steps);
        if let Act::Erred = act {
            self.sole.err();
        }
        act
    }

    fn err(&mut self) {
        self.creature.err();
        self.sole.err();
    }

    fn good(&mut self) {
        self.sole.good();
    }

    fn give_up(&mut self) -> Result<(), OutOfMemory> {
        self.creature.give_up();
        self.sole.give_up()
    }

    fn take(&mut self, block: Block) -> Result<(), OutOfMemory> {
        self.creature.take(block);
        self.sole.take(block)
    }

    fn take_again(&mut self, size: u32) -> bool {
        match self.creature.daughter {
            Some(block) if block.size == size && self.sole.room_again(block) => {
                self.creature.take(block);
                self.sole.good();
                true
            }
            _ => false,
        }
    }

    fn reap(&mut self, place: u32) -> Result<(), OutOfMemory> {
        self.sole.reap(place)
    }

    fn bear(&mut self) -> Result<(), OutOfMemory> {
        let Creature { ran, moved, .. } = self.creature;
        self.creature.bear();
        self.sole.bear(self.alloc, ran, moved)
    }
}
