//! A world that runs on in place.

ghost use Rattle.std.specs.Prelude.{◌≡◌, ◌+◌, ◌==◌, ◌<◌, IfOk, OnOk, find, length, option_copied};
ghost use Rattle.tierra_model.specs.declared.limits.TheConstants.{MOST_QUANTA};
ghost use Rattle.tierra_model.specs.Quantum.{quantum, slice_of};
ghost use Rattle.tierra_model.specs.Sound.{IsSound};
ghost use Rattle.tierra_model.specs.World.{first_of, front};

use crate::sole::Sole;
use crate::turn::run_quantum;
use mutation_streams::{NoTape, Tape};
use std::alloc::Global;
use std::marker::{Brand, Model};
use std::sync::ledger::{Blank, Ledger};
use step_count::Steps;
use tierra_model::{Creature, OutOfMemory};
use world_core::World;

/// A world that runs on in place, one quantum after another, for a caller that looks at it between quanta. If a quantum
/// finds no memory it stops in the middle, and the world is then useless.
#[derive(Drop)]
pub struct InPlace {
    sole: Sole,
}

impl Model for InPlace {
    ghost use Rattle.tierra_model.specs.World as world;

    ghost Value = { world.World };

    ghost view = { λ r. r.sole.world };
}

impl InPlace {
    /// Makes the world ready to run in place: all its cells can then be set.
    pub fn of(world: World) -> Result<InPlace, OutOfMemory>
        ensures { IfOk result (λ r. r ≡ world.world) }
    {
        let _settings = world.settings(); // for its contract alone
        Ok(InPlace {
            sole: Sole::new(world.begin())?,
        })
    }

    /// The birth number of the creature whose turn it is.
    pub fn first(&self) -> u64
        requires { IsSound self.now }
        ensures { result ≡ first_of self.now.slicer }
    {
        self.sole.front().id
    }

    /// How many genotypes were saved.
    pub fn kept(&self) -> u64
        ensures { result ≡ length self.now.saved }
    {
        self.sole.kept()
    }

    /// How many were born; those of the start are not counted.
    pub fn births(&self) -> u64
        ensures { result ≡ self.now.births }
    {
        self.sole.births()
    }

    /// How many died.
    pub fn deaths(&self) -> u64
        ensures { result ≡ self.now.deaths }
    {
        self.sole.deaths()
    }

    /// The record of a creature, if it lives.
    pub fn creature(&self, id: u64) -> Option<&Creature>
        ensures { option_copied result ≡ find (λ c. c.id == id) self.now.living }
    {
        self.sole.creature(id)
    }

    /// The next quantum.
    pub fn next(&mut self, alloc: Global) -> Result<(), OutOfMemory>
        requires sound { IsSound self.old }
        requires more { self.old.quanta < MOST_QUANTA }
        ensures { OnOk result (self.new ≡ quantum self.old) }
    {
        counted_next::<Brand>(alloc, &mut self.sole, Blank::new(1))
    }

    /// The next quantum, with draws off the tape and with a count of its instructions.
    pub fn next_counted<T: Tape, L: Ledger>(
        &mut self,
        alloc: Global,
        tape: &mut T,
        steps: &mut Steps<L>,
    ) -> Result<(), OutOfMemory>
        requires sound { IsSound self.old }
        requires more { self.old.quanta < MOST_QUANTA }
        ensures world { OnOk result (self.new ≡ quantum self.old) }
        ensures ticks { OnOk result (steps.new
            ≡ steps.old + slice_of (front self.old).own.size self.old.settings) }
    {
        let settings = *self.sole.settings();
        run_quantum(alloc, &mut self.sole, tape, &settings, steps)
    }

    /// The world between two quanta. If there is no memory for it, it is lost.
    pub fn finish(self, alloc: Global) -> Result<World, OutOfMemory>
        requires { IsSound self }
        ensures { IfOk result (λ w. w.world ≡ self) }
    {
        let world = self.sole.into_running().finish(alloc)?;
        Ok(world)
    }
}

// Runs the next quantum, with a count of the instructions that only contracts see.
fn counted_next<L: Ledger>(alloc: Global, sole: &mut Sole, blank: Blank) -> Result<(), OutOfMemory>
    requires sound { IsSound sole.old.world }
    requires more { sole.old.world.quanta < MOST_QUANTA }
    requires name { blank.name ≡ L.name }
    requires parts { blank.parts ≡ L.parts }
    requires some { 0 < L.parts }
    ensures { OnOk result (sole.new.world ≡ quantum sole.old.world) }
{
    let settings = *sole.settings();
    let mut steps = Steps::<L>::start(blank);
    run_quantum(alloc, sole, &mut NoTape, &settings, &mut steps)
}
