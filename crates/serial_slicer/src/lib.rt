//! Runs of a world in place, one creature at a time.
#![tactic(auto)]

mod in_place;
mod sole;
mod turn;

ghost use Rattle.std.specs.Prelude.{◌≡◌, ◌+◌, ◌<◌, ◌≤◌, IfOk, OnOk};
ghost use Rattle.tierra_model.specs.declared.limits.TheConstants.{MOST_QUANTA};
ghost use Rattle.tierra_model.specs.Serial.{serial};
ghost use Rattle.tierra_model.specs.Sound.{IsSound};
ghost use Rattle.serial_slicer.specs.Onward.{after};

pub use crate::in_place::InPlace;
use crate::sole::Sole;
use crate::turn::run_quantum;
use mutation_streams::NoTape;
use std::alloc::Global;
use std::marker::Brand;
use std::sync::ledger::{Blank, Ledger};
use step_count::Steps;
use tierra_model::{OutOfMemory, Setup};
use world_core::World;

/// The world after the first `n` quanta.
pub fn run_serial(alloc: Global, setup: &Setup, n: u64) -> Result<World, OutOfMemory>
    requires { n ≤ MOST_QUANTA }
    ensures { IfOk result (λ w. w.world ≡ serial setup.now n) }
{
    run_on(alloc, World::start(alloc, setup)?, n)
}

/// The world after `n` more quanta.
pub fn run_on(alloc: Global, world: World, n: u64) -> Result<World, OutOfMemory>
    requires { world.world.quanta + n ≤ MOST_QUANTA }
    ensures { IfOk result (λ w. w.world ≡ after n world.world) }
{
    let _settings = world.settings(); // for its contract alone
    let mut sole = Sole::new(world.begin())?;
    run_quanta::<Brand>(alloc, &mut sole, n, Blank::new(1))?;
    let world = sole.into_running().finish(alloc)?;
    Ok(world)
}

// Runs `n` quanta, with a count of the instructions that only contracts see.
fn run_quanta<L: Ledger>(
    alloc: Global,
    sole: &mut Sole,
    n: u64,
    blank: Blank,
) -> Result<(), OutOfMemory>
    requires sound { IsSound sole.old.world }
    requires few { sole.old.world.quanta + n ≤ MOST_QUANTA }
    requires name { blank.name ≡ L.name }
    requires parts { blank.parts ≡ L.parts }
    requires some { 0 < L.parts }
    ensures after { OnOk result (sole.new.world ≡ after n sole.old.world) }
    ensures sound { OnOk result (IsSound sole.new.world) }
{
    let settings = *sole.settings();
    let mut steps = Steps::<L>::start(blank);
    for _quantum in 0..n {
        run_quantum(alloc, sole, &mut NoTape, &settings, &mut steps)?;
    }
    Ok(())
}
