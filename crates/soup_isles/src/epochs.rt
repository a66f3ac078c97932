//! Runs of isles.

ghost use Rattle.std.specs.Prelude.{◌≡◌, ◌+◌, ◌++◌, ◌<◌, ◌≤◌, IfOk, OnOk, length, map};
ghost use Rattle.std.specs.Thread.{IsSync};
ghost use Rattle.tierra_model.specs.declared.limits.TheConstants.{MOST_EPOCHS, MOST_ISLES, MOST_QUANTA, MOST_WORKERS};
ghost use Rattle.tierra_model.specs.Setups.{IsSetup};
ghost use Rattle.soup_isles.specs.Isles.{next_setups};
ghost use Rattle.soup_isles.specs.Runs.{first_setup, first_setups, isle_worlds, worlds_of};

use crate::lists::{SetupList, WorldList};
use crate::migration::next_setups;
use crate::seeds::{isle_seed, with_seed};
use serial_slicer::run_serial;
use std::alloc::Global;
use std::thread::{Threads, join};
use tierra_model::{Code, Inoculum, OutOfMemory, SeedList, Setup};
use world_core::World;

/// The worlds of isles at the end of the last epoch. In each epoch the isles are cut into as many parts as
/// there are workers, each part on a thread.
pub fn run_isles<R: Threads + Sync>(
    rt: &R,
    alloc: Global,
    setup: &Setup,
    isles: u32,
    epochs: u64,
    quanta: u64,
    workers: u32,
) -> Result<WorldList, OutOfMemory>
    requires isles { (1 ≤ isles) × (isles ≤ MOST_ISLES) }
    requires epochs { (1 ≤ epochs) × (epochs ≤ MOST_EPOCHS) }
    requires quanta { (1 ≤ quanta) × (quanta ≤ MOST_QUANTA) }
    requires workers { (1 ≤ workers) × (workers ≤ MOST_WORKERS) }
    ensures { IfOk result (λ worlds. worlds ≡ isle_worlds setup.now isles epochs quanta) }
{
    let mut setups = first_setups(alloc, setup, isles)?;
    let mut worlds = run_epoch(rt, alloc, &setups, quanta, workers)?;
    for migrations in 0..epochs - 1 {
        next_epoch(
            rt,
            alloc,
            &mut setups,
            &mut worlds,
            &setup.settings.seed,
            migrations + 2,
            quanta,
            workers,
        )?;
    }
    Ok(worlds)
}

// Goes on from the setups and worlds of an epoch to those of the next one.
fn next_epoch<R: Threads + Sync>(
    rt: &R,
    alloc: Global,
    setups: &mut SetupList,
    worlds: &mut WorldList,
    seed: &[u8; 32],
    epoch: u64,
    quanta: u64,
    workers: u32,
) -> Result<(), OutOfMemory>
    requires few { (1 ≤ length setups.old) × (length setups.old ≤ MOST_ISLES) }
    requires same { map (λ w. w.settings) worlds.old ≡ map (λ s. s.settings) setups.old }
    requires quanta { (1 ≤ quanta) × (quanta ≤ MOST_QUANTA) }
    requires workers { (1 ≤ workers) × (workers ≤ MOST_WORKERS) }
    ensures setups { OnOk result (setups.new ≡ next_setups setups.old worlds.old seed.now epoch) }
    ensures worlds { OnOk result (worlds.new ≡ worlds_of setups.new quanta) }
    ensures settings { OnOk result (map (λ w. w.settings) worlds.new ≡ map (λ s. s.settings) setups.new) }
{
    *setups = next_setups(alloc, setups, worlds, seed, epoch)?;
    *worlds = run_epoch(rt, alloc, setups, quanta, workers)?;
    Ok(())
}

// ---- epoch 1

/// The setups of the isles in epoch 1: the file's setup, with the seed of each isle.
#[tactic(auto, unfolding(crate::specs::Runs::first_setups))]
pub(crate) fn first_setups(
    alloc: Global,
    setup: &Setup,
    isles: u32,
) -> Result<SetupList, OutOfMemory>
    ensures setups { IfOk result (λ setups. setups ≡ first_setups setup.now isles) }
    ensures count { IfOk result (λ setups. length setups ≡ isles) }
{
    let mut items = Vec::new(alloc);
    for place in 0..isles {
        items.push(first_setup(alloc, setup, place)?)?;
    }
    Ok(SetupList { items })
}

// The file's setup, with the seed of the isle at a place.
#[tactic(auto, unfolding(crate::specs::Runs::first_setup))]
fn first_setup(alloc: Global, setup: &Setup, place: u32) -> Result<Setup, OutOfMemory>
    ensures first { IfOk result (λ s. s ≡ first_setup setup.now place) }
    ensures setup { IfOk result IsSetup }
{
    let items = copies_of(alloc, &setup.creatures)?;
    let seed = isle_seed(&setup.settings.seed, 1, u64::from(place) + 1);
    let settings = with_seed(&setup.settings, seed);
    Ok(Setup {
        settings,
        creatures: SeedList { items },
    })
}

fn copies_of(alloc: Global, creatures: &SeedList) -> Result<Vec<Inoculum>, OutOfMemory>
    ensures { IfOk result (λ v. v.items ≡ creatures.now) }
{
    let mut items = Vec::new(alloc);
    for creature in creatures.items.iter() {
        items.push(copy_of(creature)?)?;
    }
    Ok(items)
}

fn copy_of(creature: &Inoculum) -> Result<Inoculum, OutOfMemory>
    ensures { IfOk result (λ c. c ≡ creature.now) }
{
    let items = creature.code.items.clone()?;
    Ok(Inoculum {
        at: creature.at,
        code: Code { items },
    })
}

// ---- an epoch

/// The worlds of the isles at the end of the epoch.
pub(crate) fn run_epoch<R: Threads + Sync>(
    rt: &R,
    alloc: Global,
    setups: &SetupList,
    quanta: u64,
    workers: u32,
) -> Result<WorldList, OutOfMemory>
    requires quanta { (1 ≤ quanta) × (quanta ≤ MOST_QUANTA) }
    requires workers { (1 ≤ workers) × (workers ≤ MOST_WORKERS) }
    ensures worlds { IfOk result (λ worlds. worlds ≡ worlds_of setups.now quanta) }
    ensures settings { IfOk result (λ worlds. map (λ w. w.settings) worlds ≡ map (λ s. s.settings) setups.now) }
{
    let items = run_parts(rt, alloc, &setups.items, quanta, workers)?;
    Ok(WorldList { items })
}

// Runs the isles in as many parts as there are workers.
fn run_parts<R: Threads + Sync>(
    rt: &R,
    alloc: Global,
    setups: &[Setup],
    quanta: u64,
    workers: u32,
) -> Result<Vec<World>, OutOfMemory>
    requires quanta { (1 ≤ quanta) × (quanta ≤ MOST_QUANTA) }
    requires workers { (1 ≤ workers) × (workers ≤ MOST_WORKERS) }
    ensures { IfOk result (λ v. map (λ w. w.world) v.items ≡ worlds_of setups.now quanta) }
{
    if workers == 1 {
        return run_each(alloc, setups, quanta);
    }
    let others = workers / 2;
    let (theirs, ours) = setups.split_at(share_of(others, workers, setups.len()));
    let (first, second) = join(
        rt,
        || -> Result<Vec<World>, OutOfMemory>
            requires { IsSync R.row
                × ((1 ≤ quanta) × (quanta ≤ MOST_QUANTA)) × ((1 ≤ others) × (others ≤ MOST_WORKERS)) }
            ensures { IfOk result (λ v. map (λ w. w.world) v.items ≡ worlds_of theirs.entry.now quanta) }
        { run_parts(rt, alloc, theirs, quanta, others) },
        || -> Result<Vec<World>, OutOfMemory>
            requires { IsSync R.row × ((1 ≤ quanta) × (quanta ≤ MOST_QUANTA))
                × ((1 ≤ others) × (others < workers) × (workers ≤ MOST_WORKERS)) }
            ensures { IfOk result (λ v. map (λ w. w.world) v.items ≡ worlds_of ours.entry.now quanta) }
        { run_parts(rt, alloc, ours, quanta, workers - others) },
    );
    joined(first?, second?)
}

fn joined(first: Vec<World>, second: Vec<World>) -> Result<Vec<World>, OutOfMemory>
    ensures { IfOk result (λ all. all.items ≡ first.items ++ second.items) }
{
    let mut all = first;
    let mut others = second;
    all.append(&mut others)?;
    Ok(all)
}

// How many of the isles go to the first `some` workers. The workers' shares differ by one at most.
fn share_of(some: u32, workers: u32, isles: usize) -> usize
    requires { (some < workers) × (workers ≤ MOST_WORKERS) }
    ensures { result ≤ isles }
{
    let each = isles / workers as usize;
    let more = isles % workers as usize;
    each * some as usize + more.min(some as usize)
}

// Runs the isles one after another.
fn run_each(alloc: Global, setups: &[Setup], quanta: u64) -> Result<Vec<World>, OutOfMemory>
    requires { quanta ≤ MOST_QUANTA }
    ensures { IfOk result (λ v. map (λ w. w.world) v.items ≡ worlds_of setups.now quanta) }
{
    let mut all = Vec::new(alloc);
    add_each(alloc, &mut all, setups, quanta)?;
    Ok(all)
}

// Appends the worlds to a list that it borrows, so that one place ends them.
fn add_each(
    alloc: Global,
    all: &mut Vec<World>,
    setups: &[Setup],
    quanta: u64,
) -> Result<(), OutOfMemory>
    requires { quanta ≤ MOST_QUANTA }
    ensures { OnOk result (map (λ w. w.world) all.new.items
        ≡ map (λ w. w.world) all.old.items ++ worlds_of setups.now quanta) }
{
    for setup in setups {
        all.push(run_serial(alloc, setup, quanta)?)?;
    }
    Ok(())
}
