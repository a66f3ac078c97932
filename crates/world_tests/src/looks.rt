//! Worlds of soup files, and looks at them.

use serial_slicer::run_serial;
use std::alloc::Global;
use std::test::Fail;
use test_soups::setup_of;
use tierra_model::{Creature, Now, OutOfMemory, Setup};
use world_core::World;

/// A hundred cells, with one creature at cell 5, whose genotype is saved at once.
pub(crate) const SMALL: &str =
    "soup_size = 100\nsave_at = 1\n[[creature]]\nat = 5\ncode = 'inc_b mov_iab'\n";

/// The world at the start of a setup.
pub(crate) fn start_of(alloc: Global, setup: &Setup) -> Result<World, OutOfMemory> {
    World::start(alloc, setup)
}

/// The world after this many quanta of a setup.
pub(crate) fn run_of(alloc: Global, setup: &Setup, quanta: u16) -> Result<World, OutOfMemory> {
    run_serial(alloc, setup, u64::from(quanta))
}

/// The bytes of a world.
pub(crate) fn bytes_of(alloc: Global, world: &World) -> Result<Vec<u8>, OutOfMemory> {
    Ok(world.state_bytes(alloc)?.items)
}

/// The bytes of the small world.
pub(crate) fn small_bytes(alloc: Global) -> Result<Vec<u8>, Fail> {
    let world = start_of(alloc, &setup_of(alloc, SMALL)?)?;
    Ok(bytes_of(alloc, &world)?)
}

/// The world with these bytes, if there is one.
pub(crate) fn restored(
    alloc: Global,
    setup: &Setup,
    bytes: &[u8],
) -> Result<Option<World>, OutOfMemory> {
    World::restore(alloc, &setup.settings, bytes)
}

/// What a cell holds, if it is there.
pub(crate) fn cell_of(world: &World, at: u32) -> Option<u8> {
    if at < world.settings().soup_size {
        Some(world.cell(at))
    } else {
        None
    }
}

pub(crate) fn id_of(creature: Option<&Creature>) -> Option<u64> {
    creature.map(|it| it.id)
}

/// The quanta, the births, the deaths, the living, the filled cells, the free runs and the genotypes that are saved.
pub(crate) fn counts_of(world: &World) -> [u64; 7] {
    [
        world.quanta(),
        world.births(),
        world.deaths(),
        u64::from(world.living()),
        u64::from(world.filled()),
        u64::from(world.free_len()),
        world.kept(),
    ]
}

/// How many genotypes there are, and how many live of the first and the second.
pub(crate) fn genotypes_of(world: &World) -> [u64; 3] {
    [
        world.genotypes().len(),
        u64::from(world.census().living(0)),
        u64::from(world.census().living(1)),
    ]
}

fn tells(alloc: Global, world: &World, bytes: &[u8]) -> Result<bool, OutOfMemory> {
    Ok(bytes_of(alloc, world)?.as_slice() == bytes)
}

/// Whether the world restored from the bytes has the same bytes again, or nothing if they spell no world.
pub(crate) fn told_again(
    alloc: Global,
    setup: &Setup,
    bytes: &[u8],
) -> Result<Option<bool>, OutOfMemory> {
    match restored(alloc, setup, bytes)? {
        Some(world) => Ok(Some(tells(alloc, &world, bytes)?)),
        None => Ok(None),
    }
}
