//! A world begins, its first group is read, and it goes through a quantum in which nothing happens.

ghost use Rattle.std.specs.Prelude.{◌≡◌, [], IfOk};
ghost use Rattle.tierra_model.specs.Ranges.{IsCode};

use crate::looks::{SMALL, cell_of, counts_of, genotypes_of, id_of, start_of};
use std::alloc::Global;
use std::test::Fail;
use test_soups::setup_of;
use tierra_model::{
    Code, EventList, Form, Group, Groups, Name, Now, OutOfMemory, Saved, grow_setup,
};
use world_core::World;

fn two_cells(alloc: Global) -> Result<Code, OutOfMemory>
    ensures { IfOk result (λ code. IsCode code) }
{
    let items = vec![in alloc; 9u8, 26]?;
    Ok(Code { items })
}

/// The world of these two cells at the start of a run.
fn grown(alloc: Global) -> Result<World, OutOfMemory> {
    let setup = grow_setup(alloc, two_cells(alloc)?)?;
    start_of(alloc, &setup)
}

/// The numbers of the creatures that stand first and second, and of those that have the numbers 1 and 2.
fn ids_of(world: &World) -> [Option<u64>; 4] {
    [
        id_of(world.place(0)),
        id_of(world.place(1)),
        id_of(world.creature(1)),
        id_of(world.creature(2)),
    ]
}

fn first_cells(world: &World) -> [Option<u8>; 3] {
    [cell_of(world, 0), cell_of(world, 1), cell_of(world, 2)]
}

/// The size of the soup, how many stand in the reaper queue, and the ip at the front of the slicer queue.
fn numbers_of(world: &World) -> [u32; 3] {
    [
        world.settings().soup_size,
        world.yard_len(),
        world.front().ip,
    ]
}

fn version_size(world: &mut World) -> Result<u32, OutOfMemory> {
    Ok(world.version()?.size())
}

#[test]
fn a_world_begins_with_its_creature(rt: HostRuntime) -> Result<(), Fail> {
    let mut world = grown(rt.alloc())?;
    let counts = (counts_of(&world), genotypes_of(&world));
    let first = (ids_of(&world), first_cells(&world), numbers_of(&world));
    let size = version_size(&mut world)?;
    assert_eq!(rt; counts, ([0, 0, 0, 1, 2, 1, 0], [1, 1, 0]));
    assert_eq!(rt;
        first,
        (
            [Some(1), None, Some(1), None],
            [Some(9), Some(26), Some(0)],
            [60_000, 1, 0]
        )
    );
    assert_eq!(rt; size, 60_000);
    Ok(())
}

fn no_events(alloc: Global) -> EventList
    ensures { result ≡ [] }
{
    EventList {
        items: Vec::new(alloc),
    }
}

/// A quantum in which nothing happens. It fits a sound world.
fn turn(alloc: Global, world: &mut World) -> Result<(), OutOfMemory> {
    let _sound = world.settings();
    if world.quanta() == 0 {
        let after = *world.front();
        let prepared = world.prepare(alloc, &no_events(alloc), &after)?;
        world.apply(prepared);
    }
    Ok(())
}

#[test]
fn a_quantum_without_events_is_a_turn(rt: HostRuntime) -> Result<(), Fail> {
    let mut world = grown(rt.alloc())?;
    turn(rt.alloc(), &mut world)?;
    assert_eq!(rt; counts_of(&world), [1, 0, 0, 1, 2, 1, 0]);
    assert_eq!(rt; id_of(Some(world.front())), Some(1));
    Ok(())
}

fn groups_from(alloc: Global, world: &World, k: u64) -> Result<Groups, OutOfMemory> {
    world.groups_from(alloc, k)
}

/// The groups of the small world from a place on.
fn small_groups(alloc: Global, k: u64) -> Result<Groups, Fail> {
    let world = start_of(alloc, &setup_of(alloc, SMALL)?)?;
    Ok(groups_from(alloc, &world, k)?)
}

/// Whether it is the first genotype of two cells, with no parent and no efforts.
fn is_first(saved: &Saved) -> bool {
    saved.name == Name { size: 2, rank: 0 }
        && saved.parent.is_none()
        && saved.first.is_none()
        && saved.second.is_none()
        && saved.code.items.as_slice() == [9, 26].as_slice()
}

/// Whether it is a group of quantum 0 with that genotype alone.
fn is_of_the_start(group: &Group) -> bool {
    let saved = &group.saved.items;
    group.quantum == 0 && group.form == Form::Two && saved.len() == 1 && saved.iter().all(is_first)
}

#[test]
fn a_genotype_of_the_start_is_in_group_0(rt: HostRuntime) -> Result<(), Fail> {
    let groups = small_groups(rt.alloc(), 0)?;
    assert_eq!(rt; groups.items.len(), 1);
    assert!(rt; groups.items.iter().all(is_of_the_start));
    assert_eq!(rt; small_groups(rt.alloc(), 1)?.items.len(), 0);
    Ok(())
}
