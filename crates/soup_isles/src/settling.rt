//! Who begins an epoch on an isle.

ghost use Rattle.std.specs.Prelude.{◌≡◌, ◌+◌, ◌<◌, ◌≤◌, IfOk, OnOk, length, slice_index};
ghost use Rattle.tierra_model.specs.declared.limits.TheConstants.{MOST_SIZE};
ghost use Rattle.tierra_model.specs.Living.{one_of};
ghost use Rattle.tierra_model.specs.Ranges.{IsCode};
ghost use Rattle.tierra_model.specs.Room.{first_fit};
ghost use Rattle.tierra_model.specs.Setups.{IsSetup, block_of};
ghost use Rattle.tierra_model.specs.Sound.{IsSound};
ghost use Rattle.soup_isles.specs.Isles.{emigrant, is_settled, settler, settlers, with_migrant};

use block_alloc::Blocks;
use std::alloc::Global;
use tierra_model::{Block, Code, Creature, Inoculum, Now, OutOfMemory, Settings};
use world_core::World;

/// Those who live in the world, in the order of the slicer queue, each with the address and the content of its block.
pub(crate) fn settlers(alloc: Global, world: &World) -> Result<Vec<Inoculum>, OutOfMemory>
    requires sound { IsSound world.now.world }
    ensures creatures { IfOk result (λ v. v.items ≡ settlers world.now.world) }
    ensures setup { IfOk result (λ v. IsSetup (record { settings = world.now.world.settings; creatures = v.items })) }
{
    let mut items = Vec::new(alloc);
    for k in 0..world.living() {
        items.push(settler(alloc, world, creature_at(world, k))?)?;
    }
    Ok(items)
}

/// The content of the own block of the creature at the front.
#[tactic(auto, unfolding(crate::specs::Isles::emigrant))]
pub(crate) fn emigrant(alloc: Global, world: &World) -> Result<Code, OutOfMemory>
    requires sound { IsSound world.now.world }
    ensures code { IfOk result (λ code. code ≡ emigrant world.now.world) }
    ensures range { IfOk result IsCode }
{
    let settler = settler(alloc, world, world.front())?;
    Ok(settler.code)
}

// Who runs after this many more quanta, if nobody is born or dies.
fn creature_at(world: &World, k: u32) -> &Creature
    requires sound { IsSound world.now.world }
    requires within { k < length world.now.world.slicer }
    ensures creature { result.now ≡ one_of world.now.world.living (slice_index world.now.world.slicer k) }
    ensures lies { result.now.own.at + result.now.own.size ≤ length world.now.world.soup }
{
    match world.place(k) {
        Some(creature) => creature,
        None => unreachable!(),
    }
}

// The address and the content of the creature's own block.
fn settler(alloc: Global, world: &World, creature: &Creature) -> Result<Inoculum, OutOfMemory>
    requires sound { IsSound world.now.world }
    requires lies { creature.now.own.at + creature.now.own.size ≤ length world.now.world.soup }
    ensures { IfOk result (λ c. c ≡ settler world.now.world creature.now) }
{
    let own = creature.own;
    let mut items = Vec::new(alloc);
    for at in own.at..own.at + own.size {
        items.push(world.cell(at))?;
    }
    Ok(Inoculum {
        at: own.at,
        code: Code { items },
    })
}

/// The migrant comes last, at the least address where it lies in the soup and shares no cell with the others. Where
/// there is none, it does not come.
#[tactic(auto, unfolding(crate::specs::Isles::with_migrant))]
pub(crate) fn add_migrant(
    alloc: Global,
    creatures: &mut Vec<Inoculum>,
    code: Code,
    settings: &Settings,
) -> Result<(), OutOfMemory>
    requires setup { IsSetup (record { settings = settings.now; creatures = creatures.old.items }) }
    requires code { IsCode code }
    ensures creatures { OnOk result (creatures.new.items
        ≡ with_migrant settings.now.soup_size creatures.old.items code) }
    ensures setup { OnOk result (IsSetup (record { settings = settings.now; creatures = creatures.new.items })) }
{
    if let Some(at) = room_beside(alloc, creatures, settings, code.items.len() as u32)? {
        creatures.push(Inoculum { at, code })?;
    }
    Ok(())
}

// The least address from which this many cells are in nobody's block, if there is one.
fn room_beside(
    alloc: Global,
    creatures: &[Inoculum],
    settings: &Settings,
    size: u32,
) -> Result<Option<u32>, OutOfMemory>
    requires setup { IsSetup (record { settings = settings.now; creatures = creatures.now }) }
    requires one { 1 ≤ size }
    ensures { IfOk result (λ at. at ≡ first_fit settings.now.soup_size (is_settled creatures.now) size) }
{
    let mut blocks = Blocks::new(alloc, settings.soup_size)?;
    for creature in creatures {
        blocks.reserve(1)?;
        blocks.take(block_of(creature));
    }
    Ok(blocks.fit(size))
}

fn block_of(creature: &Inoculum) -> Block
    requires { length creature.now.code ≤ MOST_SIZE }
    ensures { result ≡ block_of creature.now }
{
    Block {
        at: creature.at,
        size: creature.code.items.len() as u32,
    }
}
