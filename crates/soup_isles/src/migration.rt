//! The step from an epoch to the next.

ghost use Rattle.std.specs.Prelude.{◌≡◌, ◌<◌, ◌≤◌, IfOk, length, map};
ghost use Rattle.tierra_model.specs.declared.limits.TheConstants.{MOST_ISLES};
ghost use Rattle.tierra_model.specs.Setups.{IsSetup};
ghost use Rattle.soup_isles.specs.Isles.{next_creatures, next_setup, next_setups, place_before, world_at};

use crate::lists::{SetupList, WorldList};
use crate::seeds::{isle_seed, with_seed};
use crate::settling::{add_migrant, emigrant, settlers};
use std::alloc::Global;
use tierra_model::{Inoculum, OutOfMemory, SeedList, Setup};

/// The setups of the isles in the epoch, from the setups and worlds of the epoch before.
#[tactic(auto, unfolding(crate::specs::Isles::next_setups))]
pub fn next_setups(
    alloc: Global,
    setups: &SetupList,
    worlds: &WorldList,
    seed: &[u8; 32],
    epoch: u64,
) -> Result<SetupList, OutOfMemory>
    requires few { (1 ≤ length setups.now) × (length setups.now ≤ MOST_ISLES) }
    requires settings { map (λ w. w.settings) worlds.now ≡ map (λ s. s.settings) setups.now }
    ensures { IfOk result (λ next. next ≡ next_setups setups.now worlds.now seed.now epoch) }
{
    let mut items = Vec::new(alloc);
    for place in 0..setups.len() {
        items.push(next_setup(alloc, setups, worlds, seed, epoch, place)?)?;
    }
    Ok(SetupList { items })
}

// The setup of the isle at a place: its settings with its seed in the epoch, and who begins it.
#[tactic(auto, unfolding(crate::specs::Isles::next_setup))]
fn next_setup(
    alloc: Global,
    setups: &SetupList,
    worlds: &WorldList,
    seed: &[u8; 32],
    epoch: u64,
    place: usize,
) -> Result<Setup, OutOfMemory>
    requires place { place < length setups.now }
    requires few { length setups.now ≤ MOST_ISLES }
    requires settings { map (λ w. w.settings) worlds.now ≡ map (λ s. s.settings) setups.now }
    ensures next { IfOk result (λ next. next ≡ next_setup setups.now worlds.now seed.now epoch place) }
    ensures setup { IfOk result IsSetup }
{
    let setup = setups.get(place);
    let seed = isle_seed(seed, epoch, place as u64 + 1);
    let settings = with_seed(&setup.settings, seed);
    let items = next_creatures(alloc, worlds, place)?;
    Ok(Setup {
        settings,
        creatures: SeedList { items },
    })
}

// Who begins the next epoch on the isle at a place.
#[tactic(auto, unfolding(crate::specs::Isles::next_creatures))]
fn next_creatures(
    alloc: Global,
    worlds: &WorldList,
    place: usize,
) -> Result<Vec<Inoculum>, OutOfMemory>
    requires place { place < length worlds.now }
    requires few { length worlds.now ≤ MOST_ISLES }
    ensures creatures { IfOk result (λ v. v.items ≡ next_creatures worlds.now place) }
    ensures setup { IfOk result (λ v. IsSetup
        (record { settings = (world_at worlds.now place).settings; creatures = v.items })) }
{
    let world = worlds.get(place);
    let mut creatures = settlers(alloc, world)?;
    if worlds.len() == 1 {
        return Ok(creatures);
    }
    let from = worlds.get(place_before(worlds.len(), place));
    let code = emigrant(alloc, from)?;
    add_migrant(alloc, &mut creatures, code, world.settings())?;
    Ok(creatures)
}

// The place of the isle before, in a ring of `count` isles.
fn place_before(count: usize, place: usize) -> usize
    requires { place < count }
    ensures before { result ≡ place_before count place }
    ensures within { result < count }
{
    if place == 0 { count - 1 } else { place - 1 }
}
