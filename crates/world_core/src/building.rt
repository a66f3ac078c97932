//! Puts a world together from what its bytes say.

ghost use Rattle.std.specs.Prelude.{◌≡◌, ◌≤◌, ◌<◌, ℕ, All, IfOk, List, length, nat_lt, not};
ghost use Rattle.tierra_model.specs.declared.limits.TheConstants.{COUNT_END};
ghost use Rattle.tierra_model.specs.Counting.{times_in};
ghost use Rattle.tierra_model.specs.FreeList.{runs_of};
ghost use Rattle.tierra_model.specs.Living.{ids_of, one_of};
ghost use Rattle.tierra_model.specs.Ranges.{IsBlock, IsCode};
ghost use Rattle.tierra_model.specs.Room.{is_owned};
ghost use Rattle.tierra_model.specs.Sound.{IsPlaced, IsSound, Ordered, owners, times_coded};
ghost use Rattle.census.specs.Census.{living_of};
ghost use Rattle.world_state.specs.Checks.{covers};
ghost use Rattle.world_state.specs.Reading.{genotypes_of};
ghost use Rattle.world_core.specs.Parts.{ArePartsOf};
ghost use Rattle.world_core.specs.Population.{entries_of};
ghost use Rattle.world_core.specs.Running.{number_with};

use crate::genes::Genes;
use crate::living::Living;
use crate::population::Population;
use crate::running::{Counts, Running};
use crate::world::World;
use block_alloc::Blocks;
use census::Census;
use genotyper::Genotypes;
use reaper_queue::Reaper;
use slicer_queue::Slicer;
use soup_cells::Soup;
use std::alloc::Global;
use tierra_model::{Block, Creature, OutOfMemory};
use world_state::{Draft, StoredGenotype, blocks_in, genotypes_from};

/// The world of a sound draft.
pub(crate) fn world_from(alloc: Global, draft: Draft) -> Result<World, OutOfMemory>
    requires { IsSound draft }
    ensures { IfOk result (λ w. w.world ≡ draft) }
{
    let parts = parts_from(alloc, &draft)?;
    let running = joined(draft, parts);
    running.finish(alloc)
}

// The parts of a world that a draft has in another form.
#[derive(Drop)]
struct Parts {
    census: Census,
    blocks: Blocks,
    genotypes: Genotypes,
    soup: Soup,
    population: Population,
}

fn parts_from(alloc: Global, draft: &Draft) -> Result<Parts, OutOfMemory>
    requires { IsSound draft.now }
    ensures { IfOk result (λ parts. ArePartsOf draft.now parts) }
{
    let size = draft.settings.soup_size;
    let living = draft.living.as_slice();
    let census = census_from(alloc, living)?;
    let blocks = blocks_from(alloc, size, living)?;
    let genotypes = all_genotypes(alloc, &draft.stored)?;
    let soup = soup_from(alloc, size, &draft.cells)?;
    let population = population_from(alloc, living, &draft.slicer, &draft.reaper)?;
    Ok(Parts {
        census,
        blocks,
        genotypes,
        soup,
        population,
    })
}

// A draft's parts together, with its counts and savings.
fn joined(draft: Draft, parts: Parts) -> Running
    requires { ArePartsOf draft parts }
    ensures { result.world ≡ draft }
{
    let counts = Counts {
        births: draft.births,
        deaths: draft.deaths,
        next_birth: draft.next_birth,
        quanta: draft.quanta,
    };
    Running::of(
        draft.settings,
        parts.soup,
        parts.population,
        parts.blocks,
        Genes::of(parts.genotypes, draft.saved),
        parts.census,
        counts,
    )
}

fn soup_from(alloc: Global, size: u32, cells: &[u8]) -> Result<Soup, OutOfMemory>
    requires size { length cells.now ≡ size }
    requires codes { All (λ v. v < 32) cells.now }
    ensures { IfOk result (λ s. s.cells ≡ cells.now) }
{
    let mut soup = Soup::new(alloc, size)?;
    for (at, value) in cells.iter().enumerate() {
        let place = at as u32;
        soup.ready(place)?;
        soup.set(place, *value);
    }
    Ok(soup)
}

// ---- the living and their queues

// The living in their queues.
fn population_from(
    alloc: Global,
    creatures: &[Creature],
    slicer: &[u64],
    reaper: &[u64],
) -> Result<Population, OutOfMemory>
    requires ordered { Ordered 1 (ids_of creatures.now) }
    requires in_slicer { (id : ℕ) → times_in slicer.now id ≤ 1 }
    requires in_reaper { (id : ℕ) → times_in reaper.now id ≤ 1 }
    requires here { (id : ℕ) → times_in reaper.now id ≡ times_in (ids_of creatures.now) id }
    ensures living { IfOk result (λ p. p.living ≡ creatures.now) }
    ensures slicer { IfOk result (λ p. p.slicer ≡ slicer.now) }
    ensures reaper { IfOk result (λ p. p.reaper ≡ reaper.now) }
{
    let living = living_from(alloc, creatures)?;
    let slicer = slicer_from(alloc, slicer)?;
    let reaper = reaper_from(alloc, &living, reaper)?;
    Ok(Population::of(living, slicer, reaper))
}

fn living_from(alloc: Global, creatures: &[Creature]) -> Result<Living, OutOfMemory>
    requires { Ordered 1 (ids_of creatures.now) }
    ensures { IfOk result (λ l. l.creatures ≡ creatures.now) }
{
    let mut living = Living::new(alloc);
    for creature in creatures {
        living.reserve(1)?;
        living.enter(*creature);
    }
    Ok(living)
}

fn slicer_from(alloc: Global, ids: &[u64]) -> Result<Slicer, OutOfMemory>
    requires { (id : ℕ) → times_in ids.now id ≤ 1 }
    ensures { IfOk result (λ s. s.ids ≡ ids.now) }
{
    let mut slicer = Slicer::new(alloc);
    for id in ids {
        slicer.reserve(1)?;
        slicer.enter(*id);
    }
    Ok(slicer)
}

// The reaper queue, in which each entry has the errors of its creature.
fn reaper_from(alloc: Global, living: &Living, ids: &[u64]) -> Result<Reaper, OutOfMemory>
    requires once { (id : ℕ) → times_in ids.now id ≤ 1 }
    requires here { (id : ℕ) → times_in ids.now id ≡ times_in (ids_of living.now.creatures) id }
    ensures { IfOk result (λ r. r.entries ≡ entries_of living.now.creatures ids.now) }
{
    let mut reaper = Reaper::new(alloc);
    for id in ids {
        let errors = errors_of(living, *id);
        reaper.reserve(1)?;
        reaper.enter_with(*id, errors);
    }
    Ok(reaper)
}

fn errors_of(living: &Living, id: u64) -> u64
    requires { 0 < times_in (ids_of living.now.creatures) id }
    ensures { result ≡ (one_of living.now.creatures id).errors }
{
    living.get(id).unwrap().errors
}

// ---- what is counted of the living

fn blocks_from(alloc: Global, size: u32, living: &[Creature]) -> Result<Blocks, OutOfMemory>
    requires placed { All (IsPlaced size) living.now }
    requires apart { (p : ℕ) → owners living.now p ≤ 1 }
    ensures size { IfOk result (λ b. b.size ≡ size) }
    ensures free { IfOk result (λ b. b.free ≡ runs_of size (λ p. not (is_owned living.now p))) }
{
    let blocks = blocks_in(alloc, living)?;
    let space = space_without(alloc, size, &blocks)?;
    Ok(space)
}

// A soup in which these blocks are taken.
fn space_without(alloc: Global, size: u32, blocks: &[Block]) -> Result<Blocks, OutOfMemory>
    requires lie { All (IsBlock size) blocks.now }
    requires apart { (p : ℕ) → covers blocks.now p ≤ 1 }
    ensures size { IfOk result (λ b. b.size ≡ size) }
    ensures free { IfOk result (λ b. b.free ≡ runs_of size (λ p. not (nat_lt 0 (covers blocks.now p)))) }
{
    let mut space = Blocks::new(alloc, size)?;
    for block in blocks {
        space.reserve(1)?;
        space.take(*block);
    }
    Ok(space)
}

fn census_from(alloc: Global, living: &[Creature]) -> Result<Census, OutOfMemory>
    requires { length living.now < COUNT_END }
    ensures { IfOk result (λ c. (g : ℕ) → living_of c g ≡ number_with living.now g) }
{
    let mut census = Census::new(alloc);
    for creature in living {
        census.reserve(1)?;
        census.born(creature.genotype);
    }
    Ok(census)
}

// ---- the genotypes

// The genotypes that were read, no two of which have the same code.
fn all_genotypes(alloc: Global, stored: &[StoredGenotype]) -> Result<Genotypes, OutOfMemory>
    requires codes { All (λ f. IsCode f.code) stored.now }
    requires once { (code : List ℕ) → times_coded (genotypes_of stored.now) code ≤ 1 }
    ensures { IfOk result (λ g. g.genotypes ≡ genotypes_of stored.now) }
{
    let found = genotypes_from(alloc, stored)?;
    Ok(found.unwrap())
}
