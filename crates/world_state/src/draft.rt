//! A world as read from its bytes, which need not be sound.

ghost use Rattle.std.specs.Prelude.{◌≡◌, Err, IfOk};
ghost use Rattle.std.specs.List.Sorted.{IsNonDecreasingBy, IsPermutation};
ghost use Rattle.tierra_model.specs.declared.creatures.Creature.{Creature};
ghost use Rattle.tierra_model.specs.Living.{ids_of};
ghost use Rattle.tierra_model.specs.World.{World};
ghost use Rattle.world_state.specs.Parts.{state_parts};
ghost use Rattle.byte_fields.specs.Reading.{Gives};
ghost use Rattle.world_state.specs.Reading.{state_at};
ghost use Rattle.world_state.specs.Restoring.{AreBytesOf, AreOfNoWorld, FitsTypes};
ghost use Rattle.byte_fields.specs.declared.stop.Stop.TheVariants.{Malformed};

use crate::fields::{StoredGenotype, WorldFormat};
use crate::saving::Saving;
use byte_fields::{Stop, counted_by_eight, counted_by_four, eights_of, list_of, sized_of};
use std::alloc::Global;
use std::marker::Model;
use tierra_model::{Creature, OutOfMemory, Settings};

/// All parts of a world, as they were read. The living are in the order of their birth numbers.
#[derive(Drop)]
pub struct Draft {
    pub settings: Settings,
    pub cells: Vec<u8>,
    pub living: Vec<Creature>,
    pub slicer: Vec<u64>,
    pub reaper: Vec<u64>,
    pub stored: Vec<StoredGenotype>,
    pub saved: Vec<Saving>,
    pub quanta: u64,
    pub births: u64,
    pub deaths: u64,
    pub next_birth: u64,
}

impl Model for Draft {
    ghost use Rattle.std.specs.Prelude.{◌≡◌, ℕ};
    ghost use Rattle.std.specs.List.Sorted.{IsNonDecreasingBy};
    ghost use Rattle.tierra_model.specs.declared.creatures.Creature.{Creature};
    ghost use Rattle.tierra_model.specs.Counting.{times_in};
    ghost use Rattle.tierra_model.specs.Living.{ids_of};
    ghost use Rattle.tierra_model.specs.World.{World};
    ghost use Rattle.world_state.specs.Reading.{genotypes_of};
    ghost use Rattle.world_state.specs.Savings.{savings_of};

    ghost Value = { World };

    ghost view = { λ d. record {
      settings = d.settings;
      soup = d.cells.items;
      living = d.living.items;
      slicer = d.slicer.items;
      reaper = d.reaper.items;
      genotypes = genotypes_of d.stored.items;
      saved = savings_of d.saved.items;
      births = d.births;
      deaths = d.deaths;
      next_birth = d.next_birth;
      quanta = d.quanta;
    } };

    ghost invariant = { λ d.
        IsNonDecreasingBy (λ (c : Creature). c.id) d.living.items
        × ((id : ℕ) → times_in d.slicer.items id ≡ times_in (ids_of d.living.items) id) };
}

/// The world that the bytes spell, if they spell one.
pub fn draft_of(alloc: Global, settings: &Settings, bytes: &[u8]) -> Result<Draft, Stop>
    ensures settings { IfOk result (λ d. d.settings ≡ settings.now) }
    ensures fits { IfOk result (λ d. FitsTypes d) }
    ensures told { IfOk result (λ d. (w : World) → AreBytesOf settings.now bytes.now w → d ≡ w) }
    ensures none { result ≡ Err Malformed → AreOfNoWorld settings.now bytes.now }
{
    let (parts, _) = parts_of(alloc, bytes)?;
    let slicer = numbers_of(alloc, &parts.line)?;
    let living = sorted(parts.line)?;
    Ok(Draft {
        settings: *settings,
        cells: parts.cells,
        living,
        slicer,
        reaper: parts.reaper,
        stored: parts.stored,
        saved: parts.saved,
        quanta: parts.quanta,
        births: parts.births,
        deaths: parts.deaths,
        next_birth: parts.next_birth,
    })
}

// The parts in the order of the bytes. The living are in the order of the slicer queue.
#[derive(Drop)]
struct Parts {
    cells: Vec<u8>,
    quanta: u64,
    births: u64,
    deaths: u64,
    next_birth: u64,
    line: Vec<Creature>,
    reaper: Vec<u64>,
    stored: Vec<StoredGenotype>,
    saved: Vec<Saving>,
}

#[tactic(auto, unfolding(crate::specs::Reading::state_at))]
fn parts_of(alloc: Global, bytes: &[u8]) -> Result<(Parts, &[u8]), Stop>
    ensures { Gives (λ x. (state_parts x.0, x.1.now)) result (state_at bytes.now) }
{
    let (cells, rest) = sized_of(bytes)?;
    let (quanta, births, rest) = eights_of(rest)?;
    let (deaths, next_birth, rest) = eights_of(rest)?;
    let (line, rest) = counted_by_four::<WorldFormat, Creature>(alloc, WorldFormat, rest)?;
    let (reaper, rest) = list_of(alloc, WorldFormat, line.len() as u64, rest)?;
    let (stored, rest) = counted_by_eight(alloc, WorldFormat, rest)?;
    let (saved, rest) = counted_by_eight(alloc, WorldFormat, rest)?;
    let parts = Parts {
        cells: cells.to_vec(alloc)?,
        quanta,
        births,
        deaths,
        next_birth,
        line,
        reaper,
        stored,
        saved,
    };
    Ok((parts, rest))
}

/// The birth numbers of the creatures, in their order.
pub fn numbers_of(alloc: Global, line: &[Creature]) -> Result<Vec<u64>, OutOfMemory>
    ensures { IfOk result (λ numbers. numbers.items ≡ ids_of line.now) }
{
    let mut numbers = Vec::with_capacity(alloc, line.len())?;
    for creature in line {
        numbers.push(creature.id)?;
    }
    Ok(numbers)
}

// The creatures in the order of their birth numbers.
fn sorted(line: Vec<Creature>) -> Result<Vec<Creature>, OutOfMemory>
    ensures same { IfOk result (λ living. IsPermutation line.items living.items) }
    ensures order { IfOk result (λ living. IsNonDecreasingBy (λ (c : Creature). c.id) living.items) }
{
    let mut living = line;
    living.sort_by_key(|creature| creature.id)?;
    Ok(living)
}
