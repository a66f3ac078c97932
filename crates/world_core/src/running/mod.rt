//! A world in the middle of a turn, its parts and the room in them.

ghost use Rattle.std.specs.Prelude.{◌≡◌, ◌<◌, ◌≤◌, ℕ, IfOk, OnOk, length, true};
ghost use Rattle.tierra_model.specs.declared.events.Event.TheVariants as event;
ghost use Rattle.tierra_model.specs.Serial.{empty_world};
ghost use Rattle.world_core.specs.Running.{KeepsReady, can_be_set};
ghost use Rattle.world_core.specs.Tied.{AreTied};

mod births;
mod events;
mod looking;
mod parts;

use crate::genes::Genes;
use crate::population::Population;
use block_alloc::Blocks;
use census::Census;
use soup_cells::{Soup, Version};
use std::alloc::Global;
use std::marker::Model;
use tierra_model::{OutOfMemory, Settings};

/// A world while one of its quanta runs. Each event of the quantum is a call, which takes no memory: the room for births,
/// and for blocks that are taken or given back, is reserved first, and the cells are made ready.
#[derive(Drop)]
pub struct Running {
    settings: Settings,
    soup: Soup,
    population: Population,
    blocks: Blocks,
    genes: Genes,
    census: Census,
    births: u64,
    deaths: u64,
    next_birth: u64,
    quanta: u64,
}

impl Model for Running {
    ghost use Rattle.std.specs.Prelude.{min};
    ghost use Rattle.census.specs.Census.{spare_of};
    ghost use Rattle.world_core.specs.Running.{WorldFields};
    ghost use Rattle.world_core.specs.Tied.{AreTied};

    ghost Value = { WorldFields };

    ghost view = { λ r. record {
      world = record {
        settings = r.settings;
        soup = r.soup.cells;
        living = r.population.living;
        slicer = r.population.slicer;
        reaper = r.population.reaper;
        genotypes = r.genes.genotypes;
        saved = r.genes.saved;
        births = r.births;
        deaths = r.deaths;
        next_birth = r.next_birth;
        quanta = r.quanta;
      };
      own = r.soup.own;
      births = min r.population.spare (min r.genes.spare (spare_of r.census));
      blocks = r.blocks.spare;
    } };

    ghost invariant = { λ r. AreTied r.settings.soup_size r.population.living r.blocks r.census };
}

/// How many were born and died, the next birth number, and how many quanta have ended.
#[derive(Clone, Copy, Drop)]
pub(crate) struct Counts {
    pub(crate) births: u64,
    pub(crate) deaths: u64,
    pub(crate) next_birth: u64,
    pub(crate) quanta: u64,
}

impl Running {
    /// A world of these parts.
    pub(crate) fn of(
        settings: Settings,
        soup: Soup,
        population: Population,
        blocks: Blocks,
        genes: Genes,
        census: Census,
        counts: Counts,
    ) -> Running
        requires { AreTied settings.soup_size population.living blocks census }
        ensures { result.world ≡ record {
          settings = settings;
          soup = soup.cells;
          living = population.living;
          slicer = population.slicer;
          reaper = population.reaper;
          genotypes = genes.genotypes;
          saved = genes.saved;
          births = counts.births;
          deaths = counts.deaths;
          next_birth = counts.next_birth;
          quanta = counts.quanta;
        } }
    {
        Running {
            settings,
            soup,
            population,
            blocks,
            genes,
            census,
            births: counts.births,
            deaths: counts.deaths,
            next_birth: counts.next_birth,
            quanta: counts.quanta,
        }
    }

    /// A soup of cells that are all 0, and nobody in it.
    pub(crate) fn empty(alloc: Global, settings: &Settings) -> Result<Running, OutOfMemory>
        ensures { IfOk result (λ r. r.world ≡ empty_world settings.now) }
    {
        Ok(Running {
            settings: *settings,
            blocks: Blocks::new(alloc, settings.soup_size)?,
            soup: Soup::new(alloc, settings.soup_size)?,
            population: Population::new(alloc),
            genes: Genes::new(alloc),
            census: Census::new(alloc),
            births: 0,
            deaths: 0,
            next_birth: 1,
            quanta: 0,
        })
    }

    /// Makes room for this many births, and for this many blocks taken or given back.
    pub fn reserve(&mut self, births: u32, blocks: u32) -> Result<(), OutOfMemory>
        ensures world { self.new.world ≡ self.old.world }
        ensures ready { KeepsReady self.old self.new }
        ensures ok { OnOk result ((births ≤ self.new.births) × (blocks ≤ self.new.blocks)) }
        ensures births { self.old.births ≤ self.new.births }
        ensures blocks { self.old.blocks ≤ self.new.blocks }
    {
        self.blocks.reserve(blocks)?;
        self.population.reserve(births)?;
        self.genes.reserve(births)?;
        self.census.reserve(births)
    }

    /// Makes room for this many blocks taken or given back.
    pub fn reserve_blocks(&mut self, blocks: u32) -> Result<(), OutOfMemory>
        ensures world { self.new.world ≡ self.old.world }
        ensures ready { KeepsReady self.old self.new }
        ensures ok { OnOk result (blocks ≤ self.new.blocks) }
        ensures births { self.new.births ≡ self.old.births }
        ensures blocks { self.old.blocks ≤ self.new.blocks }
    {
        self.blocks.reserve(blocks)
    }

    /// Makes a cell ready, so that it can be set.
    pub fn ready(&mut self, at: u32) -> Result<(), OutOfMemory>
        requires { at < length self.old.world.soup }
        ensures world { self.new.world ≡ self.old.world }
        ensures ok { OnOk result (can_be_set self.new at ≡ true) }
        ensures kept { (p : ℕ) → can_be_set self.old p ≡ true → can_be_set self.new p ≡ true }
        ensures births { self.new.births ≡ self.old.births }
        ensures blocks { self.new.blocks ≡ self.old.blocks }
    {
        self.soup.ready(at)
    }

    /// A lasting version of the cells as they are now. Afterwards no cell need be ready.
    pub fn version(&mut self) -> Result<Version, OutOfMemory>
        ensures world { self.new.world ≡ self.old.world }
        ensures ok { IfOk result (λ v. v ≡ self.old.world.soup) }
        ensures births { self.new.births ≡ self.old.births }
        ensures blocks { self.new.blocks ≡ self.old.blocks }
    {
        self.soup.version()
    }
}
