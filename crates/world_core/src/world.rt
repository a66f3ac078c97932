//! The world between two quanta.

ghost use Rattle.std.specs.Prelude.{◌≡◌, ◌==◌, ◌<◌, ℕ, IfOk, OnOk, find, length, option_copied, option_map, slice_get};
ghost use Rattle.tierra_model.specs.FreeList.{free_list};
ghost use Rattle.tierra_model.specs.Living.{one_of};
ghost use Rattle.tierra_model.specs.Room.{filled, is_owned};
ghost use Rattle.tierra_model.specs.Serial.{empty_world, start, with_inocula};
ghost use Rattle.tierra_model.specs.Setups.{IsSetup};
ghost use Rattle.tierra_model.specs.Sound.{IsSound};
ghost use Rattle.tierra_model.specs.World.{genotype_at};
ghost use Rattle.tierra_model.specs.Yard.{yard};
ghost use Rattle.census.specs.Census.{living_of};
ghost use Rattle.world_core.specs.Population.{entries_of};
ghost use Rattle.world_core.specs.Running.{number_with};

use crate::running::Running;
use block_alloc::Blocks;
use census::Census;
use genotyper::Genotypes;
use reaper_queue::Reaper;
use soup_cells::Version;
use std::alloc::Global;
use std::marker::Model;
use tierra_model::{
    Block, Code, Creature, Effort, Inoculum, Now, OutOfMemory, SeedList, Settings, Setup, Standing,
    Yard,
};
use world_state::copied;

/// A sound world, in which no quantum runs.
#[derive(Drop)]
pub struct World {
    // boxed, so that a world is small, and quick to move
    pub(crate) running: Box<Running>,
}

impl Model for World {
    ghost use Rattle.tierra_model.specs.Sound.{IsSound};
    ghost use Rattle.world_core.specs.Running.{WorldFields};

    ghost Value = { WorldFields };

    ghost view = { λ w. w.running.value };

    ghost invariant = { λ w. IsSound w.running.value.world };
}

impl World {
    /// The world at the start of a run.
    pub fn start(alloc: Global, setup: &Setup) -> Result<World, OutOfMemory>
        ensures { IfOk result (λ w. w.world ≡ start setup.now) }
    {
        let mut running = Box::new(alloc, Running::empty(alloc, &setup.settings)?)?;
        let seeds: &SeedList = &setup.creatures;
        inoculate_all(alloc, &mut running, &seeds.items)?;
        Ok(World { running })
    }

    /// Begins a quantum.
    pub fn begin(self) -> Running
        ensures world { result ≡ self }
        ensures sound { IsSound result.world }
    {
        Box::into_inner(self.running)
    }

    /// The settings of the world.
    pub fn settings(&self) -> &Settings
        ensures settings { result.now ≡ self.now.world.settings }
        ensures sound { IsSound self.now.world }
    {
        self.running.settings()
    }

    /// How many quanta have ended.
    pub fn quanta(&self) -> u64
        ensures { result ≡ self.now.world.quanta }
    {
        self.running.quanta()
    }

    /// How many were born; those of the start are not counted.
    pub fn births(&self) -> u64
        ensures { result ≡ self.now.world.births }
    {
        self.running.births()
    }

    /// How many died.
    pub fn deaths(&self) -> u64
        ensures { result ≡ self.now.world.deaths }
    {
        self.running.deaths()
    }

    /// The next birth number.
    pub fn next_birth(&self) -> u64
        ensures { result ≡ self.now.world.next_birth }
    {
        self.running.next_birth()
    }

    /// The record of a creature, if it lives.
    pub fn creature(&self, id: u64) -> Option<&Creature>
        ensures { option_copied result ≡ find (λ c. c.id == id) self.now.world.living }
    {
        self.running.creature(id)
    }

    /// Who runs after `k` more quanta, if nobody is born or dies.
    pub fn place(&self, k: u32) -> Option<&Creature>
        ensures { option_copied result ≡ option_map (one_of self.now.world.living) (slice_get self.now.world.slicer k) }
    {
        self.running.place(k)
    }

    /// How many creatures live.
    pub fn living(&self) -> u32
        ensures { result ≡ length self.now.world.living }
    {
        self.running.reaper_len()
    }

    /// How many cells are in blocks and daughter blocks of the living.
    pub fn filled(&self) -> u32
        ensures { result ≡ filled self.now.world.settings.soup_size (λ p. is_owned self.now.world.living p) }
    {
        self.running.filled()
    }

    /// The cells, each free or owned by one of the living.
    pub fn blocks(&self) -> &Blocks
        ensures size { result.now.size ≡ self.now.world.settings.soup_size }
        ensures free { result.now.free ≡ free_list self.now.world }
        ensures spare { result.now.spare ≡ self.now.blocks }
    {
        self.running.blocks()
    }

    /// The reaper queue: the living by birth number, each with its errors.
    pub fn reaper(&self) -> &Reaper
        ensures { result.now.entries ≡ entries_of self.now.world.living self.now.world.reaper }
    {
        self.running.reaper()
    }

    /// What the reaper queue shows of each creature, from the top on.
    pub fn yard(&self, alloc: Global) -> Result<Yard, OutOfMemory>
        ensures { IfOk result (λ y. y ≡ yard self.now.world) }
    {
        let mut items = Vec::with_capacity(alloc, self.yard_len() as usize)?;
        for place in 0..self.yard_len() {
            items.push(self.standing(place))?;
        }
        Ok(Yard { items })
    }

    /// The genotypes in the order of first birth.
    pub fn genotypes(&self) -> &Genotypes
        ensures { result.now.genotypes ≡ self.now.world.genotypes }
    {
        self.running.genotypes()
    }

    /// How many of each genotype live.
    pub fn census(&self) -> &Census
        ensures { (g : ℕ) → living_of result.now g ≡ number_with self.now.world.living g }
    {
        self.running.census()
    }

    /// How many genotypes were saved.
    pub fn kept(&self) -> u64
        ensures { result ≡ length self.now.world.saved }
    {
        self.running.kept()
    }

    /// What the earliest first daughter of a mother with the genotype cost.
    pub fn first(&self, genotype: u64) -> Option<Effort>
        requires { genotype < length self.now.world.genotypes }
        ensures { result ≡ (genotype_at self.now.world.genotypes genotype).first_effort }
    {
        self.running.genotypes().first_effort(genotype)
    }

    /// What the earliest second daughter cost.
    pub fn second(&self, genotype: u64) -> Option<Effort>
        requires { genotype < length self.now.world.genotypes }
        ensures { result ≡ (genotype_at self.now.world.genotypes genotype).second_effort }
    {
        self.running.genotypes().second_effort(genotype)
    }

    /// A lasting version of the cells as they are now.
    pub fn version(&mut self) -> Result<Version, OutOfMemory>
        ensures world { self.new.world ≡ self.old.world }
        ensures ok { IfOk result (λ v. v ≡ self.old.world.soup) }
        ensures births { self.new.births ≡ self.old.births }
        ensures blocks { self.new.blocks ≡ self.old.blocks }
    {
        self.running.version()
    }
}

impl Now for World {
    ghost world = { λ w. w.world };

    fn cell(&self, at: u32) -> u8 {
        self.running.cell(at)
    }

    fn front(&self) -> &Creature {
        self.running.front()
    }

    fn free_len(&self) -> u32 {
        self.running.free_len()
    }

    fn free_at(&self, place: u32) -> Block {
        self.running.free_at(place)
    }

    fn yard_len(&self) -> u32 {
        self.running.reaper_len()
    }

    fn standing(&self, place: u32) -> Standing {
        self.running.standing(place)
    }
}

impl Running {
    /// Ends a quantum. If there is no memory for the world, it is lost.
    pub fn finish(self, alloc: Global) -> Result<World, OutOfMemory>
        requires { IsSound self.world }
        ensures { IfOk result (λ w. w ≡ self) }
    {
        let running = Box::new(alloc, self)?;
        Ok(World { running })
    }
}

// Puts creatures into an empty world.
fn inoculate_all(
    alloc: Global,
    running: &mut Running,
    creatures: &[Inoculum],
) -> Result<(), OutOfMemory>
    requires setup { IsSetup (record { settings = running.old.world.settings; creatures = creatures.now }) }
    requires empty { running.old.world ≡ empty_world running.old.world.settings }
    ensures { OnOk result (running.new.world ≡ with_inocula creatures.now running.old.world) }
{
    for inoculum in creatures {
        running.reserve(1, 1)?;
        let code = copied(alloc, &inoculum.code)?;
        running.inoculate(inoculum.at, code)?;
    }
    Ok(())
}
