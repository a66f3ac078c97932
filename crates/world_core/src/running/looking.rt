//! What a world is in the middle of a turn.

ghost use Rattle.std.specs.Prelude.{All, ◌≡◌, ◌↔◌, ◌+◌, ◌<◌, ◌≤◌, ◌^◌, ℕ, IfOk, IfSome, IsSome, IsTrue, Some, find, length, option_copied, option_map, slice_get, slice_index, slice_index_or, slice_range, ◌==◌};
ghost use Rattle.tierra_model.specs.declared.limits.TheConstants.{MOST_SIZE};
ghost use Rattle.tierra_model.specs.declared.events.Event.TheVariants as event;
ghost use Rattle.tierra_model.specs.Blocks.{no_block};
ghost use Rattle.tierra_model.specs.Events.{apply_event};
ghost use Rattle.tierra_model.specs.FreeList.{free_list};
ghost use Rattle.tierra_model.specs.Living.{ids_of, one_of};
ghost use Rattle.tierra_model.specs.Queue.{place_of_first_other};
ghost use Rattle.tierra_model.specs.Room.{filled, is_owned, room_for};
ghost use Rattle.tierra_model.specs.Counting.{times_in};
ghost use Rattle.tierra_model.specs.World.{front};
ghost use Rattle.tierra_model.specs.Yard.{standing};
ghost use Rattle.census.specs.Census.{living_of};
ghost use Rattle.world_state.specs.Restoring.{HasWords};
ghost use Rattle.world_core.specs.Running.{IsRunning, number_with};

use crate::genes::Genes;
use crate::running::Running;
use census::Census;
use genotyper::Genotypes;
use soup_cells::Soup;
use std::alloc::Global;
use tierra_model::{Block, Code, Creature, OutOfMemory, Settings, Standing};

impl Running {
    /// The settings of the world.
    pub fn settings(&self) -> &Settings
        ensures { result.now ≡ self.now.world.settings }
    {
        &self.settings
    }

    /// How many quanta have ended.
    pub fn quanta(&self) -> u64
        ensures { result ≡ self.now.world.quanta }
    {
        self.quanta
    }

    /// How many were born; those of the start are not counted.
    pub fn births(&self) -> u64
        ensures { result ≡ self.now.world.births }
    {
        self.births
    }

    /// How many died.
    pub fn deaths(&self) -> u64
        ensures { result ≡ self.now.world.deaths }
    {
        self.deaths
    }

    pub(crate) fn next_birth(&self) -> u64
        ensures { result ≡ self.now.world.next_birth }
    {
        self.next_birth
    }

    /// The record of a creature, if it lives.
    pub fn creature(&self, id: u64) -> Option<&Creature>
        ensures { option_copied result ≡ find (λ c. c.id == id) self.now.world.living }
    {
        self.population.get(id)
    }

    /// The creature at a place of the slicer queue, if the queue reaches that far.
    pub fn place(&self, k: u32) -> Option<&Creature>
        requires { (id : ℕ) → times_in self.now.world.slicer id ≡ times_in (ids_of self.now.world.living) id }
        ensures { option_copied result ≡ option_map (one_of self.now.world.living) (slice_get self.now.world.slicer k) }
    {
        let id = self.population.slicer_at(k)?;
        self.population.get(id)
    }

    /// The creature whose turn it is.
    pub fn front(&self) -> &Creature
        requires { IsRunning self.now.world }
        ensures { result.now ≡ front self.now.world }
    {
        self.population.front()
    }

    /// The birth number of the creature whose turn it is.
    pub(crate) fn front_id(&self) -> u64
        requires { IsRunning self.now.world }
        ensures { result ≡ (front self.now.world).id }
    {
        self.population.first()
    }

    /// How many cells the living own.
    pub fn filled(&self) -> u32
        ensures { result ≡ filled self.now.world.settings.soup_size (λ p. is_owned self.now.world.living p) }
    {
        self.blocks.filled()
    }

    /// How many runs of free cells there are.
    pub fn free_len(&self) -> u32
        ensures { result ≡ length (free_list self.now.world) }
    {
        self.blocks.free_len()
    }

    /// A run of free cells, by its place in their order.
    pub fn free_at(&self, place: u32) -> Block
        requires { place < length (free_list self.now.world) }
        ensures { result ≡ slice_index_or (free_list self.now.world) place no_block }
    {
        self.blocks.free_at(place)
    }

    /// Where a daughter block of the size is to go, if there is room.
    pub fn room_for(&self, size: u32) -> Option<u32>
        requires one { 1 ≤ size }
        requires few { size ≤ MOST_SIZE }
        ensures { result ≡ room_for self.now.world.settings (λ p. is_owned self.now.world.living p) size }
    {
        let filled = u64::from(self.blocks.filled());
        let most = u64::from(self.settings.fill_percent) * u64::from(self.settings.soup_size);
        if (filled + u64::from(size)) * 100 <= most {
            self.blocks.fit(size)
        } else {
            None
        }
    }

    /// Whether the daughter block is where a block of its size is to go, once it is given up.
    pub fn room_again(&self, block: Block) -> bool
        requires within { IsRunning self.now.world }
        requires held { (front self.now.world).daughter ≡ Some block }
        ensures { IsTrue result ↔ (room_for self.now.world.settings
            (λ p. is_owned (apply_event self.now.world event.GiveUp).living p) block.size ≡ Some block.at) }
    {
        let filled = u64::from(self.blocks.filled());
        let most = u64::from(self.settings.fill_percent) * u64::from(self.settings.soup_size);
        filled * 100 <= most && self.blocks.fits_again(block)
    }

    /// How many creatures live, all of whom are in the reaper queue.
    pub fn reaper_len(&self) -> u32
        ensures { result ≡ length self.now.world.reaper }
    {
        self.population.reaper_len()
    }

    /// The birth number at a place of the reaper queue.
    pub(crate) fn reaper_at(&self, place: u32) -> u64
        requires { place < length self.now.world.reaper }
        ensures { result ≡ slice_index self.now.world.reaper place }
    {
        self.population.reaper_at(place)
    }

    /// What the reaper queue shows at a place.
    pub fn standing(&self, place: u32) -> Standing
        requires here { (id : ℕ) → times_in self.now.world.reaper id ≡ times_in (ids_of self.now.world.living) id }
        requires within { place < length self.now.world.reaper }
        ensures { result ≡ standing (one_of self.now.world.living (slice_index self.now.world.reaper place)) }
    {
        let creature = self.population.at(place);
        Standing {
            id: creature.id,
            errors: creature.errors,
            own: creature.own,
            daughter: creature.daughter,
        }
    }

    /// The place in the reaper queue of the first creature other than the one whose turn it is.
    pub fn victim(&self) -> Option<u32>
        requires { IsRunning self.now.world }
        ensures { result ≡ place_of_first_other (front self.now.world).id self.now.world.reaper }
    {
        self.population.place_of_first_other(self.front_id())
    }

    /// The genotypes in the order of first birth.
    pub fn genotypes(&self) -> &Genotypes
        ensures { result.now.genotypes ≡ self.now.world.genotypes }
    {
        self.genes.genotypes()
    }

    pub(crate) fn genes(&self) -> &Genes
        ensures genotypes { result.now.genotypes ≡ self.now.world.genotypes }
        ensures saved { result.now.saved ≡ self.now.world.saved }
    {
        &self.genes
    }

    /// How many of each genotype live.
    pub fn census(&self) -> &Census
        ensures { (g : ℕ) → living_of result.now g ≡ number_with self.now.world.living g }
    {
        &self.census
    }

    /// How many genotypes were saved.
    pub fn kept(&self) -> u64
        ensures { result ≡ length self.now.world.saved }
    {
        self.genes.kept()
    }

    /// The words of each creature fit their types.
    pub(crate) fn words_fit(&self)
        ensures { All HasWords self.now.world.living }
    {
        self.population.words_fit();
    }

    /// The instruction's code in a cell.
    pub fn cell(&self, at: u32) -> u8
        requires { at < length self.now.world.soup }
        ensures value { result ≡ slice_index self.now.world.soup at }
        ensures code { result < 32 }
    {
        self.soup.get(at)
    }

    /// All cells of the soup.
    pub fn row(&self) -> &[u8]
        ensures { result.now ≡ self.now.world.soup }
    {
        self.soup.row()
    }

    /// The code that the daughter block has now.
    pub fn daughter_code(&self, alloc: Global) -> Result<Code, OutOfMemory>
        requires within { IsRunning self.now.world }
        requires held { IsSome (front self.now.world).daughter }
        ensures { IfOk result (λ code. IfSome (front self.now.world).daughter (λ b. code
            ≡ slice_range self.now.world.soup b.at (b.at + b.size))) }
    {
        let block = self.population.front().daughter.unwrap();
        code_of(alloc, &self.soup, block)
    }

    /// The code that a block has now.
    pub(crate) fn block_code(&self, alloc: Global, block: Block) -> Result<Code, OutOfMemory>
        requires lies { block.at + block.size ≤ length self.now.world.soup }
        requires small { length self.now.world.soup < 2 ^ 32 }
        ensures { IfOk result (λ code. code ≡ slice_range self.now.world.soup block.at (block.at + block.size)) }
    {
        code_of(alloc, &self.soup, block)
    }
}

// The code that a block has.
fn code_of(alloc: Global, soup: &Soup, block: Block) -> Result<Code, OutOfMemory>
    requires lies { block.at + block.size ≤ length soup.now.cells }
    requires small { length soup.now.cells < 2 ^ 32 }
    ensures { IfOk result (λ code. code ≡ slice_range soup.now.cells block.at (block.at + block.size)) }
{
    let mut items = Vec::with_capacity(alloc, block.size as usize)?;
    for at in block.at..block.at + block.size {
        items.push_reserved(soup.get(at));
    }
    Ok(Code { items })
}
