//! The parts of a world that are lent whole.

ghost use Rattle.std.specs.Prelude.{◌≡◌};
ghost use Rattle.tierra_model.specs.FreeList.{free_list};
ghost use Rattle.world_core.specs.Population.{entries_of};

use crate::running::Running;
use block_alloc::Blocks;
use reaper_queue::Reaper;

impl Running {
    /// The cells, each free or owned.
    pub(crate) fn blocks(&self) -> &Blocks
        ensures size { result.now.size ≡ self.now.world.settings.soup_size }
        ensures free { result.now.free ≡ free_list self.now.world }
        ensures spare { result.now.spare ≡ self.now.blocks }
    {
        &self.blocks
    }

    /// The reaper queue.
    pub(crate) fn reaper(&self) -> &Reaper
        ensures { result.now.entries ≡ entries_of self.now.world.living self.now.world.reaper }
    {
        self.population.reaper()
    }
}
