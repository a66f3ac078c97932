//! How long a crew takes jobs, and what its workers do after that. Counts decide it, and no clock.

ghost use Rattle.std.specs.Prelude.{◌↔◌, ◌≡◌, ◌≤◌, IsTrue};
ghost use Rattle.tierra_model.specs.declared.limits.TheConstants.{MOST_QUANTA};
ghost use Rattle.crew.specs.Trial.{Stays, TakesJobs, has_chance, mean_slice, number_of_drawers};
ghost use Rattle.commit_book.specs.Book.{world_of};

use commit_book::Book;
use slicer_queue::slice_of;
use tierra_model::Settings;

/// How many quanta of each run go through jobs. (More would be no gain: a turn at the book costs more than a short quantum,
/// and with slices of 4,000 instructions four workers took 0.7 to 1.2 times as long as one.)
pub const TRIAL_QUANTA: u64 = 256;

/// Fewer go through jobs if the creatures that these show, all jobs together, reach this number. A job that shows
/// 28,000 creatures takes 2 ms.
pub const MOST_SHOWN: u128 = 500_000;

/// Whether a crew takes jobs, once so many quanta are committed, while so many creatures live.
pub fn takes_jobs(committed: u64, living: u32) -> bool
    ensures { IsTrue result ↔ TakesJobs committed living }
{
    let shown = u128::from(committed) * u128::from(living);
    committed < TRIAL_QUANTA && shown < MOST_SHOWN
}

/// How long a worker stays at the book.
#[derive(Clone, Copy, Debug, Drop)]
pub(crate) enum Stay {
    /// To the end of the run.
    ToTheEnd,
    /// For the trial.
    ForTheTrial,
}

impl Stay {
    /// Whether the worker takes another job of the book.
    pub(crate) fn goes_on(self, book: &Book) -> bool
        ensures { IsTrue result ↔ Stays self book.now }
    {
        match self {
            Stay::ToTheEnd => true,
            Stay::ForTheTrial => takes_jobs(book.committed(), book.world().living()),
        }
    }
}

// The slice of a creature of average size.
fn mean_slice(book: &Book) -> u32
    ensures { result ≡ mean_slice (world_of book.now) }
{
    let world = book.world();
    slice_of(world.filled() / world.living().max(1), world.settings())
}

// ---- after the jobs

/// Draws made ahead by more workers are no gain.
pub const MOST_DRAWERS: u32 = 2;

/// How many workers only make draws, while worker 1 hands groups over and worker 2 runs the quanta.
pub fn number_of_drawers(workers: u32, settings: &Settings) -> u32
    ensures { result ≡ number_of_drawers workers settings.now }
{
    if has_chance(settings) {
        workers.saturating_sub(2).min(MOST_DRAWERS)
    } else {
        0
    }
}

// Whether anything is left to chance.
fn has_chance(settings: &Settings) -> bool
    ensures { result ≡ has_chance settings.now }
{
    settings.back_rate != 0 || settings.copy_rate != 0 || settings.flaw_rate != 0
}

/// What the workers do beside worker 2.
#[derive(Debug, Drop)]
pub(crate) struct Plan {
    pub settings: Settings,
    /// How many quanta the run has.
    pub quanta: u64,
    /// For how many instructions of a quantum draws are made ahead.
    pub reach: u32,
    /// How many workers only make draws.
    pub drawers: u32,
    /// Whether worker 1 makes draws while no group waits.
    pub first_draws: bool,
    ghost few: { quanta ≤ MOST_QUANTA },
}

impl Plan {
    /// What several workers do after the jobs.
    pub(crate) fn of(book: &Book, workers: u32) -> Plan {
        let settings = *book.world().settings();
        Plan {
            settings,
            quanta: book.quanta(),
            reach: mean_slice(book),
            drawers: number_of_drawers(workers, &settings),
            first_draws: workers == 2 && has_chance(&settings),
        }
    }
}
