//! What is run.

ghost use Rattle.std.specs.Prelude.{◌≤◌};
ghost use Rattle.tierra_model.specs.declared.limits.TheConstants.{MOST_QUANTA, MOST_WORKERS};

use tierra_model::Setup;

/// A setup, how many of its quanta are run, and with how many workers.
#[derive(Drop)]
pub(crate) struct Plan {
    pub setup: Setup,
    pub quanta: u64,
    pub workers: u32,
    pub ghost few: { (1 ≤ quanta) × (quanta ≤ MOST_QUANTA) },
    pub ghost crew: { (1 ≤ workers) × (workers ≤ MOST_WORKERS) },
}
