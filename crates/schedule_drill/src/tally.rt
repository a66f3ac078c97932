//! What is counted of a schedule.

ghost use Rattle.std.specs.Prelude.{◌≡◌, count_by};
ghost use Rattle.schedule_drill.specs.Drill.{is_fresh, is_missing, is_stale};

use commit_book::History;
use tierra_model::How;

/// How many quanta were committed each way, and how many answers of each kind the moves had.
#[derive(Clone, Copy, Debug, Drop, PartialEq, Eq)]
pub struct Tally {
    pub fresh: u64,
    pub missing: u64,
    pub stale: u64,
    pub kept: u64,
    pub twice: u64,
    pub late: u64,
    pub full: u64,
    pub idle: u64,
}

/// How many answers of each kind the moves had.
#[derive(Clone, Copy, Debug, Drop, PartialEq, Eq)]
pub struct Answered {
    pub kept: u64,
    pub twice: u64,
    pub late: u64,
    pub full: u64,
    /// Claims by a hand that is not empty, offers, repeats and losses by an empty hand, and claims and advances of a
    /// book that has ended.
    pub idle: u64,
}

/// How many quanta were committed by a finding that agreed, without a finding, and in place of a stale one.
#[derive(Clone, Copy, Drop)]
pub(crate) struct Ways {
    pub(crate) fresh: u64,
    pub(crate) missing: u64,
    pub(crate) stale: u64,
}

pub(crate) fn ways_of(history: &History) -> Ways
    ensures fresh { result.fresh ≡ count_by is_fresh history.now }
    ensures missing { result.missing ≡ count_by is_missing history.now }
    ensures stale { result.stale ≡ count_by is_stale history.now }
{
    let mut ways = Ways {
        fresh: 0,
        missing: 0,
        stale: 0,
    };
    for place in 0..history.len() {
        match history.at(place).how {
            How::Fresh => ways.fresh += 1,
            How::Missing => ways.missing += 1,
            How::Stale(_) => ways.stale += 1,
        }
    }
    ways
}
