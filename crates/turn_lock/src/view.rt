//! What the rule of the lock speaks of: the table that the lock uses, and what each seat knows. Only contracts see
//! this, and no value of these types is made.
//!
//! Word 0 of the table is the next ticket, word 1 the ticket that is served, and word c + 1 counts the entries by
//! caller c. The one slot has the value, or `None` while a turn has it.

use crate::kept::Kept;
use atomic_table::TableRule;
use std::collections::LinkedList;
use std::snapshot::Snapshot;
use tierra_model::Setup;

/// What the lock reads of a value.
pub struct Summary {
    pub setup: (Setup, u64),
    pub committed: u64,
    pub entries: [u64; 64],
}

/// The stage that a seat has reached.
pub enum Stage {
    /// It was joined into another seat.
    Spent,
    /// It has no ticket.
    Idle,
    /// It drew this ticket.
    Waiting(u64),
    /// Its ticket is served, and it has read these counts, in the order of the callers.
    Called(u64, LinkedList<u64>),
    /// It has all counts, and it holds the slot.
    Holding(u64, LinkedList<u64>),
}

/// What a seat knows.
pub struct SeatView {
    /// The summary of the value that the lock was made with.
    pub opening: Summary,
    pub stage: Stage,
    /// Its own caller's number less one, which is the caller's place in `own`.
    pub place: u64,
    pub seen: u64,
    pub turns: u64,
    /// How many tickets its callers may still draw.
    pub left: u64,
    /// The last caller number given out, if it speaks for caller 1.
    pub last_caller: Option<u64>,
    /// In the order of the callers, the count of each that it speaks for, and `None` for the others.
    pub own: [Option<u64>; 64],
}

/// The rule of the table.
pub struct LockRule;

impl<T: Kept> TableRule<Option<T>, SeatView, Snapshot<T>> for LockRule {
    ghost use Rattle.turn_lock.specs.Summary.{summary_of};
    ghost use Rattle.turn_lock.specs.View.{first_view};
    ghost use Rattle.turn_lock.specs.Rule.{KeepsRule};

    ghost holds = { λ key. KeepsRule (summary_of T.setup T.committed T.entries)
        (summary_of T.setup T.committed T.entries key.value) };

    ghost first = { λ key. first_view (summary_of T.setup T.committed T.entries key.value) };
}
