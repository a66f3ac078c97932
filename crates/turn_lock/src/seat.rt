//! Seats, and the turns that they take.

ghost use Rattle.std.specs.Prelude.{◌≡◌, ◌≤◌};
ghost use Rattle.turn_lock.specs.Seat.{own_of};

use crate::kept::Kept;
use crate::view::SeatView;
use atomic_table::Badge;
use std::marker::Model;
use std::snapshot::Snapshot;

/// The right to take turns at a lock. It speaks for its own caller, and for those whose seats were joined into it.
#[derive(Drop)]
pub struct Seat {
    pub(crate) badge: Badge<SeatView>,
    pub(crate) caller: u32,
    pub(crate) turns: u64,
    pub(crate) seen: u64,
    pub(crate) own: Box<[Option<u64>; 64]>,
}

impl Model for Seat {
    ghost use Rattle.turn_lock.specs.Seat.{SeatFields};
    ghost use Rattle.turn_lock.specs.Mirrors.{view_of, seat_of, MirrorsSeat};

    ghost Value = { SeatFields };

    ghost view = { λ s. seat_of s.badge.table_id (view_of s.badge.views) };

    ghost invariant = { λ s. MirrorsSeat s.badge.views s.caller s.turns s.seen s.own.value };
}

impl Seat {
    /// How many turns the seat took, with those of the seats that were joined into it.
    pub fn turns(&self) -> u64
        ensures { result ≡ self.now.turns }
    {
        self.turns
    }

    /// How much was committed when it, or a seat that was joined into it, last gave the value back.
    pub fn seen(&self) -> u64
        ensures { result ≡ self.now.seen }
    {
        self.seen
    }

    /// The number of its own caller.
    pub fn caller(&self) -> u32
        ensures own { result ≡ self.now.caller }
        ensures least { 1 ≤ result }
        ensures most { result ≤ 64 }
    {
        self.caller
    }

    /// How many entries the caller committed since the lock was made, or `None` if the seat does not speak for it.
    pub fn own(&self, caller: u32) -> Option<u64>
        ensures { result ≡ own_of self.now caller }
    {
        let own = &self.own;
        if caller == 0 || caller > 64 {
            return None;
        }
        own[caller as usize - 1]
    }
}

/// A turn: the seat that took it, while the value is out. Only `give` ends a turn. It is not `Drop`, because after a
/// dropped turn the lock would serve nobody.
pub struct Turn<T: Kept> {
    pub(crate) table_seat: atomic_table::Seat<Option<T>, SeatView>,
    pub(crate) caller: u32,
    pub(crate) turns: u64,
    pub(crate) own: Box<[Option<u64>; 64]>,
    pub(crate) committed: u64,
    pub(crate) taken: Snapshot<T>,
}

impl<T: Kept> Model for Turn<T> {
    ghost use Rattle.turn_lock.specs.Summary.{summary_of};
    ghost use Rattle.turn_lock.specs.Seat.{TurnFields};
    ghost use Rattle.turn_lock.specs.Mirrors.{seat_of, MirrorsTurn};

    ghost Value = { TurnFields };

    ghost view = { λ t. record {
      seat = seat_of t.table_seat.table_id t.table_seat.me.0;
      taken = summary_of T.setup T.committed T.entries t.taken.value;
    } };

    ghost invariant = { λ t. MirrorsTurn t.table_seat.me t.caller t.turns t.committed t.own.value
        (summary_of T.setup T.committed T.entries t.taken.value) };
}
