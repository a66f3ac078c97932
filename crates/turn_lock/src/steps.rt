//! The kinds of step on the table, and what the seat that makes it learns.

ghost use Rattle.turn_lock.specs.Summary.{summary_of};
ghost use Rattle.turn_lock.specs.View.{after_split, new_view, after_join, spent};
ghost use Rattle.turn_lock.specs.Steps.{DrawsTicket, LoadsServing, LoadsCount, TakesSlot, Publishes, PassesOn};

use crate::kept::Kept;
use crate::view::SeatView;
use atomic_table::{Join, Play, Split};

pub(crate) struct DrawTicket;

impl<T> Play<Option<T>, SeatView> for DrawTicket {
    ghost then = { DrawsTicket };
}

pub(crate) struct LoadServing;

impl<T> Play<Option<T>, SeatView> for LoadServing {
    ghost then = { LoadsServing };
}

pub(crate) struct LoadCount;

impl<T> Play<Option<T>, SeatView> for LoadCount {
    ghost then = { LoadsCount };
}

pub(crate) struct TakeSlot;

impl<T: Kept> Play<Option<T>, SeatView> for TakeSlot {
    ghost then = { TakesSlot (summary_of T.setup T.committed T.entries) };
}

pub(crate) struct Publish;

impl<T> Play<Option<T>, SeatView> for Publish {
    ghost then = { Publishes };
}

pub(crate) struct PassOn;

impl<T> Play<Option<T>, SeatView> for PassOn {
    ghost then = { PassesOn };
}

pub(crate) struct SplitSeat;

impl Split<SeatView> for SplitSeat {
    ghost left = { after_split };

    ghost right = { new_view };
}

pub(crate) struct JoinSeats;

impl Join<SeatView> for JoinSeats {
    ghost both = { after_join };

    ghost spent = { spent };
}
