//! The lock.

ghost use Rattle.std.specs.Prelude.{◌≡◌, ℕ, ◌+◌, ◌-◌, ◌^◌, ◌<◌, ◌≤◌, ◌≢◌, List, [], ◌∷◌, length, max, Some, None, IsSome, IsSomeAnd, IfNone, IfOk, IfErr, IfSome, OnOk, OnErr};
ghost use Rattle.std.specs.Option.{option_or};
ghost use Rattle.turn_lock.specs.declared.view.Stage.TheVariants.{Waiting, Called};
ghost use Rattle.turn_lock.specs.Summary.{summary_of, entries_by, Commits};
ghost use Rattle.turn_lock.specs.Seat.{own_of, own_total, only, first_seat, new_seat, IsSameSeat, SpeaksForAll};
ghost use Rattle.turn_lock.specs.View.{at_stage, merged};

use crate::kept::Kept;
use crate::seat::{Seat, Turn};
use crate::steps::{
    DrawTicket, JoinSeats, LoadCount, LoadServing, PassOn, Publish, SplitSeat, TakeSlot,
};
use crate::view::{LockRule, SeatView};
use atomic_table::{Badge, Refused, Table};
use std::alloc::{AllocFailed, Global};
use std::hint::spin_loop;
use std::marker::Model;
use std::snapshot::Snapshot;
use std::sync::Wait;
use std::sync::atomic::{AtomicU64, Ordering};
use std::thread::yield_now;
use tierra_model::OutOfMemory;

/// How many times a waiter looks, without a pause, whether it is served.
const LOOKS: u32 = 200;

/// How many more times it looks if few are ahead of it, letting other threads run between looks. Then it parks.
const MORE_LOOKS: u32 = 500;

/// How many ahead of it count as few.
const FEW: u64 = 3;

// A seat, as the table knows it.
type TableSeat<T> = atomic_table::Seat<Option<T>, SeatView>;

/// There was no memory for a lock. The value comes back.
#[derive(Debug, Drop)]
pub struct NoRoom<T> {
    pub value: T,
}

/// A ticket lock over a value. Tickets are served in the order in which they were drawn.
#[derive(Drop)]
pub struct TurnLock<T: Kept> {
    table: Table<Option<T>, SeatView, Snapshot<T>, LockRule, Global>,
    // How many are parked or about to park. Passing the turn on wakes them, and skips the call if there are none.
    parked: AtomicU64,
    alloc: Global,
}

impl<T: Kept> Model for TurnLock<T> {
    ghost use Rattle.std.specs.Prelude.{◌≡◌};
    ghost use Rattle.turn_lock.specs.Summary.{summary_of};
    ghost use Rattle.turn_lock.specs.Seat.{LockFields};

    ghost Value = { LockFields };

    ghost view = { λ l. record {
      id = l.table.shared.table_id;
      opening = summary_of T.setup T.committed T.entries l.table.shared.key.value;
    } };

    ghost invariant = { λ l. (l.table.shared.table_id.words ≡ 66) × (l.table.shared.table_id.slots ≡ 1) };
}

impl<T: Kept> TurnLock<T> {
    /// A lock over the value, and the first seat, which speaks for caller 1.
    pub fn of(alloc: Global, value: T) -> Result<(TurnLock<T>, Seat), NoRoom<T>>
        ensures opening { IfOk result (λ r. r.0.opening ≡ summary_of T.setup T.committed T.entries value) }
        ensures seat { IfOk result (λ r. r.1 ≡ first_seat r.0) }
        ensures refused { IfErr result (λ r. r.value ≡ value) }
    {
        let opening = Snapshot::of(&value);
        let seen = value.committed();
        let Ok(own) = Box::new(alloc, only_for(1)) else {
            return Err(NoRoom { value });
        };
        let slots = one_slot(alloc, value)?;
        match Table::new(alloc, &[0; 66], slots, &opening) {
            Ok((table, table_seat)) => {
                let seat = Seat {
                    badge: table_seat.into_badge(),
                    caller: 1,
                    turns: 0,
                    seen,
                    own,
                };
                let parked = AtomicU64::new(0);
                Ok((
                    TurnLock {
                        table,
                        parked,
                        alloc,
                    },
                    seat,
                ))
            }
            Err(Refused { slots }) => Err(NoRoom {
                value: value_in(slots),
            }),
        }
    }

    /// A new seat that speaks for `caller` alone.
    pub fn split(&self, seat: &mut Seat, caller: u32) -> Result<Seat, OutOfMemory>
        requires lock { seat.old.lock ≡ self.now }
        requires first { IsSome (own_of seat.old 1) }
        requires next { IsSomeAnd seat.old.last_caller (λ last. caller ≡ last + 1) }
        requires most { caller ≤ 64 }
        ensures new { IfOk result (λ new. new ≡ new_seat seat.old caller) }
        ensures old { OnOk result (seat.new ≡ record seat.old { last_caller = Some caller }) }
        ensures refused { OnErr result (seat.new ≡ seat.old) }
    {
        let own = Box::new(self.alloc, only_for(caller))?;
        let badge = std::mem::replace(&mut seat.badge, Badge::blank());
        let mut table_seat: TableSeat<T> = badge.into_seat();
        let new = self.table.shared.split_seat::<SplitSeat>(&mut table_seat);
        seat.badge = table_seat.into_badge();
        Ok(Seat {
            badge: new.into_badge(),
            caller,
            turns: 0,
            seen: seat.seen,
            own,
        })
    }

    /// Waits for the seat's turn, and takes the value out.
    pub fn take<R: Wait>(&self, rt: &R, seat: Seat) -> (Turn<T>, T)
        requires lock { seat.lock ≡ self.now }
        requires room { seat.turns < 2 ^ 40 }
        ensures seat { result.0.seat ≡ seat }
        ensures taken { result.0.taken ≡ summary_of T.setup T.committed T.entries result.1 }

        ensures setup { T.setup result.1 ≡ self.now.opening.setup }
        ensures seen { seat.seen ≤ T.committed result.1 }
        ensures own { (c n : ℕ) → own_of seat c ≡ Some n
            → entries_by (T.entries result.1) c ≡ entries_by self.now.opening.entries c + n }
    {
        let Seat {
            badge,
            caller,
            turns,
            seen: _,
            own,
        } = seat;
        let mut table_seat = badge.into_seat();
        let ticket = self
            .table
            .shared
            .fetch_add::<DrawTicket>(&mut table_seat, 0, 1);
        self.wait(rt, &mut table_seat, ticket);
        self.read_counts(&mut table_seat, ticket);
        self.table.shared.load::<TakeSlot>(&mut table_seat, 1);
        let slot = self.table.shared.exchange(&mut table_seat, 0, None);
        let Some(value) = slot else { unreachable!() };
        let turn = Turn {
            table_seat,
            caller,
            turns,
            own,
            committed: value.committed(),
            taken: Snapshot::of(&value),
        };
        (turn, value)
    }

    /// Gives the value back, and ends the turn.
    pub fn give(&self, turn: Turn<T>, value: T) -> Seat
        requires lock { turn.seat.lock ≡ self.now }
        requires value { Commits turn.seat.caller turn.taken (summary_of T.setup T.committed T.entries value) }
        ensures seat { IsSameSeat turn.seat result }
        ensures turns { result.turns ≡ turn.seat.turns + 1 }
        ensures seen { result.seen ≡ T.committed value }
        ensures own { IsSomeAnd (own_of turn.seat turn.seat.caller)
            (λ n. own_of result turn.seat.caller ≡ Some (n + (T.committed value - turn.taken.committed))) }
        ensures others { (c : ℕ) → c ≢ turn.seat.caller → own_of result c ≡ own_of turn.seat c }
    {
        let Turn {
            mut table_seat,
            caller,
            turns,
            mut own,
            committed,
            taken: _,
        } = turn;
        let seen = value.committed();
        let growth = seen - committed;
        let at = caller as usize - 1;
        let Some(count) = own[at] else { unreachable!() };
        own[at] = Some(count + growth);
        let slot = self.table.shared.exchange(&mut table_seat, 0, Some(value));
        let None = slot else { unreachable!() };
        self.table
            .shared
            .fetch_add::<Publish>(&mut table_seat, at + 2, growth);
        self.table.shared.fetch_add::<PassOn>(&mut table_seat, 1, 1);
        if self.parked.load(Ordering::SeqCst) > 0 {
            self.table.shared.wake_all(1);
        }
        Seat {
            badge: table_seat.into_badge(),
            caller,
            turns: turns + 1,
            seen,
            own,
        }
    }

    /// One seat that speaks for the callers of both.
    pub fn join_seats(&self, into: Seat, from: Seat) -> Seat
        requires into { into.lock ≡ self.now }
        requires from { from.lock ≡ self.now }
        ensures lock { result.lock ≡ into.lock }
        ensures caller { result.caller ≡ into.caller }
        ensures turns { result.turns ≡ into.turns + from.turns }
        ensures seen { result.seen ≡ max into.seen from.seen }
        ensures last { result.last_caller ≡ option_or into.last_caller from.last_caller }
        ensures own { (c : ℕ) → own_of result c ≡ option_or (own_of into c) (own_of from c) }
    {
        let Seat {
            badge,
            caller,
            turns,
            seen,
            mut own,
        } = into;
        let Seat {
            badge: other,
            caller: _,
            turns: more,
            seen: also,
            own: theirs,
        } = from;
        let mut table_seat: TableSeat<T> = badge.into_seat();
        self.table
            .shared
            .join_seat::<JoinSeats>(&mut table_seat, other.into_seat());
        self.table.shared.load::<LoadServing>(&mut table_seat, 1);
        merge(&mut own, &theirs);
        Seat {
            badge: table_seat.into_badge(),
            caller,
            turns: turns + more,
            seen: seen.max(also),
            own,
        }
    }

    /// Takes the value out for good, when all other seats were joined into this one.
    pub fn close(self, seat: Seat) -> T
        requires lock { seat.lock ≡ self }
        requires all { SpeaksForAll seat }
        ensures setup { T.setup result ≡ self.opening.setup }
        ensures committed { T.committed result ≡ self.opening.committed + own_total seat }
        ensures seen { seat.seen ≤ T.committed result }

        ensures own { (c n : ℕ) → own_of seat c ≡ Some n
            → entries_by (T.entries result) c ≡ entries_by self.opening.entries c + n }
        ensures others { (c : ℕ) → 1 ≤ c → c ≤ 64 → own_of seat c ≡ None
            → entries_by (T.entries result) c ≡ entries_by self.opening.entries c }
    {
        let Seat {
            badge,
            caller: _,
            turns: _,
            seen: _,
            own: _,
        } = seat;
        let table_seat: TableSeat<T> = badge.into_seat();
        let TurnLock {
            table,
            parked: _,
            alloc: _,
        } = self;
        let mut closed = table.close_with(table_seat);
        let slot = closed.take(0);
        closed.free();
        let Some(value) = slot else { unreachable!() };
        value
    }

    // Waits until the ticket is served.
    fn wait<R: Wait>(&self, rt: &R, table_seat: &mut TableSeat<T>, ticket: u64)
        requires lock { table_seat.old.table_id ≡ self.now.id }
        requires waits { table_seat.old.me.0.stage ≡ Waiting ticket }
        ensures same { (table_seat.new.table_id ≡ table_seat.old.table_id) × (table_seat.new.id ≡ table_seat.old.id) }
        ensures called { table_seat.new.me ≡ (at_stage table_seat.old.me.0 (Called ticket []), table_seat.old.me.1) }
    {
        for look in 0..LOOKS + MORE_LOOKS {
            let Some(serving) = self.served_before(table_seat, ticket) else {
                return;
            };
            if look < LOOKS {
                spin_loop();
            } else if ticket.saturating_sub(serving) <= FEW {
                yield_now();
            } else {
                break;
            }
        }
        self.parked.fetch_add(1, Ordering::SeqCst);
        self.wait_parked(rt, table_seat, ticket);
        self.parked.fetch_sub(1, Ordering::SeqCst);
    }

    // Parks until the ticket is served.
    fn wait_parked<R: Wait>(&self, rt: &R, table_seat: &mut TableSeat<T>, ticket: u64)
        requires lock { table_seat.old.table_id ≡ self.now.id }
        requires waits { table_seat.old.me.0.stage ≡ Waiting ticket }
        ensures same { (table_seat.new.table_id ≡ table_seat.old.table_id) × (table_seat.new.id ≡ table_seat.old.id) }
        ensures called { table_seat.new.me ≡ (at_stage table_seat.old.me.0 (Called ticket []), table_seat.old.me.1) }
    {
        for _ in rt.forever() {
            let Some(serving) = self.served_before(table_seat, ticket) else {
                return;
            };
            self.table
                .shared
                .park(rt, 1, (serving & 0xffff_ffff) as u32);
        }
        unreachable!()
    }

    // The ticket that is served, or `None` if it is the seat's.
    fn served_before(&self, table_seat: &mut TableSeat<T>, ticket: u64) -> Option<u64>
        requires lock { table_seat.old.table_id ≡ self.now.id }
        requires waits { table_seat.old.me.0.stage ≡ Waiting ticket }
        ensures same { (table_seat.new.table_id ≡ table_seat.old.table_id) × (table_seat.new.id ≡ table_seat.old.id) }
        ensures called { IfNone result (table_seat.new.me
            ≡ (at_stage table_seat.old.me.0 (Called ticket []), table_seat.old.me.1)) }
        ensures waits { IfSome result (λ _. table_seat.new.me ≡ table_seat.old.me) }
    {
        let serving = self.table.shared.load::<LoadServing>(table_seat, 1);
        if serving == ticket {
            None
        } else {
            Some(serving)
        }
    }

    // Reads all counts.
    fn read_counts(&self, table_seat: &mut TableSeat<T>, ticket: u64)
        requires lock { table_seat.old.table_id ≡ self.now.id }
        requires called { table_seat.old.me.0.stage ≡ Called ticket [] }
        ensures same { (table_seat.new.table_id ≡ table_seat.old.table_id) × (table_seat.new.id ≡ table_seat.old.id) }
        ensures counted { (read : List ℕ) × (length read ≡ 64)
            × (table_seat.new.me ≡ (at_stage table_seat.old.me.0 (Called ticket read), table_seat.old.me.1)) }
    {
        for i in 0..64 {
            self.table.shared.load::<LoadCount>(table_seat, i + 2);
        }
    }
}

// One slot with the value, for a table.
fn one_slot<T>(alloc: Global, value: T) -> Result<Vec<Option<T>>, NoRoom<T>>
    ensures ok { IfOk result (λ slots. slots.items ≡ Some value ∷ []) }
    ensures refused { IfErr result (λ r. r.value ≡ value) }
{
    let mut slots = Vec::new(alloc);
    if let Err(AllocFailed { value }) = slots.push(Some(value)) {
        slots.destroy_empty();
        let Some(value) = value else { unreachable!() };
        return Err(NoRoom { value });
    }
    Ok(slots)
}

// The value in a slot that the table gave back.
fn value_in<T>(mut slots: Vec<Option<T>>) -> T
    requires { (value : T) × (slots.items ≡ Some value ∷ []) }
    ensures { slots.items ≡ Some result ∷ [] }
{
    let Some(slot) = slots.pop() else {
        unreachable!()
    };
    slots.destroy_empty();
    let Some(value) = slot else { unreachable!() };
    value
}

// The own counts of a seat that speaks for this caller alone, who committed nothing yet.
fn only_for(caller: u32) -> [Option<u64>; 64]
    requires { (1 ≤ caller) × (caller ≤ 64) }
    ensures { result ≡ only (caller - 1) }
{
    let mut own = [None; 64];
    own[caller as usize - 1] = Some(0);
    own
}

// Fills in the counts of another seat where there are none yet.
fn merge(own: &mut [Option<u64>; 64], other: &[Option<u64>; 64])
    ensures { own.new ≡ merged own.old other.now }
{
    for i in 0..64 {
        own[i] = own[i].or(other[i]);
    }
}
