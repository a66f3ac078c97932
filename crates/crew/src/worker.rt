//! A worker: it takes turns at the book, and runs jobs and an errand between them.

ghost use Rattle.std.specs.Prelude.{◌≡◌, ◌+◌, ◌*◌, ◌<◌, ◌≤◌, ◌^◌, IsTrue};
ghost use Rattle.tierra_model.specs.declared.limits.TheConstants.{MOST_QUANTA};
ghost use Rattle.crew.specs.Hand.{OnGo};
ghost use Rattle.crew.specs.Works.{HasWorked};

use crate::errand::{Errand, ErrandEnd, NoErrand};
use crate::gate::Gate;
use crate::hand::Next;
use crate::trial::Stay;
use crate::turns::{Served, finding_of, serve};
use commit_book::Book;
use quantum_run::{Finding, Workspace};
use std::alloc::Global;
use std::sync::Wait;
use turn_lock::{Seat, TurnLock};

/// What all workers at one book share.
#[derive(Drop)]
pub(crate) struct Crew<'c, R, G> {
    pub rt: &'c R,
    pub alloc: Global,
    pub lock: &'c TurnLock<Book>,
    pub gate: &'c G,
    pub stay: Stay,
}

// What a turn gave.
#[derive(Drop)]
struct Turned {
    seat: Seat,
    served: Served,
    quanta: u64,
    outcome: ErrandEnd,
}

// Takes a turn, in which a finding is offered and a job claimed, and then runs the errand.
fn turn<R: Wait, G, E: Errand>(
    crew: &Crew<'_, R, G>,
    seat: Seat,
    finding: Option<Finding>,
    errand: &mut E,
) -> Turned
    requires lock { seat.lock ≡ crew.now.lock.now }
    requires room { seat.turns < 2 ^ 40 }
    requires ready { E.is_ready crew.now.lock.now.opening.setup errand.old }
    ensures worked { HasWorked 1 seat result.seat }
    ensures quanta { result.quanta ≡ crew.now.lock.now.opening.setup.1 }
    ensures few { result.quanta ≤ MOST_QUANTA }
    ensures went { E.went result.outcome.next errand.old errand.new }
    ensures ready { OnGo result.outcome.next (E.is_ready crew.now.lock.now.opening.setup errand.new) }

    // Of what was committed by then, nothing waits for the next turn.
    ensures done { IsTrue result.outcome.is_loaded
        → OnGo result.outcome.next (E.has_done result.seat.seen errand.new) }
{
    let caller = seat.caller();
    let (turn, mut book) = crew.lock.take(crew.rt, seat);
    let quanta = book.quanta();
    let served = serve(crew.alloc, &mut book, caller, crew.stay, finding);
    let load = errand.load(crew.alloc, &book);
    let seat = crew.lock.give(turn, book);
    let is_loaded = load.is_ok();
    let next = match load {
        Ok(load) => errand.run(load),
        Err(_) => Next::Go,
    };
    Turned {
        seat,
        served,
        quanta,
        outcome: ErrandEnd { next, is_loaded },
    }
}

// Stops the book.
fn stop<R: Wait, G>(crew: &Crew<'_, R, G>, seat: Seat) -> Seat
    requires lock { seat.lock ≡ crew.now.lock.now }
    requires room { seat.turns < 2 ^ 40 }
    ensures { HasWorked 1 seat result }
{
    let (turn, mut book) = crew.lock.take(crew.rt, seat);
    book.stop();
    crew.lock.give(turn, book)
}

/// What a worker leaves: its seat, and what came of its errand after its last turn.
#[derive(Drop)]
pub(crate) struct Worked {
    pub seat: Seat,
    pub outcome: ErrandEnd,
}

/// Takes turns, and runs the jobs that it gets in them, until it gets none or does not stay. The errand is run after
/// each turn. Where it halts, the book is stopped.
pub(crate) fn work_with<R: Wait, G: Gate, E: Errand>(
    crew: &Crew<'_, R, G>,
    seat: Seat,
    errand: &mut E,
) -> Worked
    requires lock { seat.lock ≡ crew.now.lock.now }
    requires room { seat.turns < 2 ^ 39 }
    requires ready { E.is_ready crew.now.lock.now.opening.setup errand.old }
    ensures worked { HasWorked (2 * crew.now.lock.now.opening.setup.1 + 2) seat result.seat }
    ensures few { crew.now.lock.now.opening.setup.1 ≤ MOST_QUANTA }
    ensures went { E.went result.outcome.next errand.old errand.new }
    ensures done { IsTrue result.outcome.is_loaded
        → OnGo result.outcome.next (E.has_done result.seat.seen errand.new) }
{
    let worker = seat.caller();
    let mut workspace = Workspace::new(crew.alloc);
    let mut turned = turn(crew, seat, None, errand);
    for _ in 0..2 * turned.quanta + 1 {
        let Turned {
            seat,
            served,
            outcome,
            ..
        } = turned;
        if outcome.next == Next::Halt {
            let seat = stop(crew, seat);
            return Worked { seat, outcome };
        }
        let Some(job) = served.job else {
            return Worked { seat, outcome };
        };
        let quantum = job.quantum();
        crew.gate.before(worker, quantum);
        let finding = finding_of(&mut workspace, job);
        turned = turn(crew, seat, finding, errand);
        if turned.served.offered {
            crew.gate.after(worker, quantum);
        }
    }
    Worked {
        seat: turned.seat,
        outcome: turned.outcome,
    }
}

/// Takes turns, and runs the jobs that it gets in them, until it gets none.
pub fn work<R: Wait, G: Gate>(
    rt: &R,
    alloc: Global,
    lock: &TurnLock<Book>,
    seat: Seat,
    gate: &G,
) -> Seat
    requires lock { seat.lock ≡ lock.now }
    requires room { seat.turns < 2 ^ 39 }
    ensures worked { HasWorked (2 * lock.now.opening.setup.1 + 2) seat result }
{
    let stay = Stay::ToTheEnd;
    let crew = Crew {
        rt,
        alloc,
        lock,
        gate,
        stay,
    };
    work_with(&crew, seat, &mut NoErrand).seat
}
