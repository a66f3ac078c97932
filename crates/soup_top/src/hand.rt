//! The hand of a run: takes the run's groups to its bank as they come, and tells their lines.

ghost use Rattle.std.specs.Prelude.{◌≡◌, ◌+◌, ◌≤◌, IfErr, None, OnOk, Some, length, slice_get};
ghost use Rattle.crew.specs.Hand.{AreNext, OnGo, OnHalt};
ghost use Rattle.crew.specs.Ran.{HaltsAsIn, IfEnded};
ghost use Rattle.soup_top.specs.Handing.{GoesOn, IsOnTheWay, StopsAt, groups_of, number_of_stops};
ghost use Rattle.tierra_model.specs.declared.limits.TheConstants.{MOST_WORKERS};

use crate::keeping::take_group;
use crate::plan::Plan;
use crate::stop::RunStop;
use bank_journal::Bank;
use commit_book::Book;
use crew::{Gate, Hand, Next, Ran, run_crew};
use desk_io::Desk;
use std::alloc::Global;
use std::snapshot::Snapshot;
use std::sync::Wait;
use std::thread::Threads;
use tierra_model::{Group, Groups};

/// What a run began with, which only contracts see: its plan, and its desk and bank as they were then.
#[derive(Drop)]
pub(crate) struct Start<D> {
    pub plan: Snapshot<Plan>,
    pub desk: Snapshot<D>,
    pub bank: Snapshot<Bank>,
}

/// How far a run's hand came.
#[derive(Drop)]
pub(crate) struct Keeper {
    // None once taking a group has failed.
    pub bank: Option<Bank>,
    // How many groups were taken.
    pub done: usize,
    pub stopped: Option<RunStop>,
}

// Takes one more group.
fn keep_one<D: Desk>(
    alloc: Global,
    start: &Start<D>,
    desk: &mut D,
    keeper: &mut Keeper,
    group: Group,
) -> Result<(), RunStop>
    requires unstopped { keeper.old.stopped ≡ None }
    requires way { GoesOn D.state start.now desk.old keeper.old }
    requires next { slice_get (groups_of start.now) keeper.old.done ≡ Some group }
    ensures unstopped { keeper.new.stopped ≡ None }
    ensures done { OnOk result (keeper.new.done ≡ keeper.old.done + 1) }
    ensures way { OnOk result (GoesOn D.state start.now desk.new keeper.new) }
    ensures stopped { IfErr result (StopsAt D.state start.now desk.new) }
{
    let Some(bank) = keeper.bank.take() else {
        unreachable!()
    };
    let number = keeper.done;
    let bank = take_group(alloc, desk, bank, number, group)?;
    keeper.bank = Some(bank);
    keeper.done = number + 1;
    Ok(())
}

// Takes the next groups, and tells the lines of each.
fn keep_next<D: Desk>(
    alloc: Global,
    start: &Start<D>,
    desk: &mut D,
    keeper: &mut Keeper,
    groups: Groups,
) -> Next
    requires unstopped { keeper.old.stopped ≡ None }
    requires way { GoesOn D.state start.now desk.old keeper.old }
    requires next { AreNext start.now.plan.value.setup start.now.plan.value.quanta keeper.old.done groups }
    ensures go { OnGo result ((keeper.new.done ≡ keeper.old.done + length groups) × (keeper.new.stopped ≡ None)) }
    ensures halt { OnHalt result (number_of_stops keeper.new.stopped ≡ 1) }
    ensures way { IsOnTheWay D.state start.now desk.new keeper.new }
{
    for group in groups.items.into_iter() {
        if let Err(cause) = keep_one(alloc, start, desk, keeper, group) {
            keeper.stopped = Some(cause);
            return Next::Halt;
        }
    }
    Next::Go
}

/// The hand of a run, on its desk.
#[derive(Drop)]
struct RunHand<'a, 'b, 'c, D> {
    alloc: Global,
    start: &'c Start<D>,
    desk: &'a mut D,
    keeper: &'b mut Keeper,
}

impl<D: Desk> Hand for RunHand<'_, '_, '_, D> {
    ghost use Rattle.std.specs.Prelude.{◌≡◌};
    ghost use Rattle.std.proofs.Common.{refl, ◌∙◌};
    ghost use Rattle.soup_top.specs.Handing.{IsOnTheWay, number_of_stops};

    ghost setup = { λ h. h.start.now.plan.value.setup };

    ghost quanta = { λ h. h.start.now.plan.value.quanta };

    ghost done = { λ h. h.keeper.now.done };

    ghost halts = { λ h. number_of_stops h.keeper.now.stopped };

    ghost can_put = { λ h. IsOnTheWay D.state h.start.now h.desk.now h.keeper.now };

    // Both have the same desk, keeper and start. Where the first is on its way, the second is too.
    ghost goes_to = { λ a b. (b.desk.ghost_name ≡ a.desk.ghost_name) × (b.keeper.ghost_name ≡ a.keeper.ghost_name)
        × (b.start.now ≡ a.start.now)
        × (IsOnTheWay D.state a.start.now a.desk.now a.keeper.now
        → IsOnTheWay D.state b.start.now b.desk.now b.keeper.now) };

    fn done(&self) -> u64 {
        self.keeper.done as u64
    }

    fn put(&mut self, groups: Groups) -> Next {
        keep_next(self.alloc, self.start, self.desk, self.keeper, groups)
    }

    ghost stays = { λ h. (refl, refl, refl, λ w. w) };

    ghost goes_on = { λ a b c p q. (q.0 ∙ p.0, q.1 ∙ p.1, q.2 ∙ p.2, λ w. q.3 (p.3 w)) };
}

/// Runs the book with a crew, and takes its groups to the bank as they come.
pub(crate) fn run_book<R: Threads + Wait + Sync, G: Gate + Sync, D: Desk>(
    rt: &R,
    alloc: Global,
    gate: &G,
    start: &Start<D>,
    desk: &mut D,
    keeper: &mut Keeper,
    book: Book,
    workers: u32,
) -> Ran
    requires workers { (1 ≤ workers) × (workers ≤ MOST_WORKERS) }
    requires setup { start.now.plan.value.setup ≡ book.setup }
    requires quanta { start.now.plan.value.quanta ≡ book.quanta }
    requires unstopped { keeper.old.stopped ≡ None }
    requires begun { keeper.old.done ≡ 0 }
    requires way { GoesOn D.state start.now desk.old keeper.old }
    ensures way { IsOnTheWay D.state start.now desk.new keeper.new }
    ensures ended { IfEnded result (λ b. (b.setup ≡ start.now.plan.value.setup)
        × (b.quanta ≡ start.now.plan.value.quanta) × (b.committed ≡ b.quanta)) }
    ensures all { IfEnded result (λ b. keeper.new.done ≡ length (groups_of start.now)) }
    ensures halts { HaltsAsIn result (number_of_stops keeper.new.stopped) }
{
    let mut hand = RunHand {
        alloc,
        start,
        desk,
        keeper,
    };
    run_crew(rt, alloc, book, workers, gate, &mut hand)
}
