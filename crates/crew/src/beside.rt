//! The part of a run that several workers share once they take no more jobs. Worker 2 runs the quanta in the book's own
//! world. Worker 1 hands the groups over beside it, so that the run does not wait for the hand. Other workers make the
//! draws of coming quanta. With two workers, worker 1 makes draws while no group waits.

ghost use Rattle.std.specs.Prelude.{◌≡◌, ◌+◌, ◌<◌, ◌≤◌, ℕ, IfOk, length};
ghost use Rattle.std.specs.Thread.{IsSync};
ghost use Rattle.tierra_model.specs.Setups.{SetupFields};
ghost use Rattle.crew.specs.Beside.{IsOfRun, IsThereOf};
ghost use Rattle.crew.specs.Hand.{AreNext, IsUnhalted, WasLed};

use crate::alone::work_some;
use crate::exchange::Exchange;
use crate::hand::{Hand, Next};
use crate::handing::new_groups;
use crate::shelf::{BLOCK_QUANTA, Duties, Task};
use crate::trial::Plan;
use commit_book::Book;
use mutation_streams::{Draws, Tape, TapeBlock};
use std::alloc::Global;
use std::marker::{Brand, PhantomData};
use std::sync::Wait;
use std::thread::{Threads, join_mut};
use tierra_model::{Groups, OutOfMemory, Settings};

/// How many quanta worker 2 runs before it looks again for draws that others make.
const SHORT_STRETCH: u64 = 64;

/// How many it runs before it looks whether the hand has halted, if nobody makes draws.
const LONG_STRETCH: u64 = 4096;

/// Names a run in types.
pub(crate) trait Course {
    ghost setup: { SetupFields };

    ghost quanta: { ℕ };
}

impl Course for Brand {
    ghost use Rattle.std.specs.Prelude.{[]};
    ghost use Rattle.tierra_model.specs.Setups.{default_settings};

    ghost setup = { record { settings = default_settings; creatures = [] } };

    ghost quanta = { 0 };
}

/// The groups of a run's genebank from place `from` on, on their way to the hand.
#[derive(Drop)]
pub(crate) struct Parcel<C: Course> {
    from: u64,
    groups: Groups,
    course: PhantomData<C>,
    ghost next: { AreNext C.setup C.quanta from groups },
}

// The draws of the next quanta, as far as they were made ahead.
#[derive(Drop)]
struct Page {
    block: Option<TapeBlock>,
    // Whether others make draws.
    is_drawn: bool,
}

impl Tape for Page {
    fn draws(&mut self, settings: &Settings, q: u64) -> Draws {
        if let Some(block) = &mut self.block {
            if let Some(draws) = block.draws(settings, q) {
                return draws;
            }
        }
        Draws::new(settings, q)
    }
}

impl Page {
    // How many quanta from `at` on it has.
    fn left(&self, at: u64) -> u64 {
        self.block
            .as_ref()
            .map_or(0, |block| block.end().saturating_sub(at))
    }

    // How many quanta from `at` on are run before the next look for draws.
    fn stretch(&self, at: u64) -> u64
        ensures { 0 < result }
    {
        match self.left(at) {
            0 if self.is_drawn => SHORT_STRETCH,
            0 => LONG_STRETCH,
            left => left,
        }
    }
}

// ---- worker 2

// Takes the book, and runs its quanta, unless worker 1 does not wait any more.
fn run_quanta<R: Wait, C: Course>(
    rt: &R,
    alloc: Global,
    exchange: &Exchange<Parcel<C>>,
    book: &mut Option<Book>,
    from: u64,
    is_drawn: bool,
) -> Result<Book, OutOfMemory>
    requires { IsThereOf C.setup C.quanta book.old }
    ensures { IfOk result (IsOfRun C.setup C.quanta) }
{
    let Some(book) = book.take() else {
        unreachable!()
    };
    if !exchange.begin(rt) {
        return Ok(book);
    }
    let mut page = Page {
        block: None,
        is_drawn,
    };
    let ran = run_while_taken(rt, alloc, exchange, book, from, &mut page);
    exchange.end(rt);
    ran
}

// Runs quanta until all are committed or the hand halts, and puts the groups into the exchange as they come.
fn run_while_taken<R: Wait, C: Course>(
    rt: &R,
    alloc: Global,
    exchange: &Exchange<Parcel<C>>,
    book: Book,
    from: u64,
    page: &mut Page,
) -> Result<Book, OutOfMemory>
    requires { IsOfRun C.setup C.quanta book }
    ensures { IfOk result (IsOfRun C.setup C.quanta) }
{
    let mut book = book;
    let mut from = from;
    'stretches: while book.committed() < book.quanta() {
        if !turn(rt, exchange, page, book.committed() + 1) {
            return Ok(book);
        }
        let kept = book.world().kept();
        book = run_stretch::<C>(alloc, book, page)?;
        if book.world().kept() > kept && !send(rt, alloc, exchange, &book, &mut from)? {
            return Ok(book);
        }
    }
    Ok(book)
}

// Takes the block that has the draws of quantum `at`, if the page has none for it. Answers whether the run is to go on.
fn turn<R: Wait, C: Course>(
    rt: &R,
    exchange: &Exchange<Parcel<C>>,
    page: &mut Page,
    at: u64,
) -> bool {
    if page.left(at) > 0 {
        return true;
    }
    let (goes_on, block) = exchange.go_on(rt, at);
    page.block = block;
    goes_on
}

// Runs the next quanta, of which one at least is left.
fn run_stretch<C: Course>(alloc: Global, book: Book, page: &mut Page) -> Result<Book, OutOfMemory>
    requires of { IsOfRun C.setup C.quanta book }
    requires left { book.committed < book.quanta }
    ensures of { IfOk result (IsOfRun C.setup C.quanta) }
    ensures more { IfOk result (λ b. book.committed < b.committed) }
    ensures few { IfOk result (λ b. b.committed ≤ b.quanta) }
{
    let most = page.stretch(book.committed() + 1);
    work_some(alloc, book, page, most)
}

// Puts the groups from place `from` on into the exchange. Answers whether the hand will get them.
fn send<R: Wait, C: Course>(
    rt: &R,
    alloc: Global,
    exchange: &Exchange<Parcel<C>>,
    book: &Book,
    from: &mut u64,
) -> Result<bool, OutOfMemory>
    requires { IsOfRun C.setup C.quanta book.now }
{
    let groups = new_groups(alloc, book, *from)?;
    let next = from.saturating_add(groups.items.len() as u64);
    let parcel = Parcel {
        from: *from,
        groups,
        course: PhantomData,
    };
    *from = next;
    Ok(exchange.put(rt, parcel))
}

// ---- the others

// Makes the draws of a block, as far as there are quanta, and if there is memory.
fn draw<R: Wait, C: Course>(
    rt: &R,
    alloc: Global,
    exchange: &Exchange<Parcel<C>>,
    plan: &Plan,
    first: u64,
) {
    let left = (plan.quanta + 1).saturating_sub(first);
    let count = left.min(BLOCK_QUANTA) as u32;
    if count == 0 {
        return;
    }
    if let Ok(block) = TapeBlock::write(alloc, &plan.settings, first, count, plan.reach) {
        exchange.add(rt, block);
    }
}

// Makes draws until no more quanta are run.
fn draw_ahead<R: Wait, C: Course>(
    rt: &R,
    alloc: Global,
    exchange: &Exchange<Parcel<C>>,
    plan: &Plan,
) {
    let duties = Duties {
        hands: false,
        draws: true,
    };
    for _ in rt.forever() {
        match exchange.task(rt, duties) {
            Task::Draw(first) => draw(rt, alloc, exchange, plan, first),
            Task::Hand(_) | Task::End => return,
        }
    }
}

// What worker 1 does: hands the groups over as they come. In between it makes draws, where the plan says so.
fn lead_beside<R: Wait, C: Course, H: Hand>(
    rt: &R,
    alloc: Global,
    exchange: &Exchange<Parcel<C>>,
    plan: &Plan,
    hand: &mut H,
) -> Next
    requires hand { IsUnhalted (C.setup, C.quanta) (H.setup hand.old) (H.quanta hand.old)
        (H.done hand.old) (H.halts hand.old) (H.can_put hand.old) }
    ensures hand { WasLed result (H.setup hand.old) (H.setup hand.new) (H.quanta hand.old) (H.quanta hand.new)
        (H.done hand.new) (H.halts hand.new) (H.can_put hand.new) (H.goes_to hand.old hand.new) }
{
    let duties = Duties {
        hands: true,
        draws: plan.first_draws,
    };
    exchange.await_begin(rt);
    for _ in rt.forever() {
        match exchange.task(rt, duties) {
            Task::Hand(parcel) => {
                if take(hand, parcel) == Next::Halt {
                    exchange.halt(rt);
                    return Next::Halt;
                }
            }
            Task::Draw(first) => draw(rt, alloc, exchange, plan, first),
            Task::End => return Next::Go,
        }
    }
    Next::Go
}

// Hands a parcel over, if the hand has all groups before it.
fn take<C: Course, H: Hand>(hand: &mut H, parcel: Parcel<C>) -> Next
    requires hand { IsUnhalted (C.setup, C.quanta) (H.setup hand.old) (H.quanta hand.old)
        (H.done hand.old) (H.halts hand.old) (H.can_put hand.old) }
    ensures hand { WasLed result (H.setup hand.old) (H.setup hand.new) (H.quanta hand.old) (H.quanta hand.new)
        (H.done hand.new) (H.halts hand.new) (H.can_put hand.new) (H.goes_to hand.old hand.new) }
{
    if parcel.from != hand.done() {
        return Next::Go;
    }
    let Parcel { groups, .. } = parcel;
    hand.put(groups)
}

// Worker 1, and this many workers that only make draws.
fn lead_and_draw<R: Threads + Wait + Sync, C: Course + Send, H: Hand>(
    rt: &R,
    alloc: Global,
    exchange: &Exchange<Parcel<C>>,
    plan: &Plan,
    drawers: u32,
    hand: &mut H,
) -> Next
    requires hand { IsUnhalted (C.setup, C.quanta) (H.setup hand.old) (H.quanta hand.old)
        (H.done hand.old) (H.halts hand.old) (H.can_put hand.old) }
    ensures hand { WasLed result (H.setup hand.old) (H.setup hand.new) (H.quanta hand.old) (H.quanta hand.new)
        (H.done hand.new) (H.halts hand.new) (H.can_put hand.new) (H.goes_to hand.old hand.new) }
{
    if drawers == 0 {
        return lead_beside(rt, alloc, exchange, plan, hand);
    }
    let (_drawn, next) = join_mut(
        rt,
        &mut || draw_ahead(rt, alloc, exchange, plan),
        &mut || -> Next
            requires { IsSync R.row × (1 ≤ drawers) × IsUnhalted (C.setup, C.quanta) (H.setup hand.now)
                (H.quanta hand.now) (H.done hand.now) (H.halts hand.now) (H.can_put hand.now) }
            ensures { WasLed result (H.setup hand.entry.now) (H.setup hand.exit.now)
                (H.quanta hand.entry.now) (H.quanta hand.exit.now) (H.done hand.exit.now) (H.halts hand.exit.now)
                (H.can_put hand.exit.now) (H.goes_to hand.entry.now hand.exit.now) }
        { lead_and_draw(rt, alloc, exchange, plan, drawers - 1, hand) },
    );
    next
}

/// What the workers leave: the book, if there was memory for its quanta, and whether the hand halted.
#[derive(Drop)]
pub(crate) struct Left {
    pub book: Result<Book, OutOfMemory>,
    pub next: Next,
}

/// Runs quanta of a book with several workers, until all are committed or the hand halts. If no thread or no memory can
/// be had for that, fewer quanta are run, or none.
pub(crate) fn run_beside<C: Course + Send, R: Threads + Wait + Sync, H: Hand>(
    rt: &R,
    alloc: Global,
    book: Book,
    workers: u32,
    hand: &mut H,
) -> Left
    requires course { IsOfRun C.setup C.quanta book }
    requires hand { IsUnhalted (C.setup, C.quanta) (H.setup hand.old) (H.quanta hand.old)
        (H.done hand.old) (H.halts hand.old) (H.can_put hand.old) }
    ensures book { IfOk result.book (IsOfRun C.setup C.quanta) }
    ensures hand { WasLed result.next (H.setup hand.old) (H.setup hand.new) (H.quanta hand.old) (H.quanta hand.new)
        (H.done hand.new) (H.halts hand.new) (H.can_put hand.new) (H.goes_to hand.old hand.new) }
{
    let plan = Plan::of(&book, workers);
    let is_drawn = plan.first_draws || plan.drawers > 0;
    let Ok(exchange) = Exchange::<Parcel<C>>::new(alloc, book.committed() + 1, is_drawn) else {
        return Left {
            book: Ok(book),
            next: Next::Go,
        };
    };
    let from = hand.done();
    let mut book = Some(book);
    let (book, next) = join_mut(
        rt,
        &mut || -> Result<Book, OutOfMemory>
            requires { IsSync R.row × IsThereOf C.setup C.quanta book }
            ensures { IfOk result (IsOfRun C.setup C.quanta) }
        { run_quanta(rt, alloc, &exchange, &mut book, from, is_drawn) },
        &mut || -> Next
            requires { IsSync R.row × IsUnhalted (C.setup, C.quanta) (H.setup hand.now) (H.quanta hand.now)
                (H.done hand.now) (H.halts hand.now) (H.can_put hand.now) }
            ensures { WasLed result (H.setup hand.entry.now) (H.setup hand.exit.now)
                (H.quanta hand.entry.now) (H.quanta hand.exit.now) (H.done hand.exit.now) (H.halts hand.exit.now)
                (H.can_put hand.exit.now) (H.goes_to hand.entry.now hand.exit.now) }
        { lead_and_draw(rt, alloc, &exchange, &plan, plan.drawers, hand) },
    );
    Left { book, next }
}
