//! Hands that count the groups, and runs with them.

ghost use Rattle.std.specs.Prelude.{◌≡◌, ◌≤◌, IfOk};

use commit_book::Book;
use crew::{Gate, Hand, Next, Ran, run_crew};
use std::alloc::Global;
use std::snapshot::Snapshot;
use std::sync::Wait;
use std::sync::atomic::{AtomicU64, Ordering};
use std::test::Fail;
use std::thread::Threads;
use test_soups::setup_of;
use tierra_model::{Groups, How, OutOfMemory, Setup};

/// Eight creatures of one genotype, which is saved at the start. Each loops in its own last two cells.
pub(crate) const LOOPS: &str = r#"
soup_size = 1000
slice_size = 3000
creature = [
    { at = 0, code = 'adrf nop_0 zero nop_1 push_ax ret' },
    { at = 100, code = 'adrf nop_0 zero nop_1 push_ax ret' },
    { at = 200, code = 'adrf nop_0 zero nop_1 push_ax ret' },
    { at = 300, code = 'adrf nop_0 zero nop_1 push_ax ret' },
    { at = 400, code = 'adrf nop_0 zero nop_1 push_ax ret' },
    { at = 500, code = 'adrf nop_0 zero nop_1 push_ax ret' },
    { at = 600, code = 'adrf nop_0 zero nop_1 push_ax ret' },
    { at = 700, code = 'adrf nop_0 zero nop_1 push_ax ret' },
]
"#;

/// Counts the groups, or halts at the first ones where `is_to_halt`.
#[derive(Drop)]
pub(crate) struct CountHand<'a> {
    setup: Snapshot<Setup>,
    quanta: u64,
    pub(crate) done: u64,
    pub(crate) halts: u64,
    /// The calls of `put` with some group.
    pub(crate) puts: u64,
    is_to_halt: bool,
    // The groups, or the halts where `is_to_halt`, for a gate to see.
    shown: &'a AtomicU64,
}

impl<'a> Hand for CountHand<'a> {
    ghost setup = { λ h. h.setup.value };

    ghost quanta = { λ h. h.quanta };

    ghost done = { λ h. h.done };

    ghost halts = { λ h. h.halts };

    ghost can_put = { λ h. Unit {0} };

    ghost goes_to = { λ a b. Unit {0} };

    fn done(&self) -> u64 {
        self.done
    }

    fn put(&mut self, groups: Groups) -> Next {
        let more = groups.items.len() as u64;
        if more == 0 {
            return Next::Go;
        }
        self.puts = self.puts.saturating_add(1);
        match self.done.checked_add(more) {
            Some(done) if !self.is_to_halt => {
                self.done = done;
                self.shown.store(done, Ordering::SeqCst);
                Next::Go
            }
            _ => {
                self.halts = 1;
                self.shown.store(1, Ordering::SeqCst);
                Next::Halt
            }
        }
    }

    ghost stays = { λ h. tt };

    ghost goes_on = { λ a b c p q. tt };
}

/// A book of a soup file, and a hand for it.
fn begin<'a>(
    alloc: Global,
    file: &str,
    quanta: u64,
    workers: u32,
    is_to_halt: bool,
    shown: &'a AtomicU64,
) -> Result<(Book, CountHand<'a>), Fail>
    requires quanta { (1 ≤ quanta) × (quanta ≤ 4000000) }
    requires workers { (1 ≤ workers) × (workers ≤ 64) }
    ensures book { IfOk result (λ r. (r.0.committed ≡ 0) × (r.1.setup.value ≡ r.0.setup) × (r.1.quanta ≡ r.0.quanta)) }
    ensures hand { IfOk result (λ r. (r.1.done ≡ 0) × (r.1.halts ≡ 0)) }
{
    let setup = setup_of(alloc, file)?;
    let hand = CountHand {
        setup: Snapshot::of(&setup),
        quanta,
        done: 0,
        halts: 0,
        puts: 0,
        is_to_halt,
        shown,
    };
    let book = Book::begin(alloc, setup, quanta, 2 * workers)?;
    Ok((book, hand))
}

/// How many groups the hand has, how often `put` came with some group, and how often the hand halted.
pub(crate) type Counts = [u64; 3];

/// Runs a soup file with a hand.
pub(crate) fn run<R: Threads + Wait + Sync, G: Gate + Sync>(
    rt: &R,
    alloc: Global,
    file: &str,
    quanta: u64,
    workers: u32,
    is_to_halt: bool,
    gate: &G,
    shown: &AtomicU64,
) -> Result<(Ran, Counts), Fail>
    requires quanta { (1 ≤ quanta) × (quanta ≤ 4000000) }
    requires workers { (1 ≤ workers) × (workers ≤ 64) }
{
    let (book, mut hand) = begin(alloc, file, quanta, workers, is_to_halt, shown)?;
    let ran = run_crew(rt, alloc, book, workers, gate, &mut hand);
    Ok((ran, [hand.done, hand.puts, hand.halts]))
}

/// Runs a soup file to its end, with a hand that does not halt.
pub(crate) fn run_to_end<R: Threads + Wait + Sync, G: Gate + Sync>(
    rt: &R,
    alloc: Global,
    file: &str,
    quanta: u64,
    workers: u32,
    gate: &G,
    shown: &AtomicU64,
) -> Result<(Book, Counts), Fail>
    requires quanta { (1 ≤ quanta) × (quanta ≤ 4000000) }
    requires workers { (1 ≤ workers) × (workers ≤ 64) }
{
    let (ran, counts) = run(rt, alloc, file, quanta, workers, false, gate, shown)?;
    match ran {
        Ran::Ended(book) => Ok((book, counts)),
        Ran::Halted(_) | Ran::OutOfMemory => Err(Fail::from("the run did not end")),
    }
}

/// How a quantum was committed: by whom, and how.
pub(crate) type Line = (u64, How);

/// How the quanta of a run were committed.
pub(crate) fn history_of<R: Threads + Wait + Sync, G: Gate + Sync>(
    rt: &R,
    alloc: Global,
    file: &str,
    quanta: u64,
    workers: u32,
    gate: &G,
) -> Result<Vec<Line>, Fail>
    requires quanta { (1 ≤ quanta) × (quanta ≤ 4000000) }
    requires workers { (1 ≤ workers) × (workers ≤ 64) }
{
    let shown = AtomicU64::new(0);
    let (book, _counts) = run_to_end(rt, alloc, file, quanta, workers, gate, &shown)?;
    Ok(lines_of(alloc, &book)?)
}

fn lines_of(alloc: Global, book: &Book) -> Result<Vec<Line>, OutOfMemory> {
    let history = book.history();
    let mut lines = Vec::new(alloc);
    for place in 0..history.len() {
        let entry = history.at(place);
        lines.push((u64::from(entry.by), entry.how))?;
    }
    Ok(lines)
}
