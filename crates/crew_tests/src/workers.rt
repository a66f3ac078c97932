//! What the hand of a run gets, and when.

ghost use Rattle.std.specs.Prelude.{◌≤◌};

use crate::gates::{CountGate, HaltGate, TakenGate};
use crate::hands::{Counts, LOOPS, run, run_to_end};
use commit_book::{Book, Claim};
use crew::{Gate, Ran};
use std::alloc::Global;
use std::process::Abort;
use std::sync::Wait;
use std::sync::atomic::AtomicU64;
use std::test::Fail;
use std::thread::Threads;
use test_soups::ancestor_file;
use tierra_model::OutOfMemory;

// The two creatures, each of a genotype that is saved at once.
const SAVED: &str = "soup_size = 100\nsave_at = 1\n[[creature]]\nat = 0\ncode = 'inc_b mov_iab'\n\
    [[creature]]\nat = 90\ncode = 'nop_1 nop_1 nop_1 nop_1 nop_1'\n";

// The quanta after the trial in which the book's world saved a genotype, and how many groups it has in all.
fn savings_of(alloc: Global, book: &Book) -> Result<(usize, usize), OutOfMemory> {
    let groups = book.groups_from(alloc, 0)?;
    let later = groups.items.iter().filter(|group| group.quantum > 256);
    Ok((later.count(), groups.items.len()))
}

// Runs a soup file to its end: the savings of its book, and what the hand counts.
fn handed_over<R: Threads + Wait + Sync, G: Gate + Sync>(
    rt: &R,
    alloc: Global,
    file: &str,
    quanta: u64,
    workers: u32,
    gate: &G,
    shown: &AtomicU64,
) -> Result<((usize, usize), Counts), Fail>
    requires quanta { (1 ≤ quanta) × (quanta ≤ 4000000) }
    requires workers { (1 ≤ workers) × (workers ≤ 64) }
{
    let (book, counts) = run_to_end(rt, alloc, file, quanta, workers, gate, shown)?;
    Ok((savings_of(alloc, &book)?, counts))
}

#[test]
fn each_group_is_handed_over(rt: HostRuntime) -> Result<(), Fail> {
    hand_over_all(&rt, rt.alloc(), 1)?;
    hand_over_all(&rt, rt.alloc(), 2)?;
    hand_over_all(&rt, rt.alloc(), 3)?;
    hand_over_all(&rt, rt.alloc(), 64)
}

fn hand_over_all<R: Threads + Wait + Sync + Abort>(
    rt: &R,
    alloc: Global,
    workers: u32,
) -> Result<(), Fail>
    requires { (1 ≤ workers) × (workers ≤ 64) }
{
    let shown = AtomicU64::new(0);
    let handed = handed_over(rt, alloc, SAVED, 200, workers, &CountGate::new(), &shown)?;
    assert_eq!(rt; handed, ((0, 1), [1, 1, 0]), "{workers} workers");
    Ok(())
}

// The ancestor breeds in quantum 34, and two genotypes are saved after the trial.
#[test]
fn each_group_is_handed_over_ahead_of_the_next_quantum(rt: HostRuntime) -> Result<(), Fail> {
    let file = ancestor_file(rt.alloc(), "copy_rate = 150\n")?;
    let gate = TakenGate::new([34, 35]);
    let handed = handed_over(&rt, rt.alloc(), &file, 1100, 1, &gate, &gate.groups)?;
    assert_eq!(rt; (gate.noted(), handed), ([0, 1], ((2, 3), [3, 3, 0])));
    Ok(())
}

// After the jobs worker 1 hands each group over by itself, beside the worker that runs the quanta.
#[test]
fn each_group_is_handed_over_beside_the_run(rt: HostRuntime) -> Result<(), Fail> {
    let file = ancestor_file(rt.alloc(), "copy_rate = 150\n")?;
    hand_over_beside(&rt, rt.alloc(), &file, 2)?;
    hand_over_beside(&rt, rt.alloc(), &file, 3)?;
    hand_over_beside(&rt, rt.alloc(), &file, 64)
}

fn hand_over_beside<R: Threads + Wait + Sync + Abort>(
    rt: &R,
    alloc: Global,
    file: &str,
    workers: u32,
) -> Result<(), Fail>
    requires { (1 ≤ workers) × (workers ≤ 64) }
{
    let shown = AtomicU64::new(0);
    let handed = handed_over(rt, alloc, file, 1100, workers, &CountGate::new(), &shown)?;
    assert_eq!(rt; handed, ((2, 3), [3, 3, 0]), "{workers} workers");
    Ok(())
}

// Runs a soup file until its hand halts: the quanta that are committed, whether the book is stopped, and what the hand
// counts.
fn halted<R: Threads + Wait + Sync, G: Gate + Sync>(
    rt: &R,
    alloc: Global,
    file: &str,
    quanta: u64,
    workers: u32,
    gate: &G,
    shown: &AtomicU64,
) -> Result<(u64, bool, Counts), Fail>
    requires quanta { (1 ≤ quanta) × (quanta ≤ 4000000) }
    requires workers { (1 ≤ workers) × (workers ≤ 64) }
{
    let (ran, counts) = run(rt, alloc, file, quanta, workers, true, gate, shown)?;
    match ran {
        Ran::Halted(mut book) => {
            let committed = book.committed();
            let is_stopped = matches!(book.claim(alloc), Claim::Stopped);
            Ok((committed, is_stopped, counts))
        }
        Ran::Ended(_) | Ran::OutOfMemory => Err(Fail::from("the hand did not halt")),
    }
}

// The first genotype is saved after the jobs, when 20 creatures were born.
#[test]
fn a_hand_that_halts_beside_the_run_ends_it(rt: HostRuntime) -> Result<(), Fail> {
    let file = ancestor_file(rt.alloc(), "save_at = 20\n")?;
    halt_beside(&rt, rt.alloc(), &file, 2)?;
    halt_beside(&rt, rt.alloc(), &file, 4)
}

fn halt_beside<R: Threads + Wait + Sync + Abort>(
    rt: &R,
    alloc: Global,
    file: &str,
    workers: u32,
) -> Result<(), Fail>
    requires { (1 ≤ workers) × (workers ≤ 64) }
{
    let shown = AtomicU64::new(0);
    let gate = CountGate::new();
    let (committed, is_stopped, counts) = halted(
        rt, alloc, file, 4_000_000, workers, &gate, &shown,
    )?;
    assert!(rt; 256 < committed && committed < 4_000_000, "{committed}");
    assert_eq!(rt; (is_stopped, counts), (true, [0, 1, 1]));
    Ok(())
}

#[test]
fn a_hand_that_halts_stops_the_book(rt: HostRuntime) -> Result<(), Fail> {
    halt_at_once(&rt, rt.alloc(), 1)?;
    halt_at_once(&rt, rt.alloc(), 3)
}

// The groups of the start are handed over in worker 1's first turn. The jobs that the other workers have then come to
// nothing.
fn halt_at_once<R: Threads + Wait + Sync + Abort>(
    rt: &R,
    alloc: Global,
    workers: u32,
) -> Result<(), Fail>
    requires { (1 ≤ workers) × (workers ≤ 64) }
{
    let gate = HaltGate::new();
    let halt = halted(rt, alloc, LOOPS, 200, workers, &gate, &gate.halts)?;
    let [second, third] = gate.befores_of_others();
    let has_few_jobs = second <= 1 && third <= 1;
    assert_eq!(rt;
        (halt, gate.is_limit_met(), has_few_jobs, gate.afters()),
        ((0, true, [0, 1, 1]), false, true, 0)
    );
    Ok(())
}
