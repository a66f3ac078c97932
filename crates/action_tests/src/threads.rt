//! Isles and probes run on several threads: the threads of the process are counted beside them.

ghost use Rattle.std.specs.Thread.{IsSync};

use genotype_probe::probe_text;
use serial_slicer::run_serial;
use soup_isles::run_isles;
use std::alloc::Global;
use std::fs;
use std::rt::Files;
use std::sync::atomic::{AtomicBool, Ordering};
use std::test::Fail;
use std::thread::{Threads, join};
use test_soups::{ancestor_file, setup_of};
use tierra_model::{Groups, Setup};

/// How many threads the process has, where the system says so.
fn threads_now<R: Files + Alloc>(rt: &R) -> Option<u64> {
    let status = fs::read_to_string(rt, "/proc/self/status").ok()?;
    for line in status.lines() {
        if let Some(number) = line.strip_prefix("Threads:\t") {
            return number.parse::<u64>().ok();
        }
    }
    None
}

/// Counts the threads until there are so many, or until the work is over. Says whether there were.
fn sees<R: Files + Alloc>(
    rt: &R,
    threads: u64,
    is_over: &AtomicBool,
    is_seen: &AtomicBool,
) -> bool {
    for _ in 0..1_000_000_000u64 {
        if threads_now(rt).is_some_and(|now| now >= threads) {
            is_seen.store(true, Ordering::SeqCst);
            return true;
        }
        if is_over.load(Ordering::SeqCst) {
            return false;
        }
    }
    false
}

/// What is done with three workers.
#[derive(Clone, Copy, Debug, Drop)]
enum Action {
    Isles,
    Probe,
}

fn act<R: Threads + Sync>(
    rt: &R,
    alloc: Global,
    action: Action,
    setup: &Setup,
    groups: &Groups,
) -> bool {
    match action {
        Action::Isles => run_isles(rt, alloc, setup, 3, 1, 10, 3).is_ok(),
        Action::Probe => probe_text(rt, alloc, groups, 10, 3).is_ok(),
    }
}

/// Acts again and again until the threads are seen, at most 10,000 times.
fn act_until<R: Threads + Sync>(
    rt: &R,
    alloc: Global,
    action: Action,
    setup: &Setup,
    groups: &Groups,
    is_over: &AtomicBool,
    is_seen: &AtomicBool,
) -> bool {
    for _ in 0..10_000u32 {
        if is_seen.load(Ordering::SeqCst) || !act(rt, alloc, action, setup, groups) {
            break;
        }
    }
    is_over.store(true, Ordering::SeqCst);
    true
}

/// Whether so many threads are seen while the action is done.
fn is_seen_beside<R: Threads + Files + Alloc + Sync>(
    rt: &R,
    alloc: Global,
    action: Action,
    setup: &Setup,
    groups: &Groups,
    threads: u64,
) -> bool {
    let is_over = AtomicBool::new(false);
    let is_seen = AtomicBool::new(false);
    let (_, seen) = join(
        rt,
        || -> bool
            requires { IsSync R.row }
        { act_until(rt, alloc, action, setup, groups, &is_over, &is_seen) },
        || -> bool
            requires { IsSync R.row }
        { sees(rt, threads, &is_over, &is_seen) },
    );
    seen
}

#[test]
fn three_workers_are_three_threads(rt: HostRuntime) -> Result<(), Fail> {
    let alloc = rt.alloc();
    let setup = setup_of(alloc, &ancestor_file(alloc, "")?)?;
    let groups = run_serial(alloc, &setup, 34)?.groups_from(alloc, 0)?;
    let Some(before) = threads_now(&rt) else {
        panic!(rt; "the system does not count the threads")
    };
    // One thread counts, and one of the workers is on the thread that calls.
    let threads = before.saturating_add(3);
    for action in [Action::Isles, Action::Probe] {
        let is_seen = is_seen_beside(&rt, alloc, action, &setup, &groups, threads);
        assert!(rt; is_seen, "{action:?}");
    }
    Ok(())
}
