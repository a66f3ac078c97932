//! Genotypes are dealt to workers one to each in turn, since those that were saved later take longer.

ghost use Rattle.std.specs.Prelude.{◌≡◌, ◌++◌, ◌+◌, ◌<◌, ◌≤◌, All, IfOk, Some, length, map, slice_get};
ghost use Rattle.std.specs.Thread.{IsSync};
ghost use Rattle.genotype_probe.specs.Dealing.{AreParts, IsPart};
ghost use Rattle.genotype_probe.specs.Probes.{HasCode, probe};
ghost use Rattle.tierra_model.specs.declared.limits.TheConstants.{MOST_QUANTA, MOST_WORKERS};

use crate::{Efforts, probe};
use std::alloc::Global;
use std::thread::{Threads, join};
use tierra_model::{OutOfMemory, Saved};

// The probes of one worker's genotypes.
#[tactic(auto, using(crate::proofs::Parts::all_dealt, crate::proofs::Parts::nothing_dealt))]
fn probe_every(
    alloc: Global,
    saved: &[Saved],
    n: u64,
    first: u32,
    step: u32,
) -> Result<Vec<Efforts>, OutOfMemory>
    requires codes { All HasCode saved.now }
    requires quanta { (1 ≤ n) × (n ≤ MOST_QUANTA) }
    requires step { (1 ≤ step) × (step ≤ MOST_WORKERS) × (first ≤ MOST_WORKERS) }
    ensures { IfOk result (λ part. IsPart saved.now n first step part.items) }
{
    let mut part = Vec::new(alloc);
    let mut place = first as usize;
    while place < saved.len() {
        part.push(probe(alloc, &saved[place].code, n)?)?;
        place += step as usize;
    }
    Ok(part)
}

fn joined(
    parts: Vec<Vec<Efforts>>,
    others: Vec<Vec<Efforts>>,
) -> Result<Vec<Vec<Efforts>>, OutOfMemory>
    ensures { IfOk result (λ all. all.items ≡ parts.items ++ others.items) }
{
    let mut all = parts;
    for part in others {
        all.push(part)?;
    }
    Ok(all)
}

// The parts of the workers from `first` to below `last`, each on a thread.
#[tactic(auto, using(crate::proofs::Parts::joined_parts))]
fn parts_from<R: Threads + Sync>(
    rt: &R,
    alloc: Global,
    saved: &[Saved],
    n: u64,
    first: u32,
    last: u32,
    step: u32,
) -> Result<Vec<Vec<Efforts>>, OutOfMemory>
    requires codes { All HasCode saved.now }
    requires quanta { (1 ≤ n) × (n ≤ MOST_QUANTA) }
    requires workers { (first < last) × (last ≤ step) × (step ≤ MOST_WORKERS) }
    ensures { IfOk result (λ parts. AreParts saved.now n first last step parts.items) }
{
    if first + 1 == last {
        let part = probe_every(alloc, saved, n, first, step)?;
        let mut parts = Vec::new(alloc);
        parts.push(part)?;
        return Ok(parts);
    }
    let middle = (first + last) / 2;
    let (theirs, ours) = join(
        rt,
        || -> Result<Vec<Vec<Efforts>>, OutOfMemory>
            requires { IsSync R.row × All HasCode saved.now
                × ((1 ≤ n) × (n ≤ MOST_QUANTA)) × ((first < middle) × (middle ≤ step) × (step ≤ MOST_WORKERS)) }
            ensures { IfOk result (λ parts. AreParts saved.entry.now n first middle step parts.items) }
        { parts_from(rt, alloc, saved, n, first, middle, step) },
        || -> Result<Vec<Vec<Efforts>>, OutOfMemory>
            requires { IsSync R.row × All HasCode saved.now
                × ((1 ≤ n) × (n ≤ MOST_QUANTA)) × ((middle < last) × (last ≤ step) × (step ≤ MOST_WORKERS)) }
            ensures { IfOk result (λ parts. AreParts saved.entry.now n middle last step parts.items) }
        { parts_from(rt, alloc, saved, n, middle, last, step) },
    );
    joined(theirs?, ours?)
}

// The probe of the genotype at a place, from the part that has it.
fn dealt(parts: &[Vec<Efforts>], saved: &[Saved], n: u64, place: usize) -> Efforts
    requires place { place < length saved.now }
    requires parts { AreParts saved.now n 0 (length parts.now) (length parts.now) parts.now }
    requires some { 0 < length parts.now }
    ensures { slice_get (map (λ s. probe s.code n) saved.now) place ≡ Some result }
{
    let _ = saved;
    let _ = n;
    let part = parts[place % parts.len()].as_slice();
    part[place / parts.len()]
}

// The probes in the order of the genotypes.
fn gathered(
    alloc: Global,
    parts: &[Vec<Efforts>],
    saved: &[Saved],
    n: u64,
) -> Result<Vec<Efforts>, OutOfMemory>
    requires parts { AreParts saved.now n 0 (length parts.now) (length parts.now) parts.now }
    requires some { 0 < length parts.now }
    ensures { IfOk result (λ all. all.items ≡ map (λ s. probe s.code n) saved.now) }
{
    let mut all = Vec::with_capacity(alloc, saved.len())?;
    for place in 0..saved.len() {
        all.push(dealt(parts, saved, n, place))?;
    }
    Ok(all)
}

/// The probes of the genotypes in order, dealt to this many workers.
pub(crate) fn probe_dealt<R: Threads + Sync>(
    rt: &R,
    alloc: Global,
    saved: &[Saved],
    n: u64,
    workers: u32,
) -> Result<Vec<Efforts>, OutOfMemory>
    requires codes { All HasCode saved.now }
    requires quanta { (1 ≤ n) × (n ≤ MOST_QUANTA) }
    requires workers { (1 ≤ workers) × (workers ≤ MOST_WORKERS) }
    ensures { IfOk result (λ all. all.items ≡ map (λ s. probe s.code n) saved.now) }
{
    let parts = parts_from(rt, alloc, saved, n, 0, workers, workers)?;
    gathered(alloc, &parts, saved, n)
}
