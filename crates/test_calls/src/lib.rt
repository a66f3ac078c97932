//! Calls of the program over sources and desks in memory, for tests.
#![tactic(auto)]

ghost use Rattle.std.specs.Prelude.{◌≡◌, ◌<◌, IfOk};
ghost use Rattle.desk_io.specs.Desk.{HasNoFault};
ghost use Rattle.test_desks.specs.MemDesk.{state_of};

use crew::{FreeGate, Gate};
use soup_top::{Status, status_text, tierra};
use std::alloc::{AllocError, Global};
use std::sync::Wait;
use std::thread::Threads;
use test_desks::{Call, MemDesk, MemSource};
use tierra_model::OutOfMemory;

/// What a call meets besides its words and its source.
#[derive(Clone, Copy, Drop)]
pub struct Given<'a> {
    /// How many bytes a read gives at most; 0 stands for 1.
    pub cut: usize,
    /// The file.
    pub image: &'a [u8],
    /// The reads of the source that fail, by their numbers.
    pub reads: &'a [u64],
    /// The disk calls that fail.
    pub disk: &'a [u64],
    /// The tells that fail.
    pub tells: &'a [u64],
    /// The number of the desk call from which on all fail.
    pub stop: Option<u64>,
}

/// An empty file, and nothing fails.
pub const PLAIN: Given<'static> = Given {
    cut: 4096,
    image: &[],
    reads: &[],
    disk: &[],
    tells: &[],
    stop: None,
};

/// A call that ended.
#[derive(Drop)]
pub struct Ended {
    pub status: Status,
    /// What was told.
    pub told: Vec<u8>,
    /// A letter for each call of the desk: for the length, a read, a write, a sync and a tell.
    pub calls: String,
    /// How many reads of the source there were.
    pub reads: u64,
    desk: MemDesk,
}

fn source_of(alloc: Global, bytes: &[u8], given: &Given<'_>) -> Result<MemSource, OutOfMemory>
    ensures { IfOk result (λ s. s.faults ≡ 0) }
{
    let bytes = bytes.to_vec(alloc)?;
    Ok(MemSource::new(bytes, given.cut.max(1), given.reads.to_vec(alloc)?))
}

fn desk_of(alloc: Global, given: &Given<'_>) -> Result<MemDesk, OutOfMemory>
    ensures { IfOk result (λ d. HasNoFault (state_of d)) }
{
    let image = given.image.to_vec(alloc)?;
    let disk = given.disk.to_vec(alloc)?;
    let tells = given.tells.to_vec(alloc)?;
    Ok(MemDesk::new(alloc, image, disk, tells, given.stop))
}

/// The words of a line, separated by spaces.
fn words_of(alloc: Global, line: &str) -> Result<Vec<String>, OutOfMemory> {
    let mut words = Vec::new(alloc);
    for word in line.split_ascii_whitespace() {
        words.push(String::from_str(alloc, word)?)?;
    }
    Ok(words)
}

fn letter_of(call: &Call) -> &'static str {
    match call {
        Call::Len => "L",
        Call::Read { .. } => "R",
        Call::Write { .. } => "W",
        Call::TooLong { .. } => "!",
        Call::Sync => "S",
        Call::Tell { .. } => "T",
    }
}

fn letters_of(alloc: Global, desk: &MemDesk) -> Result<String, OutOfMemory> {
    let mut calls = String::new(alloc);
    for record in desk.calls() {
        calls.push_str(letter_of(&record.call))?;
    }
    Ok(calls)
}

// Makes the call, and passes on nothing of its contract.
fn answer_of<R: Threads + Wait + Sync, G: Gate + Sync>(
    rt: &R,
    alloc: Global,
    words: &Vec<String>,
    source: &mut MemSource,
    desk: &mut MemDesk,
    gate: &G,
) -> Status
    requires source { source.old.faults ≡ 0 }
    requires desk { HasNoFault (state_of desk.old) }
{
    tierra(rt, alloc, words, source, desk, gate)
}

fn what_ended(
    alloc: Global,
    status: Status,
    reads: u64,
    desk: MemDesk,
) -> Result<Ended, OutOfMemory> {
    if desk.starved() > 0 {
        return Err(AllocError);
    }
    let told = desk.told().as_slice().to_vec(alloc)?;
    let calls = letters_of(alloc, &desk)?;
    Ok(Ended {
        status,
        told,
        calls,
        reads,
        desk,
    })
}

/// Makes a call of these words, separated by spaces, with this gate.
pub fn call_beside<R: Threads + Wait + Sync, G: Gate + Sync>(
    rt: &R,
    alloc: Global,
    words: &str,
    source: &[u8],
    given: &Given<'_>,
    gate: &G,
) -> Result<Ended, OutOfMemory> {
    let words = words_of(alloc, words)?;
    let mut source = source_of(alloc, source, given)?;
    let mut desk = desk_of(alloc, given)?;
    let status = answer_of(rt, alloc, &words, &mut source, &mut desk, gate);
    what_ended(alloc, status, source.calls(), desk)
}

/// Makes a call.
pub fn call_with<R: Threads + Wait + Sync>(
    rt: &R,
    alloc: Global,
    words: &str,
    source: &[u8],
    given: &Given<'_>,
) -> Result<Ended, OutOfMemory> {
    call_beside(rt, alloc, words, source, given, &FreeGate)
}

/// Makes a call over an empty file, in which nothing fails.
pub fn call<R: Threads + Wait + Sync>(
    rt: &R,
    alloc: Global,
    words: &str,
    source: &str,
) -> Result<Ended, OutOfMemory> {
    call_with(rt, alloc, words, source.as_bytes(), &PLAIN)
}

impl Ended {
    /// One of four files that a crash may leave; the first lacks the writes since the last sync.
    pub fn file(&self, pick: u32) -> Result<Vec<u8>, OutOfMemory>
        requires { pick < 4 }
    {
        match self.desk.crash(pick) {
            Ok(file) => Ok(file),
            Err(_) => Err(AllocError),
        }
    }

    /// Whether the call is done, and that text was told.
    pub fn is_done(&self, text: &str) -> bool {
        self.status == Status::Done && self.told.as_slice() == text.as_bytes()
    }

    /// The line for standard error.
    pub fn line(&self, alloc: Global) -> Result<Vec<u8>, OutOfMemory> {
        line_of(alloc, &self.status)
    }
}

/// The line of an answer for standard error.
pub fn line_of(alloc: Global, status: &Status) -> Result<Vec<u8>, OutOfMemory> {
    Ok(status_text(alloc, status)?.items)
}
