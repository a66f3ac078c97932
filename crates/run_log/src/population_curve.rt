//! The curve of a run.

ghost use Rattle.std.specs.Prelude.{All, ◌≡◌, ◌+◌, ◌-◌, ◌<◌, ◌≤◌, ◌++◌, ◌∷◌, [], ℕ, IfOk, OnOk, filter, if◌then◌else◌, length, map, not};
ghost use Rattle.std.specs.List.{flat_map, range_with_len};
ghost use Rattle.tierra_model.specs.declared.limits.TheConstants.{COUNT_END, MOST_QUANTA};
ghost use Rattle.tierra_model.specs.Counting.{times_in};
ghost use Rattle.tierra_model.specs.Living.{ids_of};
ghost use Rattle.tierra_model.specs.Quantum.{quantum as world_after};
ghost use Rattle.tierra_model.specs.Serial.{serial, start};
ghost use Rattle.tierra_model.specs.Setups.{IsSetup};
ghost use Rattle.tierra_model.specs.Sound.{IsSound};
ghost use Rattle.run_log.specs.declared.record.Record.TheVariants as record_of;
ghost use Rattle.run_log.specs.Curve.{counts_of, curve_text, is_shown, lives, point_line, record_line, records_in, run_records, shown};
ghost use Rattle.run_log.specs.Records.{living_in, point_of, quantum_of, up_to};

use crate::log::{Log, Point};
use crate::record::Record;
use serial_slicer::InPlace;
use std::alloc::Global;
use tierra_model::{OutOfMemory, SeedList, Setup, Text};
use world_core::World;

/// The text of a run's births and deaths, and of its counts at each multiple of `every` and at the end.
pub fn curve(alloc: Global, setup: &Setup, quanta: u64, every: u64) -> Result<Text, OutOfMemory>
    requires few { quanta ≤ MOST_QUANTA }
    requires some { 1 ≤ every }
    ensures { IfOk result (λ text. text ≡ curve_text setup.now quanta every) }
{
    let log = log_of_run(alloc, setup, quanta)?;
    let mut items = Vec::new(alloc);
    add_records(alloc, &mut items, &log)?;
    add_points(alloc, &mut items, &log, quanta, every)?;
    Ok(Text { items })
}

// The births and deaths of the first `quanta` quanta.
fn log_of_run(alloc: Global, setup: &Setup, quanta: u64) -> Result<Log, OutOfMemory>
    requires { quanta ≤ MOST_QUANTA }
    ensures records { IfOk result (λ log. log.records ≡ run_records setup.now quanta) }
    ensures counts { IfOk result (λ log. (q : ℕ) → q ≤ quanta
        → point_of log.inoculated (up_to q log.records) ≡ counts_of (serial setup.now q)) }
{
    let mut run = InPlace::of(World::start(alloc, setup)?)?;
    log_of_world(alloc, setup, &mut run, quanta)
}

// The births and deaths of the next `quanta` quanta of a world that begins.
fn log_of_world(
    alloc: Global,
    setup: &Setup,
    run: &mut InPlace,
    quanta: u64,
) -> Result<Log, OutOfMemory>
    requires few { quanta ≤ MOST_QUANTA }
    requires begins { run.old ≡ start setup.now }
    ensures records { IfOk result (λ log. log.records ≡ run_records setup.now quanta) }
    ensures counts { IfOk result (λ log. (q : ℕ) → q ≤ quanta
        → point_of log.inoculated (up_to q log.records) ≡ counts_of (serial setup.now q)) }
{
    let inoculated = count_of(setup);
    let mut log = Log::new(alloc, inoculated);
    let mut living = numbers(alloc, inoculated)?;
    for before in 0..quanta {
        living = note_quantum(alloc, &mut log, living, run, inoculated, before + 1)?;
    }
    Ok(log)
}

// Runs the next quantum, which has this number, and notes who is born and who dies in it. `living` are those who live
// before it, and the answer is those who live after it.
fn note_quantum(
    alloc: Global,
    log: &mut Log,
    mut living: Vec<u64>,
    run: &mut InPlace,
    inoculated: u64,
    quantum: u64,
) -> Result<Vec<u64>, OutOfMemory>
    requires sound { IsSound run.old }
    requires quantum { quantum ≡ run.old.quanta + 1 }
    requires more { quantum ≤ MOST_QUANTA }
    requires numbers { run.old.next_birth ≡ inoculated + run.old.births + 1 }
    requires living { living.items ≡ ids_of run.old.living }
    requires noted { living.items ≡ living_in log.old.inoculated log.old.records }
    requires order { All (λ r. quantum_of r ≤ quantum) log.old.records }
    ensures run { OnOk result (run.new ≡ world_after run.old) }
    ensures living { IfOk result (λ left. left.items ≡ ids_of run.new.living) }
    ensures inoculated { log.new.inoculated ≡ log.old.inoculated }
    ensures records { OnOk result (log.new.records ≡ log.old.records ++ records_in quantum run.old run.new) }
{
    let first = inoculated + run.births() + 1;
    let dead = run.deaths();
    run.next(alloc)?;
    let next = inoculated + run.births() + 1;
    note_births(log, &mut living, quantum, first, next)?;
    let died = run.deaths() - dead;
    let left = note_deaths(alloc, log, living, run, quantum, died)?;
    Ok(left)
}

// How many creatures there are at the start.
fn count_of(setup: &Setup) -> u64
    ensures count { result ≡ length setup.now.creatures }
    ensures setup { IsSetup setup.now }
{
    let seeds: &SeedList = &setup.creatures;
    seeds.items.len() as u64
}

// The numbers from 1 to `count`.
fn numbers(alloc: Global, count: u64) -> Result<Vec<u64>, OutOfMemory>
    requires { count < COUNT_END }
    ensures { IfOk result (λ v. v.items ≡ range_with_len 1 count) }
{
    let mut items = Vec::new(alloc);
    for before in 0..count {
        items.push(before + 1)?;
    }
    Ok(items)
}

// Notes the births of the quantum, which have the numbers from `first` to below `next`, and adds them to `living`.
fn note_births(
    log: &mut Log,
    living: &mut Vec<u64>,
    quantum: u64,
    first: u64,
    next: u64,
) -> Result<(), OutOfMemory>
    requires order { All (λ r. quantum_of r ≤ quantum) log.old.records }
    requires living { living.old.items ≡ living_in log.old.inoculated log.old.records }
    requires fresh { (id : ℕ) → first ≤ id → times_in living.old.items id ≡ 0 }
    requires range { first ≤ next }
    ensures inoculated { log.new.inoculated ≡ log.old.inoculated }
    ensures living { OnOk result (living.new.items ≡ living.old.items ++ range_with_len first (next - first)) }
    ensures records { OnOk result (log.new.records
        ≡ log.old.records ++ map (λ id. record_of.Birth quantum id) (range_with_len first (next - first))) }
{
    for id in first..next {
        log.reserve(1)?;
        log.born(quantum, id);
        living.push(id)?;
    }
    Ok(())
}

// Notes the deaths of the quantum among those who lived; the answer is those who still live in the world.
fn note_deaths(
    alloc: Global,
    log: &mut Log,
    living: Vec<u64>,
    run: &InPlace,
    quantum: u64,
    died: u64,
) -> Result<Vec<u64>, OutOfMemory>
    requires order { All (λ r. quantum_of r ≤ quantum) log.old.records }
    requires living { living.items ≡ living_in log.old.inoculated log.old.records }
    requires once { (id : ℕ) → times_in living.items id ≤ 1 }
    requires died { length (filter (λ id. not (lives run.now id)) living.items) ≡ died }
    ensures inoculated { log.new.inoculated ≡ log.old.inoculated }
    ensures living { IfOk result (λ left. left.items ≡ filter (lives run.now) living.items) }
    ensures records { IfOk result (λ left. log.new.records
        ≡ log.old.records ++ map (λ id. record_of.Death quantum id)
        (filter (λ id. not (lives run.now id)) living.items)) }
{
    if died == 0 {
        return Ok(living);
    }
    note_each_death(alloc, log, &living, run, quantum)
}

// Notes each creature that no longer lives in the world.
fn note_each_death(
    alloc: Global,
    log: &mut Log,
    living: &[u64],
    run: &InPlace,
    quantum: u64,
) -> Result<Vec<u64>, OutOfMemory>
    requires order { All (λ r. quantum_of r ≤ quantum) log.old.records }
    requires living { living.now ≡ living_in log.old.inoculated log.old.records }
    requires once { (id : ℕ) → times_in living.now id ≤ 1 }
    ensures inoculated { log.new.inoculated ≡ log.old.inoculated }
    ensures living { IfOk result (λ left. left.items ≡ filter (lives run.now) living.now) }
    ensures records { IfOk result (λ left. log.new.records
        ≡ log.old.records ++ map (λ id. record_of.Death quantum id)
        (filter (λ id. not (lives run.now id)) living.now)) }
{
    let mut left = Vec::new(alloc);
    for id in living {
        keep_or_note(log, &mut left, run, quantum, *id)?;
    }
    Ok(left)
}

// A creature that lives in the world goes to `left`; the death of another is noted.
fn keep_or_note(
    log: &mut Log,
    left: &mut Vec<u64>,
    run: &InPlace,
    quantum: u64,
    id: u64,
) -> Result<(), OutOfMemory>
    requires order { All (λ r. quantum_of r ≤ quantum) log.old.records }
    requires present { 0 < times_in (living_in log.old.inoculated log.old.records) id }
    ensures inoculated { log.new.inoculated ≡ log.old.inoculated }
    ensures left { OnOk result (left.new.items
        ≡ (if lives run.now id then left.old.items ++ id ∷ [] else left.old.items)) }
    ensures records { OnOk result (log.new.records
        ≡ (if lives run.now id then log.old.records else log.old.records ++ record_of.Death quantum id ∷ [])) }
{
    if lives(run, id) {
        left.push(id)?;
        return Ok(());
    }
    log.reserve(1)?;
    log.died(quantum, id);
    Ok(())
}

fn lives(run: &InPlace, id: u64) -> bool
    ensures { result ≡ lives run.now id }
{
    run.creature(id).is_some()
}

// ---- the text

fn add_records(alloc: Global, text: &mut Vec<u8>, log: &Log) -> Result<(), OutOfMemory>
    ensures { OnOk result (text.new.items ≡ text.old.items ++ flat_map record_line log.now.records) }
{
    for place in 0..log.len() {
        add_record(alloc, text, log.get(place))?;
    }
    Ok(())
}

fn add_record(alloc: Global, text: &mut Vec<u8>, noted: Record) -> Result<(), OutOfMemory>
    ensures { OnOk result (text.new.items ≡ text.old.items ++ record_line noted) }
{
    let line = match noted {
        Record::Birth { quantum, id } => format!(in alloc; "birth {quantum} {id}\n")?,
        Record::Death { quantum, id } => format!(in alloc; "death {quantum} {id}\n")?,
    };
    text.extend_from_slice(line.as_bytes())
}

fn add_points(
    alloc: Global,
    text: &mut Vec<u8>,
    log: &Log,
    quanta: u64,
    every: u64,
) -> Result<(), OutOfMemory>
    requires few { quanta ≤ MOST_QUANTA }
    requires some { 1 ≤ every }
    ensures { OnOk result (text.new.items
        ≡ text.old.items ++ flat_map
        (λ q. point_line q (point_of log.now.inoculated (up_to q log.now.records))) (shown quanta every)) }
{
    for quantum in 0..quanta + 1 {
        add_if_shown(alloc, text, log, quanta, every, quantum)?;
    }
    Ok(())
}

fn add_if_shown(
    alloc: Global,
    text: &mut Vec<u8>,
    log: &Log,
    quanta: u64,
    every: u64,
    quantum: u64,
) -> Result<(), OutOfMemory>
    requires { 1 ≤ every }
    ensures { OnOk result (text.new.items
        ≡ text.old.items ++ (if is_shown quanta every quantum
        then point_line quantum (point_of log.now.inoculated (up_to quantum log.now.records)) else [])) }
{
    if !is_shown(quanta, every, quantum) {
        return Ok(());
    }
    add_point(alloc, text, quantum, &log.at(quantum))
}

fn is_shown(quanta: u64, every: u64, quantum: u64) -> bool
    requires { 1 ≤ every }
    ensures { result ≡ is_shown quanta every quantum }
{
    quantum % every == 0 || quantum == quanta
}

fn add_point(
    alloc: Global,
    text: &mut Vec<u8>,
    quantum: u64,
    point: &Point,
) -> Result<(), OutOfMemory>
    ensures { OnOk result (text.new.items ≡ text.old.items ++ point_line quantum point.now) }
{
    let counts = format!(in alloc;
        " living {} births {} deaths {}\n",
        point.living, point.births, point.deaths
    )?;
    let head = format!(in alloc; "at {quantum}")?;
    text.extend_from_slice(head.as_bytes())?;
    text.extend_from_slice(counts.as_bytes())
}
