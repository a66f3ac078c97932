//! What a book answers, and the world that it ends in.

ghost use Rattle.std.specs.Prelude.{◌≡◌, ◌<◌, ◌≤◌};

use commit_book::{Advanced, Book, Claim, Offered};
use quantum_run::{Finding, run_quantum};
use serial_slicer::run_serial;
use std::alloc::Global;
use std::marker::Brand;
use std::process::Abort;
use std::sync::ledger::{Blank, Ledger};
use std::test::Fail;
use step_count::Steps;
use test_soups::{TWO, setup_of};
use tierra_model::{Entry, How, OutOfMemory, Stale};
use world_core::World;

/// Six creatures that do nothing.
const SIX: &str = r#"
soup_size = 100
creature = [
    { at = 0, code = "nop_0" }, { at = 1, code = "nop_0" }, { at = 2, code = "nop_0" },
    { at = 3, code = "nop_0" }, { at = 4, code = "nop_0" }, { at = 5, code = "nop_0" },
]
"#;

/// A creature under other settings.
const OTHER: &str = "slice_size = 24\nsoup_size = 100\n[[creature]]\nat = 0\ncode = 'nop_0'\n";

/// Creatures that ask for daughter blocks in a soup that has room for few of them, so that some die, with mutation.
const CROWDED: &str = r#"
soup_size = 200
slice_size = 20
copy_rate = 20
back_rate = 40
flaw_rate = 500
dist_every = 97
dist_percent = 40
save_at = 1
move_percent = 0
[[creature]]
at = 0
code = "nop_1 zero or1 shl shl shl shl mal mov_iab inc_b mov_iab divide jmpb nop_0 zero"
[[creature]]
at = 40
code = "nop_1 zero or1 shl shl shl shl mal inc_a mov_iab inc_b divide jmpb nop_0 zero"
[[creature]]
at = 80
code = "nop_1 nop_0 zero or1 shl shl shl shl mal divide jmpb nop_0 nop_1 zero"
"#;

fn book_of(alloc: Global, file: &str, quanta: u64, window: u32) -> Result<Book, Fail>
    requires quanta { (1 ≤ quanta) × (quanta ≤ 4000000) }
    requires window { (1 ≤ window) × (window ≤ 128) }
{
    Ok(Book::begin(alloc, setup_of(alloc, file)?, quanta, window)?)
}

/// What the book's next job finds, if there is one.
fn next_finding<L: Ledger>(
    alloc: Global,
    book: &mut Book,
    steps: &mut Steps<L>,
) -> Result<Option<Finding>, Fail> {
    match book.claim(alloc) {
        Claim::Job(job) => Ok(Some(run_quantum(alloc, &job, steps)?)),
        _ => Ok(None),
    }
}

fn bytes_of(alloc: Global, world: &World) -> Result<Vec<u8>, OutOfMemory> {
    Ok(world.state_bytes(alloc)?.items)
}

/// Offers a finding as caller `by`.
fn offer<L: Ledger>(
    alloc: Global,
    book: &mut Book,
    finding: Finding,
    by: u32,
    steps: &mut Steps<L>,
) -> Offered
    requires { (1 ≤ by) × (by ≤ 64) }
{
    book.offer(alloc, finding, by, steps)
}

/// Offers the second finding twice, and then the first twice.
fn offer_all<L: Ledger>(
    alloc: Global,
    book: &mut Book,
    first: Finding,
    second: Finding,
    steps: &mut Steps<L>,
) -> Result<[Offered; 4], Fail> {
    let (again, twice) = (first.copy()?, second.copy()?);
    Ok([
        offer(alloc, book, second, 2, steps),
        offer(alloc, book, twice, 2, steps),
        offer(alloc, book, first, 1, steps),
        offer(alloc, book, again, 1, steps),
    ])
}

/// Claims two jobs and no third, and offers what they find.
fn run_two<R: Abort, L: Ledger>(
    rt: &R,
    alloc: Global,
    book: &mut Book,
    steps: &mut Steps<L>,
) -> Result<[Offered; 4], Fail> {
    let first = next_finding(alloc, book, steps)?;
    let second = next_finding(alloc, book, steps)?;
    assert!(rt; matches!(book.claim(alloc), Claim::Full));
    match (first, second) {
        (Some(first), Some(second)) => offer_all(alloc, book, first, second, steps),
        _ => panic!(rt; "a job is missing"),
    }
}

fn two_quanta<R: Abort, L: Ledger>(rt: &R, alloc: Global, blank: Blank) -> Result<(), Fail>
    requires name { blank.name ≡ L.name }
    requires parts { blank.parts ≡ L.parts }
    requires some { 0 < L.parts }
{
    let mut steps = Steps::<L>::start(blank);
    let mut book = book_of(alloc, TWO, 2, 4)?;
    let answers = run_two(rt, alloc, &mut book, &mut steps)?;
    let late = Offered::Late { committed: 2 };
    let want = [Offered::Kept, Offered::Twice, Offered::Committed(2), late];
    let is_ended = matches!(book.claim(alloc), Claim::Ended);
    let advanced = book.advance(alloc, 1, &mut steps);
    let entries = [entry_at(&book, 0), entry_at(&book, 1), entry_at(&book, 2)];
    let stale = How::Stale(Stale::Cell {
        at: 0,
        seen: 9,
        now: 26,
    });
    let told = [
        Some(entry(1, 1, How::Fresh)),
        Some(entry(2, 2, stale)),
        None,
    ];
    assert_eq!(rt;
        (answers, is_ended, advanced, entries),
        (want, true, Advanced::Ended, told)
    );
    Ok(())
}

/// An entry of the history, by its place.
fn entry_at(book: &Book, place: usize) -> Option<Entry> {
    let history = book.history();
    if place < history.len() {
        Some(history.at(place))
    } else {
        None
    }
}

/// An entry by caller 1.
fn entry(quantum: u64, creature: u64, how: How) -> Entry {
    Entry {
        quantum,
        creature,
        by: 1,
        how,
    }
}

#[test]
fn the_second_is_stale_where_the_first_wrote(rt: HostRuntime) -> Result<(), Fail> {
    two_quanta::<_, Brand>(&rt, rt.alloc(), Blank::new(1))
}

/// What the commit of the first finding gives: the answer, how many quanta are committed then, what an advance answers
/// where there was no memory for the commit, and the history's first entry.
type First = (Offered, u64, Option<Advanced>, Option<Entry>);

/// Offers the first finding. Where there is no memory for its commit, it is dropped, and the quantum is committed anew.
fn commit_first<L: Ledger>(alloc: Global, steps: &mut Steps<L>) -> Result<First, Fail> {
    let mut book = book_of(alloc, TWO, 2, 4)?;
    let Some(first) = next_finding(alloc, &mut book, steps)? else {
        return Err(Fail::from("no first job"));
    };
    let answer = offer(alloc, &mut book, first, 1, steps);
    let committed = book.committed();
    let advanced = if answer == Offered::OutOfMemory {
        Some(book.advance(alloc, 1, steps))
    } else {
        None
    };
    Ok((answer, committed, advanced, entry_at(&book, 0)))
}

fn fresh_or_missing<R: Abort, L: Ledger>(rt: &R, alloc: Global, blank: Blank) -> Result<(), Fail>
    requires name { blank.name ≡ L.name }
    requires parts { blank.parts ≡ L.parts }
    requires some { 0 < L.parts }
{
    let mut steps = Steps::<L>::start(blank);
    let seen = commit_first(alloc, &mut steps)?;
    let missing = Some(entry(1, 1, How::Missing));
    let want: First = if seen.1 == 0 {
        (Offered::OutOfMemory, 0, Some(Advanced::Committed), missing)
    } else {
        (
            Offered::Committed(1),
            1,
            None,
            Some(entry(1, 1, How::Fresh)),
        )
    };
    assert_eq!(rt; seen, want);
    Ok(())
}

#[test]
fn a_finding_that_finds_no_memory_is_missing(rt: HostRuntime) -> Result<(), Fail> {
    fresh_or_missing::<_, Brand>(&rt, rt.alloc(), Blank::new(1))
}

/// The finding of the sixth job of a book, if there is one.
fn sixth<L: Ledger>(alloc: Global, steps: &mut Steps<L>) -> Result<Option<Finding>, Fail> {
    let mut wide = book_of(alloc, SIX, 10, 6)?;
    for _job in 0..5 {
        let _job = wide.claim(alloc);
    }
    next_finding(alloc, &mut wide, steps)
}

/// What a book with this window answers to the finding.
fn offer_to<L: Ledger>(
    alloc: Global,
    file: &str,
    window: u32,
    finding: Finding,
    steps: &mut Steps<L>,
) -> Result<Offered, Fail>
    requires { (1 ≤ window) × (window ≤ 128) }
{
    let mut book = book_of(alloc, file, 10, window)?;
    Ok(offer(alloc, &mut book, finding, 1, steps))
}

/// Offers a finding to a book whose window it is past, and to a book with other settings.
fn out_of_place<R: Abort, L: Ledger>(rt: &R, alloc: Global, blank: Blank) -> Result<(), Fail>
    requires name { blank.name ≡ L.name }
    requires parts { blank.parts ≡ L.parts }
    requires some { 0 < L.parts }
{
    let mut steps = Steps::<L>::start(blank);
    let Some(sixth) = sixth(alloc, &mut steps)? else {
        panic!(rt; "no sixth job")
    };
    let foreign = sixth.copy()?;
    let beyond = offer_to(alloc, SIX, 4, sixth, &mut steps)?;
    assert_eq!(rt; beyond, Offered::Beyond { window_end: 4 });
    assert_eq!(rt;
        offer_to(alloc, OTHER, 6, foreign, &mut steps)?,
        Offered::Foreign
    );
    Ok(())
}

#[test]
fn a_finding_that_is_out_of_place_changes_nothing(rt: HostRuntime) -> Result<(), Fail> {
    out_of_place::<_, Brand>(&rt, rt.alloc(), Blank::new(1))
}

/// Claims up to eight jobs, and runs them.
fn all_findings<L: Ledger>(
    alloc: Global,
    book: &mut Book,
    steps: &mut Steps<L>,
) -> Result<Vec<Finding>, Fail> {
    let mut findings = Vec::new(alloc);
    for _job in 0..8 {
        if let Some(finding) = next_finding(alloc, book, steps)? {
            findings.push(finding)?;
        }
    }
    Ok(findings)
}

/// Offers the findings from the last one claimed to the first. Every third one is lost.
fn offer_some<L: Ledger>(
    alloc: Global,
    book: &mut Book,
    mut findings: Vec<Finding>,
    round: u32,
    steps: &mut Steps<L>,
)
    requires { round ≤ 2000 }
{
    for place in 0..8 {
        if let Some(finding) = findings.pop()
            && (round + place) % 3 > 0
        {
            offer(alloc, book, finding, 1 + place, steps);
        }
    }
}

/// Commits 2000 quanta by findings out of order and without findings.
fn commit_all<L: Ledger>(alloc: Global, book: &mut Book, steps: &mut Steps<L>) -> Result<(), Fail> {
    for round in 0..2000 {
        let findings = all_findings(alloc, book, steps)?;
        offer_some(alloc, book, findings, round, steps);
        book.advance(alloc, 1, steps);
    }
    Ok(())
}

/// How many quanta a book commits so, and the bytes of the world that it ends in.
fn drilled_world<L: Ledger>(alloc: Global, steps: &mut Steps<L>) -> Result<(u64, Vec<u8>), Fail> {
    let mut book = book_of(alloc, CROWDED, 2000, 8)?;
    commit_all(alloc, &mut book, steps)?;
    Ok((book.committed(), bytes_of(alloc, book.world())?))
}

/// The births and deaths of the serial run, and the bytes of the world that it ends in.
fn serial_world(alloc: Global) -> Result<(u64, u64, Vec<u8>), Fail> {
    let setup = setup_of(alloc, CROWDED)?;
    let world = run_serial(alloc, &setup, 2000)?;
    Ok((world.births(), world.deaths(), bytes_of(alloc, &world)?))
}

fn backwards<R: Abort, L: Ledger>(rt: &R, alloc: Global, blank: Blank) -> Result<(), Fail>
    requires name { blank.name ≡ L.name }
    requires parts { blank.parts ≡ L.parts }
    requires some { 0 < L.parts }
{
    let mut steps = Steps::<L>::start(blank);
    let (committed, drilled) = drilled_world(alloc, &mut steps)?;
    let (births, deaths, serial) = serial_world(alloc)?;
    let is_same = drilled.as_slice() == serial.as_slice();
    assert_eq!(rt;
        (committed, births > 100, deaths > 100, is_same),
        (2000, true, true, true)
    );
    Ok(())
}

#[test]
fn findings_in_any_order_end_in_the_serial_world(rt: HostRuntime) -> Result<(), Fail> {
    backwards::<_, Brand>(&rt, rt.alloc(), Blank::new(1))
}
