//! Runs over a file in memory.

ghost use Rattle.std.specs.Prelude.{◌<◌, ◌≤◌};
ghost use Rattle.desk_io.specs.Desk.{HasNoFault};
ghost use Rattle.test_desks.specs.MemDesk.{state_of};

use soup_checkpoint::HoldFault;
use soup_hold::{HoldStop, hold};
use std::alloc::Global;
use std::test::Fail;
use test_desks::MemDesk;
use test_soups::{ancestor_file, setup_of};

/// A soup file of another creature.
const OTHER: &str = "[[creature]]\nat = 0\ncode = \"inc_b mov_iab\"\n";

/// A run that ended: its answer, what it told, and what a crash then left.
#[derive(Drop)]
struct Ended {
    answer: Result<(), HoldStop>,
    told: Vec<u8>,
    left: Vec<u8>,
}

// Runs a soup file on a desk.
fn run_desk(
    alloc: Global,
    desk: &mut MemDesk,
    file: &str,
    quanta: u64,
    every: u64,
) -> Result<Result<(), HoldStop>, Fail>
    requires sound { HasNoFault (state_of desk.old) }
    requires few { quanta ≤ 4000000 }
    requires every { 1 ≤ every }
{
    let setup = setup_of(alloc, file)?;
    Ok(hold(alloc, desk, &setup, quanta, every))
}

// Runs on the image over a desk whose calls all fail from a given one on, and takes the image of a crash by number.
fn run(
    alloc: Global,
    file: &str,
    quanta: u64,
    every: u64,
    image: &[u8],
    stop: Option<u64>,
    pick: u32,
) -> Result<Ended, Fail>
    requires few { quanta ≤ 4000000 }
    requires every { 1 ≤ every }
    requires pick { pick < 4 }
{
    let image = image.to_vec(alloc)?;
    let mut desk = MemDesk::new(alloc, image, Vec::new(alloc), Vec::new(alloc), stop);
    let answer = run_desk(alloc, &mut desk, file, quanta, every)?;
    let told = desk.told().as_slice().to_vec(alloc)?;
    let left = desk.crash(pick)?;
    Ok(Ended { answer, told, left })
}

// Runs the ancestor on, as `run` does. Its first daughter is born in quantum 34.
fn grow(
    alloc: Global,
    quanta: u64,
    every: u64,
    image: &[u8],
    stop: Option<u64>,
    pick: u32,
) -> Result<Ended, Fail>
    requires few { quanta ≤ 4000000 }
    requires every { 1 ≤ every }
    requires pick { pick < 4 }
{
    run(
        alloc,
        &ancestor_file(alloc, "")?,
        quanta,
        every,
        image,
        stop,
        pick,
    )
}

const AFTER_100: &[u8] = b"quanta 100\nbirths 2\ndeaths 0\nliving 3\nfilled 400\n\
    front 2 ip 141 ax 319 bx 159 cx 1 dx 4 flag 0 errors 0\ngenotypes 1\nkept 1\n0080aaa 3 3\n";

// Whether the text is these lines and the report of the ancestor's 100 quanta.
fn is_text(text: &[u8], lines: &[u8]) -> bool {
    text.len() == lines.len() + AFTER_100.len()
        && text.starts_with(lines)
        && text.ends_with(AFTER_100)
}

// Whether the run from this image tells these lines and that report, and what it leaves.
fn runs_on(alloc: Global, every: u64, image: &[u8], lines: &[u8]) -> Result<Option<Vec<u8>>, Fail>
    requires { 1 ≤ every }
{
    let ended = grow(alloc, 100, every, image, None, 0)?;
    if ended.answer != Ok(()) || !is_text(&ended.told, lines) {
        return Ok(None);
    }
    Ok(Some(ended.left))
}

#[test]
fn a_run_goes_on_from_its_last_checkpoint(rt: HostRuntime) -> Result<(), Fail> {
    let alloc = rt.alloc();
    let Some(file) = runs_on(alloc, 34, b"", b"held 34\nheld 68\n")? else {
        return Err(Fail::from("the first run"));
    };
    assert!(rt; runs_on(alloc, 34, &file, b"")?.is_some());
    assert!(rt; runs_on(alloc, 50, &file, b"held 100\n")?.is_some());
    Ok(())
}

#[test]
fn a_longer_run_tells_a_later_report(rt: HostRuntime) -> Result<(), Fail> {
    let alloc = rt.alloc();
    let first = grow(alloc, 100, 34, b"", None, 0)?;
    let longer = grow(alloc, 101, 34, &first.left, None, 0)?;
    assert!(rt;
        longer
            .told
            .as_slice()
            .starts_with(b"quanta 101\nbirths 3\n")
    );
    assert!(rt; longer.left.as_slice() == first.left.as_slice());
    Ok(())
}

#[test]
fn other_distances_hold_other_quanta(rt: HostRuntime) -> Result<(), Fail> {
    let alloc = rt.alloc();
    assert!(rt; runs_on(alloc, 100, b"", b"held 100\n")?.is_some());
    assert!(rt; runs_on(alloc, 101, b"", b"")?.is_some());
    assert!(rt; runs_on(alloc, 4_000_000, b"", b"")?.is_some());
    assert!(rt; runs_on(alloc, 50, b"", b"held 50\nheld 100\n")?.is_some());
    Ok(())
}

// Whether the run that was stopped at a call, made again over what a crash left, tells the end of its text.
fn comes_to_the_same_end(alloc: Global, stop: u64, pick: u32) -> Result<bool, Fail>
    requires { pick < 4 }
{
    let stopped = grow(alloc, 100, 34, b"", Some(stop), pick)?;
    let again = grow(alloc, 100, 34, &stopped.left, None, 0)?;
    Ok(
        again.answer == Ok(())
            && (is_text(&again.told, b"held 34\nheld 68\n")
                || is_text(&again.told, b"held 68\n")
                || is_text(&again.told, b"")),
    )
}

#[test]
fn a_run_that_was_stopped_comes_to_the_same_end(rt: HostRuntime) -> Result<(), Fail> {
    for stop in 1..=19 {
        for pick in 0..3 {
            assert!(rt;
                comes_to_the_same_end(rt.alloc(), stop, pick)?,
                "{stop} {pick}"
            );
        }
    }
    Ok(())
}

// Whether the image is refused to a run of 100 quanta for the fault, told nothing, and left as it is.
fn is_refused(
    alloc: Global,
    file: &str,
    quanta: u64,
    image: &[u8],
    fault: HoldFault,
) -> Result<bool, Fail>
    requires { quanta ≤ 4000000 }
{
    let ended = run(alloc, file, quanta, 34, image, None, 0)?;
    Ok(
        ended.answer == Err(HoldStop::Refused(fault))
            && ended.told.is_empty()
            && ended.left.as_slice() == image,
    )
}

#[test]
fn other_files_are_refused(rt: HostRuntime) -> Result<(), Fail> {
    let alloc = rt.alloc();
    let first = grow(alloc, 68, 34, b"", None, 0)?;
    let file = ancestor_file(alloc, "")?;
    let beyond = HoldFault::Beyond { held: 68 };
    assert!(rt; is_refused(alloc, &file, 50, &first.left, beyond)?);
    assert!(rt; is_refused(alloc, OTHER, 100, &first.left, HoldFault::Foreign)?);
    assert!(rt; is_refused(alloc, &file, 100, &[98; 100], HoldFault::NotAHold)?);
    Ok(())
}

#[test]
fn a_damaged_file_is_refused(rt: HostRuntime) -> Result<(), Fail> {
    let alloc = rt.alloc();
    let file = ancestor_file(alloc, "")?;
    let mut image = grow(alloc, 34, 34, b"", None, 0)?.left;
    if let Some(byte) = image.get_mut(1000) {
        *byte ^= 1;
    }
    assert!(rt; is_refused(alloc, &file, 100, &image, HoldFault::Damaged { frame: 0 })?);
    Ok(())
}
