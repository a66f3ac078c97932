//! Runs that keep checkpoints.

use crate::runs::{call_over, is_end};
use soup_checkpoint::HoldFault;
use soup_top::Status;
use std::alloc::Global;
use std::sync::Wait;
use std::test::Fail;
use std::thread::Threads;
use test_calls::{Ended, Given, PLAIN, call, call_with, line_of};
use test_soups::ancestor_file;
use tierra_model::OutOfMemory;

const WORDS: &str = "hold --quanta 100 --every 34";

// What the ancestor's run of 100 quanta tells, where it begins anew.
const TEXT: &str = "held 34\nheld 68\nquanta 100\nbirths 2\ndeaths 0\nliving 3\nfilled 400\n\
    front 2 ip 141 ax 319 bx 159 cx 1 dx 4 flag 0 errors 0\ngenotypes 1\nkept 1\n0080aaa 3 3\n";

// A letter for each of its calls: the file is made, two states are appended, and the line of each is told.
const CALLS: &str = "SLWSWSWSWSWSTWSWSTT";

/// The checkpoints of the ancestor's run, which is done with its text and its calls.
fn held<R: Threads + Wait + Sync>(rt: &R, alloc: Global, source: &str) -> Result<Vec<u8>, Fail> {
    let ended = call(rt, alloc, WORDS, source)?;
    if is_end(&ended, &Status::Done, TEXT, CALLS) {
        Ok(ended.file(0)?)
    } else {
        Err(Fail::from("the run ended in another way"))
    }
}

#[test]
fn a_run_goes_on_from_its_checkpoint(rt: HostRuntime) -> Result<(), Fail> {
    let alloc = rt.alloc();
    let source = ancestor_file(alloc, "")?;
    let image = held(&rt, alloc, &source)?;
    let longer = "hold --quanta 101 --every 34";
    let ended = call_over(&rt, alloc, longer, &source, &image)?;
    let is_told = ended.told.as_slice().starts_with(b"quanta 101\nbirths 3\n");
    assert!(rt; ended.status == Status::Done && is_told);
    Ok(())
}

/// The first lines that are told.
fn first_lines(count: u64) -> &'static str {
    match count {
        0 => "",
        1 => "held 34\n",
        _ => "held 34\nheld 68\n",
    }
}

/// What a run tells that goes on from the checkpoint of that number; 0 stands for the start.
fn rest_from(number: u64) -> &'static str {
    TEXT.strip_prefix(first_lines(number)).unwrap_or("")
}

/// Whether a run over what each crash leaves goes on from the last checkpoint that was told or a later one.
fn goes_on_from_each_crash<R: Threads + Wait + Sync>(
    rt: &R,
    alloc: Global,
    source: &str,
    ended: &Ended,
    told: u64,
) -> Result<bool, OutOfMemory> {
    for pick in 0..4u32 {
        let again = call_over(rt, alloc, WORDS, source, &ended.file(pick)?)?;
        if !(told..3).any(|number| again.is_done(rest_from(number))) {
            return Ok(false);
        }
    }
    Ok(true)
}

/// Whether the run whose calls fail from one on ends with that fault and so many lines, and can go on from each crash.
fn stopped_at<R: Threads + Wait + Sync>(
    rt: &R,
    alloc: Global,
    source: &str,
    stop: u64,
    want: &Status,
    lines: u64,
) -> Result<[bool; 3], OutOfMemory> {
    let given = Given {
        stop: Some(stop),
        ..PLAIN
    };
    let ended = call_with(rt, alloc, WORDS, source.as_bytes(), &given)?;
    Ok([
        ended.status == *want,
        ended.told.as_slice() == first_lines(lines).as_bytes(),
        goes_on_from_each_crash(rt, alloc, source, &ended, lines)?,
    ])
}

#[test]
fn a_stop_at_each_call_leaves_a_true_checkpoint(rt: HostRuntime) -> Result<(), Fail> {
    let alloc = rt.alloc();
    let source = ancestor_file(alloc, "soup_size = 1000\n")?;
    for stop in 1..=19u64 {
        let want = if matches!(stop, 13 | 18 | 19) {
            Status::TellFault
        } else {
            Status::DiskFault
        };
        // Each state has four disk calls and a tell after the eight of the attach.
        let lines = stop.saturating_sub(9) / 5;
        let seen = stopped_at(&rt, alloc, &source, stop, &want, lines)?;
        assert_eq!(rt; seen, [true; 3], "stop {stop}");
    }
    Ok(())
}

#[test]
fn a_shorter_run_refuses_the_checkpoint(rt: HostRuntime) -> Result<(), Fail> {
    let alloc = rt.alloc();
    let source = ancestor_file(alloc, "")?;
    let image = held(&rt, alloc, &source)?;
    let ended = call_over(&rt, alloc, "hold --quanta 50", &source, &image)?;
    let want = Status::HoldRefused(HoldFault::Beyond { held: 68 });
    assert!(rt; is_end(&ended, &want, "", "SLRR"));
    Ok(())
}

/// Whether a call that refuses a checkpoint has exit number 8 and a line for standard error with this reason.
fn has_line(alloc: Global, fault: HoldFault, reason: &str) -> Result<bool, OutOfMemory> {
    let status = Status::HoldRefused(fault);
    let line = format!(in alloc; "tierra: {reason}\n")?;
    Ok(status.number() == 8 && line_of(alloc, &status)?.as_slice() == line.as_bytes())
}

#[test]
fn refused_checkpoints_have_their_line(rt: HostRuntime) -> Result<(), Fail> {
    let alloc = rt.alloc();
    let rows = [
        (HoldFault::NotAHold, "tierra.hold is not a checkpoint"),
        (HoldFault::Foreign, "tierra.hold belongs to another setup"),
        (
            HoldFault::Damaged { frame: 3 },
            "tierra.hold: frame 3 is damaged",
        ),
        (
            HoldFault::Beyond { held: 68 },
            "tierra.hold is at quantum 68",
        ),
        (
            HoldFault::TooLarge {
                quantum: 34,
                bytes: 1 << 31,
            },
            "tierra.hold: state of quantum 34 is too large",
        ),
    ];
    for (fault, reason) in rows {
        assert!(rt; has_line(alloc, fault, reason)?, "{reason}");
    }
    Ok(())
}
