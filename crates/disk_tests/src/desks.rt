//! Small runs of the desk in memory.

ghost use Rattle.std.specs.Prelude.{◌≤◌, ◌<◌, IfOk, IfSome, length};
ghost use Rattle.desk_io.specs.Desk.{HasNoFault};
ghost use Rattle.test_desks.specs.MemDesk.{state_of};

use desk_io::{Desk, DiskFailed};
use std::alloc::Global;
use std::test::Fail;
use test_desks::{Call, MemDesk};

// Two bytes after a closed gate at place 1, and then the gate opened.
fn append<D: Desk>(desk: &mut D) -> Result<(), DiskFailed>
    requires sound { HasNoFault (D.state desk.old) }
    requires inside { IfSome (D.state desk.old).reads (λ xs. 2 ≤ length xs) }
{
    desk.write_at(2, &[7, 0])?;
    desk.sync()?;
    desk.write_at(1, &[1])?;
    desk.sync()
}

// A desk that had these calls, of which those from call `stop` on failed, and whether none failed.
fn appended(alloc: Global, stop: Option<u64>) -> Result<(MemDesk, bool), Fail> {
    let image = [9, 0].to_vec(alloc)?;
    let mut desk = MemDesk::new(alloc, image, Vec::new(alloc), Vec::new(alloc), stop);
    let done = append(&mut desk).is_ok();
    Ok((desk, done))
}

// Whether this crash leaves this image.
fn is_left(desk: &MemDesk, pick: u32, image: &[u8]) -> Result<bool, Fail>
    requires { pick < 4 }
{
    Ok(desk.crash(pick)?.as_slice() == image)
}

// A desk whose calls fail from that one on: whether all succeeded, how many found no memory, and whether each crash
// leaves its image.
fn crashed(
    alloc: Global,
    stop: Option<u64>,
    images: &[&[u8]; 4],
) -> Result<(bool, u64, [bool; 4]), Fail> {
    let (desk, done) = appended(alloc, stop)?;
    let left = [
        is_left(&desk, 0, images[0])?,
        is_left(&desk, 1, images[1])?,
        is_left(&desk, 2, images[2])?,
        is_left(&desk, 3, images[3])?,
    ];
    Ok((done, desk.starved(), left))
}

#[test]
fn a_crash_tears_the_writes_since_the_last_sync(rt: HostRuntime) -> Result<(), Fail> {
    // The images of the four crashes: with the bytes not yet synced, with the gate not yet synced, and with all synced.
    let bytes: [&[u8]; 4] = [&[9, 0], &[9, 0, 7, 0], &[9, 0, 255, 255], &[9, 0, 1, 1]];
    let gate: [&[u8]; 4] = [&[9, 0, 7, 0], &[9, 1, 7, 0], &[9, 255, 7, 0], &[9, 1, 7, 0]];
    let all: [&[u8]; 4] = [&[9, 1, 7, 0], &[9, 1, 7, 0], &[9, 1, 7, 0], &[9, 1, 7, 0]];
    // The number of the call from which on all fail, and these images.
    let rows: [(Option<u64>, &[&[u8]; 4]); 5] = [
        (Some(1), &bytes),
        (Some(2), &bytes),
        (Some(3), &gate),
        (Some(4), &gate),
        (None, &all),
    ];
    for (stop, images) in rows {
        let seen = crashed(rt.alloc(), stop, images)?;
        assert_eq!(rt; seen, (stop.is_none(), 0, [true; 4]), "{stop:?}");
    }
    Ok(())
}

// A desk over three bytes. Its disk call 4, its tell 3 and its calls from the seventh on fail.
fn listed_desk(alloc: Global) -> Result<MemDesk, Fail>
    ensures sound { IfOk result (λ desk. HasNoFault (state_of desk)) }
    ensures inside { IfOk result (λ desk. IfSome (state_of desk).reads (λ xs. 3 ≤ length xs)) }
{
    let image = [1, 2, 3].to_vec(alloc)?;
    let disk_fails = [4].to_vec(alloc)?;
    let tell_fails = [3].to_vec(alloc)?;
    Ok(MemDesk::new(alloc, image, disk_fails, tell_fails, Some(7)))
}

// Makes six calls, of which the last one may fail: the file's length, its two bytes at place 1, and whether it failed.
fn make_six<D: Desk>(desk: &mut D) -> Result<(u64, [u8; 2], bool), Fail>
    requires sound { HasNoFault (D.state desk.old) }
    requires inside { IfSome (D.state desk.old).reads (λ xs. 3 ≤ length xs) }
{
    desk.tell(b"saved ")?;
    let len = desk.len()?;
    let mut buf = [0; 2];
    desk.read_at(1, &mut buf)?;
    desk.write_at(3, &[4])?;
    desk.tell(b"0080aaa")?;
    Ok((len, buf, desk.sync().is_err()))
}

#[test]
fn a_listed_call_fails(rt: HostRuntime) -> Result<(), Fail> {
    let mut desk = listed_desk(rt.alloc())?;
    assert_eq!(rt; make_six(&mut desk)?, (3, [2, 3], true));
    assert_eq!(rt; desk.told().as_slice(), b"saved 0080aaa".as_slice());
    Ok(())
}

// How many calls a desk had, how many of them were tells, and how many failed.
fn counts(desk: &MemDesk) -> (usize, usize, usize) {
    let calls = desk.calls();
    let tells = calls.iter().filter(|r| r.call.is_tell()).count();
    let failed = calls.iter().filter(|r| r.failed).count();
    (calls.len(), tells, failed)
}

// Whether the sixth call was a sync.
fn is_sixth_sync(desk: &MemDesk) -> bool {
    match desk.calls().get(5) {
        Some(record) => matches!(record.call, Call::Sync),
        None => false,
    }
}

#[test]
fn all_calls_are_recorded(rt: HostRuntime) -> Result<(), Fail> {
    let mut desk = listed_desk(rt.alloc())?;
    make_six(&mut desk)?;
    assert_eq!(rt; (counts(&desk), is_sixth_sync(&desk)), ((6, 2, 1), true));
    Ok(())
}

#[test]
fn a_listed_tell_tells_nothing(rt: HostRuntime) -> Result<(), Fail> {
    let alloc = rt.alloc();
    let first = [1].to_vec(alloc)?;
    let mut silent = MemDesk::new(alloc, Vec::new(alloc), Vec::new(alloc), first, None);
    let failed = silent.tell(b"saved ").is_err();
    assert_eq!(rt;
        (failed, silent.told().len(), silent.starved()),
        (true, 0, 0)
    );
    Ok(())
}
