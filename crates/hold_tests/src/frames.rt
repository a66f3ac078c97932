//! Checkpoint files over desks in memory.

ghost use Rattle.std.specs.Prelude.{◌≡◌, ◌<◌, ◌^◌, IfOk, IfSome, OnOk, length};
ghost use Rattle.desk_io.specs.Desk.{HasNoFault};
ghost use Rattle.test_desks.specs.MemDesk.{state_of};
ghost use Rattle.tierra_model.specs.Ranges.{IsCode};
ghost use Rattle.world_state.specs.Restoring.{IsStateOf};
ghost use Rattle.soup_checkpoint.specs.Hold.{owner_of};
ghost use Rattle.soup_checkpoint.specs.Shelf.{IsAttached};

use bank_format::setup_digest;
use sha2::{Digest, Sha256};
use soup_checkpoint::{HoldFault, Shelf, ShelfFault};
use std::alloc::Global;
use std::fmt::Write;
use std::test::Fail;
use test_desks::{Call, MemDesk};
use tierra_model::{Code, Inoculum, OutOfMemory, SeedList, Settings, Setup, grow_setup};
use world_core::World;

fn two_cells(alloc: Global) -> Result<Code, OutOfMemory>
    ensures code { IfOk result (λ code. IsCode code) }
    ensures long { IfOk result (λ code. length code ≡ 2) }
{
    let mut items = Vec::new(alloc);
    items.push(9)?;
    items.push(26)?;
    Ok(Code { items })
}

// A hundred cells, with one creature at cell 5.
fn first_setup(alloc: Global) -> Result<Setup, OutOfMemory> {
    let mut settings = grow_setup(alloc, two_cells(alloc)?)?.settings;
    settings.soup_size = 100;
    let code = two_cells(alloc)?;
    let mut items = Vec::new(alloc);
    items.push(Inoculum { at: 5, code })?;
    let creatures = SeedList { items };
    Ok(Setup {
        settings,
        creatures,
    })
}

// The same setup, with the creature at cell 6.
fn second_setup(alloc: Global) -> Result<Setup, OutOfMemory> {
    let settings = first_setup(alloc)?.settings;
    let code = two_cells(alloc)?;
    let mut items = Vec::new(alloc);
    items.push(Inoculum { at: 6, code })?;
    let creatures = SeedList { items };
    Ok(Setup {
        settings,
        creatures,
    })
}

// The bytes must be a state of the settings.
fn check_state(alloc: Global, settings: &Settings, bytes: &[u8]) -> Result<(), Fail>
    ensures { OnOk result (IsStateOf settings.now bytes.now) }
{
    let Some(_world) = World::restore(alloc, settings, bytes)? else {
        return Err(Fail::from("no state"));
    };
    Ok(())
}

// The bytes as a state, which they must be.
fn state_of_bytes(alloc: Global, settings: &Settings, items: Vec<u8>) -> Result<Code, Fail>
    ensures state { IfOk result (IsStateOf settings.now) }
    ensures short { IfOk result (λ code. length code < 2 ^ 31) }
{
    check_state(alloc, settings, &items)?;
    if items.len() < 1 << 31 {
        Ok(Code { items })
    } else {
        Err(Fail::from("a long state"))
    }
}

fn bytes_of(alloc: Global, world: World) -> Result<Vec<u8>, Fail> {
    Ok(world.state_bytes(alloc)?.items)
}

// The state at the start of a setup.
fn start_of(alloc: Global, setup: &Setup) -> Result<Vec<u8>, Fail> {
    bytes_of(alloc, World::start(alloc, setup)?)
}

// The state with the creature at cell 5.
fn first_state(alloc: Global) -> Result<Vec<u8>, Fail> {
    start_of(alloc, &first_setup(alloc)?)
}

// The state with the creature at cell 6. It is one of the first setup's settings too.
fn second_state(alloc: Global) -> Result<Vec<u8>, Fail> {
    start_of(alloc, &second_setup(alloc)?)
}

// An open gate, and a frame: the length, the state and its digest.
fn push_frame(file: &mut Vec<u8>, state: &[u8]) -> Result<(), Fail> {
    let len = state.len() as u64;
    file.push(1)?;
    file.extend_from_slice(&len.to_be_bytes()[4..])?;
    file.extend_from_slice(state)?;
    file.extend_from_slice(Sha256::digest(state).as_slice())?;
    Ok(())
}

// The first setup's file up to its first gate.
fn header(alloc: Global) -> Result<Vec<u8>, Fail> {
    let mut file = b"Tierra hold1".to_vec(alloc)?;
    file.extend_from_slice(&setup_digest(alloc, &first_setup(alloc)?)?)?;
    Ok(file)
}

fn file_of(alloc: Global, first: &[u8], second: &[u8]) -> Result<Vec<u8>, Fail> {
    let mut file = header(alloc)?;
    push_frame(&mut file, first)?;
    push_frame(&mut file, second)?;
    file.push(0)?;
    Ok(file)
}

fn two_frames(alloc: Global) -> Result<Vec<u8>, Fail> {
    file_of(alloc, &first_state(alloc)?, &second_state(alloc)?)
}

fn desk_over(alloc: Global, image: Vec<u8>, stop: Option<u64>) -> MemDesk
    ensures { HasNoFault (state_of result) }
{
    MemDesk::new(alloc, image, Vec::new(alloc), Vec::new(alloc), stop)
}

// The calls that a desk had, as a text.
fn calls_of(alloc: Global, desk: &MemDesk) -> Result<String, Fail> {
    let mut text = String::new(alloc);
    for record in desk.calls() {
        match &record.call {
            Call::Len => write!(text, "len ")?,
            Call::Read { at, len } => write!(text, "read {len} at {at} ")?,
            Call::Write { at, piece } => write!(text, "write {} at {at} ", piece.items.len())?,
            Call::TooLong { .. } => write!(text, "too long ")?,
            Call::Sync => write!(text, "sync ")?,
            Call::Tell { .. } => write!(text, "tell ")?,
        }
    }
    Ok(text)
}

// The first setup's shelf over a desk, or none where it is not attached.
fn attached(alloc: Global, desk: &mut MemDesk, setup: &Setup) -> Result<Option<Shelf>, Fail>
    requires { HasNoFault (state_of desk.old) }
    ensures attached { IfOk result (λ o. IfSome o (λ s. IsAttached s (state_of desk.new))) }
    ensures owner { IfOk result (λ o. IfSome o (λ s. s.owner ≡ owner_of setup.now)) }
{
    match Shelf::attach(alloc, desk, setup) {
        Ok((shelf, _)) => Ok(Some(shelf)),
        Err(_) => Ok(None),
    }
}

// The state that an attach for the first setup finds.
fn held_in(alloc: Global, image: Vec<u8>) -> Result<Option<Vec<u8>>, Fail> {
    let setup = first_setup(alloc)?;
    let mut desk = desk_over(alloc, image, None);
    let (_, world) = Shelf::attach(alloc, &mut desk, &setup)?;
    match world {
        None => Ok(None),
        Some(world) => Ok(Some(bytes_of(alloc, world)?)),
    }
}

// The fault that an attach for the first setup meets.
fn fault_of(alloc: Global, image: Vec<u8>) -> Result<Option<HoldFault>, Fail> {
    let mut desk = desk_over(alloc, image, None);
    match Shelf::attach(alloc, &mut desk, &first_setup(alloc)?) {
        Ok(_) => Ok(None),
        Err(ShelfFault::Refused(fault)) => Ok(Some(fault)),
        Err(_) => Err(Fail::from("no fault of the file")),
    }
}

// The calls of an attach for the first setup.
fn calls_over(alloc: Global, image: Vec<u8>) -> Result<String, Fail> {
    let mut desk = desk_over(alloc, image, None);
    attached(alloc, &mut desk, &first_setup(alloc)?)?;
    calls_of(alloc, &desk)
}

#[test]
fn a_fresh_file_gets_its_header(rt: HostRuntime) -> Result<(), Fail> {
    let alloc = rt.alloc();
    let mut desk = desk_over(alloc, Vec::new(alloc), None);
    attached(alloc, &mut desk, &first_setup(alloc)?)?;
    let mut wanted = header(alloc)?;
    wanted.push(0)?;
    assert_eq!(rt; desk.crash(0)?.as_slice(), wanted.as_slice());
    assert!(rt; held_in(alloc, wanted)?.is_none());
    Ok(())
}

#[test]
fn each_cut_of_two_frames_is_fresh_or_damaged(rt: HostRuntime) -> Result<(), Fail> {
    let alloc = rt.alloc();
    let whole = two_frames(alloc)?;
    // A file of less than 45 bytes is fresh. The gate of frame 1 is at 436.
    for len in 0..whole.len() {
        let wanted = if len < 45 {
            None
        } else {
            let frame = u64::from(len > 436);
            Some(HoldFault::Damaged { frame })
        };
        let cut = whole[..len].to_vec(alloc)?;
        assert_eq!(rt; fault_of(alloc, cut)?, wanted, "a cut to {len} bytes");
    }
    Ok(())
}

// Two frames, with one bit changed.
fn changed(alloc: Global, place: usize) -> Result<Vec<u8>, Fail> {
    let mut image = two_frames(alloc)?;
    if let Some(byte) = image.get_mut(place) {
        *byte ^= 4;
    }
    Ok(image)
}

#[test]
fn a_refused_file_is_not_written(rt: HostRuntime) -> Result<(), Fail> {
    let alloc = rt.alloc();
    // The title, the digest of the setup, and each state.
    let rows = [
        (7, HoldFault::NotAHold),
        (12, HoldFault::Foreign),
        (70, HoldFault::Damaged { frame: 0 }),
        (700, HoldFault::Damaged { frame: 1 }),
    ];
    for (place, fault) in rows {
        let answer = fault_of(alloc, changed(alloc, place)?)?;
        assert_eq!(rt; answer, Some(fault));
        let calls = calls_over(alloc, changed(alloc, place)?)?;
        assert_eq!(rt; calls.as_str(), "sync len read 829 at 0 ");
    }
    Ok(())
}

#[test]
fn the_last_frame_must_be_a_state(rt: HostRuntime) -> Result<(), Fail> {
    let alloc = rt.alloc();
    let image = file_of(alloc, &first_state(alloc)?, b"no state")?;
    let answer = fault_of(alloc, image)?;
    assert_eq!(rt; answer, Some(HoldFault::Damaged { frame: 1 }));
    Ok(())
}

#[test]
fn a_frame_before_the_last_may_be_no_state(rt: HostRuntime) -> Result<(), Fail> {
    let alloc = rt.alloc();
    let image = file_of(alloc, b"no state", &first_state(alloc)?)?;
    let held = held_in(alloc, image)?;
    assert_eq!(rt; held, Some(first_state(alloc)?));
    Ok(())
}

// Appends a state: the shelf, or none where the desk stopped.
fn append_one(desk: &mut MemDesk, mut shelf: Shelf, state: &Code) -> Result<Option<Shelf>, Fail>
    requires attached { IsAttached shelf (state_of desk.old) }
    requires state { IsStateOf shelf.owner.settings state.now }
    requires short { length state.now < 2 ^ 31 }
    ensures attached { IfOk result (λ o. IfSome o (λ s. IsAttached s (state_of desk.new))) }
    ensures owner { IfOk result (λ o. IfSome o (λ s. s.owner ≡ shelf.owner)) }
{
    shelf.make_room(state)?;
    match shelf.append(desk, state) {
        Ok(shelf) => Ok(Some(shelf)),
        Err(_) => Ok(None),
    }
}

// Appends two states, as far as the desk goes: how many were appended.
fn append_both(desk: &mut MemDesk, shelf: Shelf, first: &Code, second: &Code) -> Result<usize, Fail>
    requires attached { IsAttached shelf (state_of desk.old) }
    requires first { IsStateOf shelf.owner.settings first.now }
    requires first_short { length first.now < 2 ^ 31 }
    requires second { IsStateOf shelf.owner.settings second.now }
    requires second_short { length second.now < 2 ^ 31 }
{
    match append_one(desk, shelf, first)? {
        None => Ok(0),
        Some(shelf) => Ok(1 + usize::from(append_one(desk, shelf, second)?.is_some())),
    }
}

// Attaches the first setup's file and appends both states to it, as far as the desk goes: how many were appended.
fn append_two(alloc: Global, desk: &mut MemDesk) -> Result<usize, Fail>
    requires { HasNoFault (state_of desk.old) }
{
    let setup = first_setup(alloc)?;
    let first = state_of_bytes(alloc, &setup.settings, first_state(alloc)?)?;
    let second = state_of_bytes(alloc, &setup.settings, second_state(alloc)?)?;
    match attached(alloc, desk, &setup)? {
        None => Ok(0),
        Some(shelf) => append_both(desk, shelf, &first, &second),
    }
}

#[test]
fn states_are_appended_frame_by_frame(rt: HostRuntime) -> Result<(), Fail> {
    let alloc = rt.alloc();
    let mut desk = desk_over(alloc, Vec::new(alloc), None);
    assert_eq!(rt; append_two(alloc, &mut desk)?, 2);
    assert_eq!(rt; desk.starved(), 0);
    let image = desk.crash(0)?;
    assert_eq!(rt; image.as_slice(), two_frames(alloc)?.as_slice());
    assert_eq!(rt; held_in(alloc, image)?, Some(second_state(alloc)?));
    Ok(())
}

#[test]
fn a_gate_is_opened_behind_a_durable_frame(rt: HostRuntime) -> Result<(), Fail> {
    let alloc = rt.alloc();
    let mut desk = desk_over(alloc, Vec::new(alloc), None);
    append_two(alloc, &mut desk)?;
    assert_eq!(rt;
        calls_of(alloc, &desk)?.as_str(),
        "sync len write 1 at 0 sync write 44 at 1 sync write 1 at 0 sync \
         write 392 at 45 sync write 1 at 44 sync write 392 at 437 sync write 1 at 436 sync "
    );
    Ok(())
}

// What a crash leaves of the two states, if all calls fail from a given one on: how many were appended, and how many
// are held.
fn stopped(alloc: Global, stop: u64, pick: u32) -> Result<(usize, usize), Fail>
    requires { pick < 4 }
{
    let mut desk = desk_over(alloc, Vec::new(alloc), Some(stop));
    let appended = append_two(alloc, &mut desk)?;
    Ok((appended, count_in(alloc, desk.crash(pick)?)?))
}

// How many of the two states a file holds.
fn count_in(alloc: Global, image: Vec<u8>) -> Result<usize, Fail> {
    match held_in(alloc, image)? {
        None => Ok(0),
        Some(held) if held.as_slice() == first_state(alloc)?.as_slice() => Ok(1),
        Some(_) => Ok(2),
    }
}

#[test]
fn a_stop_at_each_call_loses_nothing(rt: HostRuntime) -> Result<(), Fail> {
    let alloc = rt.alloc();
    for stop in 1..=17u64 {
        for pick in 0..4u32 {
            let (appended, held) = stopped(alloc, stop, pick)?;
            assert_eq!(rt; appended, (stop as usize).saturating_sub(9) / 4);
            assert!(rt; appended <= held && held <= appended + 1);
        }
    }
    Ok(())
}
