//! Schedules by hand, and schedules that are made from numbers.

ghost use Rattle.std.specs.Prelude.{◌≤◌, All, IfOk};
ghost use Rattle.schedule_drill.specs.Moves.{IsOfHand};

use commit_book::Book;
use report_text::state_line;
use schedule_drill::{Move, MoveList, Played, Tally, drill_text, moves_from, play};
use serial_slicer::run_serial;
use std::alloc::Global;
use std::process::Abort;
use std::test::Fail;
use test_soups::{TWO, setup_of};
use tierra_model::{Now, OutOfMemory, Text};
use world_core::World;

/// The move of a letter and a digit: claim, offer, repeat, lose or advance, by hand 1 to 4.
fn move_of(letter: u8, digit: u8) -> Move
    ensures { IsOfHand result }
{
    let hand = 1 + u32::from(digit - digit.min(b'1')) % 4;
    match letter {
        b'c' => Move::Claim { hand },
        b'o' => Move::Offer { hand },
        b'r' => Move::Repeat { hand },
        b'l' => Move::Lose { hand },
        _ => Move::Advance { hand },
    }
}

/// The moves of a text such as `c1 o1`.
fn moves_of(alloc: Global, text: &str) -> Result<MoveList, OutOfMemory>
    ensures { IfOk result (λ m. All IsOfHand m) }
{
    let mut items = Vec::new(alloc);
    for word in text.as_bytes().chunks(3) {
        if let [letter, digit, ..] = word {
            items.push(move_of(*letter, *digit))?;
        }
    }
    Ok(MoveList { items })
}

/// The moves over this many quanta of a soup file.
fn played(alloc: Global, file: &str, quanta: u64, moves: &str) -> Result<Played, Fail>
    requires { (1 ≤ quanta) × (quanta ≤ 2) }
{
    let setup = setup_of(alloc, file)?;
    let moves = moves_of(alloc, moves)?;
    Ok(play(alloc, setup, quanta, &moves)?)
}

/// The world of the two creatures after the serial run of two quanta.
fn serial_world(alloc: Global) -> Result<World, Fail> {
    Ok(run_serial(alloc, &setup_of(alloc, TWO)?, 2)?)
}

fn bytes_of(alloc: Global, world: &World) -> Result<Vec<u8>, OutOfMemory> {
    Ok(world.state_bytes(alloc)?.items)
}

/// Whether the world of a book is the serial run's.
fn is_serial(alloc: Global, book: &Book) -> Result<bool, Fail> {
    let drilled = bytes_of(alloc, book.world())?;
    let serial = bytes_of(alloc, &serial_world(alloc)?)?;
    Ok(drilled.as_slice() == serial.as_slice())
}

/// The numbers of a tally.
fn numbers_of(tally: &Tally) -> [u64; 8] {
    [
        tally.fresh,
        tally.missing,
        tally.stale,
        tally.kept,
        tally.twice,
        tally.late,
        tally.full,
        tally.idle,
    ]
}

/// What the moves leave of the two creatures: the numbers of the tally, and whether the world is the serial run's.
fn left_by(alloc: Global, moves: &str) -> Result<([u64; 8], bool), Fail> {
    let played = played(alloc, TWO, 2, moves)?;
    let is_serial = is_serial(alloc, &played.book)?;
    Ok((numbers_of(&played.tally), is_serial))
}

#[test]
fn schedules_by_hand(rt: HostRuntime) -> Result<(), Fail> {
    // fresh, missing, stale, kept, twice, late, full and idle
    let rows = [
        ("c1 c2 o2 o1", [1, 0, 1, 1, 0, 0, 0, 0]),
        ("c1 r1 o1 c1 l1", [1, 1, 0, 0, 0, 1, 0, 0]),
        ("", [0, 2, 0, 0, 0, 0, 0, 0]),
        ("o1 r2 l3", [0, 2, 0, 0, 0, 0, 0, 3]),
        ("c1 c1 c2 c3", [0, 2, 0, 0, 0, 0, 1, 1]),
        ("c1 c2 r2 o2 o1", [1, 0, 1, 1, 1, 0, 0, 0]),
        ("a1 a2 a3 c4", [0, 2, 0, 0, 0, 0, 0, 2]),
        ("c1 a2 o1", [0, 2, 0, 0, 0, 1, 0, 0]),
    ];
    for (moves, numbers) in rows {
        let left = left_by(rt.alloc(), moves)?;
        assert_eq!(rt; left, (numbers, true), "{moves}");
    }
    Ok(())
}

/// In one slice creature 1 takes a block, copies, errs, gives the block up, kills creature 2 to take a larger one,
/// copies and breeds.
const EACH_EVENT: &str = r#"
soup_size = 100
slice_size = 14
mal_mult = 100
fill_percent = 100
move_percent = 0
[[creature]]
at = 0
code = "zero or1 shl shl shl shl mal mov_iab jmp shl shl mal mov_iab divide"
[[creature]]
at = 50
code = "nop_1 nop_1 nop_1"
"#;

/// Creature 1 copies its first cell over itself a thousand times in one slice.
const THOUSAND_WRITES: &str = r#"
soup_size = 100
slice_size = 2001
[[creature]]
at = 0
code = "nop_1 mov_iab jmpb nop_0 zero"
"#;

/// The births, the deaths, the cells that are owned, and the instruction pointer of the front creature.
fn counts_of(world: &World) -> [u64; 4] {
    let ip = u64::from(world.front().ip);
    [
        world.births(),
        world.deaths(),
        u64::from(world.filled()),
        ip,
    ]
}

/// The cells that are not 0, each with its place.
fn cells_of(alloc: Global, world: &World) -> Result<Vec<(u32, u8)>, OutOfMemory> {
    let mut cells = Vec::new(alloc);
    for at in 0..world.settings().soup_size {
        let value = world.cell(at);
        if value != 0 {
            cells.push((at, value))?;
        }
    }
    Ok(cells)
}

/// The creatures in the reaper queue, each with its errors.
fn queue_of(alloc: Global, world: &World) -> Result<Vec<(u64, u64)>, OutOfMemory> {
    let mut queue = Vec::new(alloc);
    for place in 0..world.yard_len() {
        let standing = world.standing(place);
        queue.push((standing.id, standing.errors))?;
    }
    Ok(queue)
}

/// What a world has: its counts, its cells and its queue.
#[derive(Drop)]
struct Looks {
    counts: [u64; 4],
    cells: Vec<(u32, u8)>,
    queue: Vec<(u64, u64)>,
}

fn looks_of(alloc: Global, world: &World) -> Result<Looks, OutOfMemory> {
    Ok(Looks {
        counts: counts_of(world),
        cells: cells_of(alloc, world)?,
        queue: queue_of(alloc, world)?,
    })
}

/// What the world of a soup file has after its first quantum, played with these moves.
fn committed(alloc: Global, file: &str, moves: &str) -> Result<Looks, Fail> {
    let played = played(alloc, file, 1, moves)?;
    Ok(looks_of(alloc, played.book.world())?)
}

/// Commits the first quantum of a soup file, and compares what its world has then. The quantum is run by the book where
/// there are no moves, and otherwise by hand 1.
fn commit<R: Abort>(
    rt: &R,
    alloc: Global,
    file: &str,
    counts: [u64; 4],
    cells: &[(u32, u8)],
    queue: &[(u64, u64)],
) -> Result<(), Fail> {
    for moves in ["", "c1 o1"] {
        let looks = committed(alloc, file, moves)?;
        assert_eq!(rt;
            (looks.counts, looks.cells.as_slice(), looks.queue.as_slice()),
            (counts, cells, queue),
            "{moves}"
        );
    }
    Ok(())
}

#[test]
fn a_quantum_of_each_event_is_committed(rt: HostRuntime) -> Result<(), Fail> {
    let counts = [1, 1, 78, 14];
    let cells = [
        (0, 4),
        (1, 2),
        (2, 3),
        (3, 3),
        (4, 3),
        (5, 3),
        (6, 30),
        (7, 26),
        (8, 20),
        (9, 3),
        (10, 3),
        (11, 30),
        (12, 26),
        (13, 31),
        (14, 4), // the copy
        (50, 1), // the dead lie there still
        (51, 1),
        (52, 1),
    ];
    let queue = [(1, 1), (3, 0)];
    commit(&rt, rt.alloc(), EACH_EVENT, counts, &cells, &queue)
}

#[test]
fn a_quantum_of_a_thousand_writes_is_committed(rt: HostRuntime) -> Result<(), Fail> {
    let counts = [0, 0, 5, 1];
    let cells = [(0, 1), (1, 26), (2, 21), (4, 4)];
    commit(&rt, rt.alloc(), THOUSAND_WRITES, counts, &cells, &[(1, 0)])
}

/// The text of the drill of a number.
fn drilled(alloc: Global, number: u64) -> Result<Text, Fail> {
    Ok(drill_text(alloc, setup_of(alloc, TWO)?, 2, number)?)
}

fn line_of(alloc: Global, world: &World) -> Result<Text, OutOfMemory> {
    state_line(alloc, world)
}

fn moves_made(alloc: Global, number: u64, quanta: u64) -> Result<usize, OutOfMemory> {
    Ok(moves_from(alloc, number, quanta)?.items.len())
}

#[test]
fn a_schedule_of_any_number_ends_alike(rt: HostRuntime) -> Result<(), Fail> {
    let alloc = rt.alloc();
    assert_eq!(rt; moves_made(alloc, 0, 2)?, 8);
    assert_eq!(rt; moves_made(alloc, 7, 4_000_000)?, 400_000);
    let line = line_of(alloc, &serial_world(alloc)?)?;
    for number in [0, 1, u64::MAX] {
        let text = drilled(alloc, number)?;
        assert!(rt;
            text.items.as_slice().ends_with(line.items.as_slice()),
            "{number}"
        );
    }
    Ok(())
}
