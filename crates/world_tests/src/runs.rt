//! Runs of one creature at a time.

use crate::looks::{bytes_of, run_of, told_again};
use std::alloc::Global;
use std::test::Fail;
use test_soups::{ancestor_file, setup_of};
use tierra_model::{Creature, Effort, Now, OutOfMemory, Setup};
use world_core::World;

fn counts_line(alloc: Global, world: &World) -> Result<String, OutOfMemory> {
    let (births, deaths) = (world.births(), world.deaths());
    let (living, filled) = (world.yard_len(), world.filled());
    format!(in alloc; "births {births} deaths {deaths} living {living} filled {filled}")
}

fn front_line(alloc: Global, it: &Creature) -> Result<String, OutOfMemory> {
    format!(in alloc; "front {} ip {} ax {} bx {}", it.id, it.ip, it.ax, it.bx)
}

fn rest_line(alloc: Global, it: &Creature) -> Result<String, OutOfMemory> {
    format!(in alloc;
        "cx {} dx {} flag {} errors {}",
        it.cx, it.dx, it.flag, it.errors
    )
}

/// The counts of a world, and the creature at the front of the slicer queue.
fn line_of(alloc: Global, world: &World) -> Result<String, OutOfMemory> {
    let counts = counts_line(alloc, world)?;
    let front = front_line(alloc, world.front())?;
    let rest = rest_line(alloc, world.front())?;
    format!(in alloc; "{counts} {front} {rest}")
}

/// The sum over all cells of the cell's number, counted from 1, times what it holds.
fn weight_of(world: &World) -> u64 {
    let mut weight: u64 = 0;
    for at in 0..world.settings().soup_size {
        let cell = u64::from(world.cell(at));
        weight = weight.wrapping_add((u64::from(at) + 1) * cell);
    }
    weight
}

/// The line and the weight of the world after this many quanta of a soup file.
fn run_file(alloc: Global, file: &str, quanta: u16) -> Result<(String, u64), Fail> {
    let world = run_of(alloc, &setup_of(alloc, file)?, quanta)?;
    Ok((line_of(alloc, &world)?, weight_of(&world)))
}

/// The first and the second effort of genotype 0.
fn efforts_of(world: &World) -> (Option<Effort>, Option<Effort>) {
    if world.genotypes().len() == 0 {
        return (None, None);
    }
    (world.first(0), world.second(0))
}

/// The line of the world after this many quanta, and what the first and the second daughter cost.
fn bred(
    alloc: Global,
    setup: &Setup,
    quanta: u16,
) -> Result<(String, (Option<Effort>, Option<Effort>)), OutOfMemory> {
    let world = run_of(alloc, setup, quanta)?;
    Ok((line_of(alloc, &world)?, efforts_of(&world)))
}

/// The soup of the ancestor, with the usual settings.
fn ancestor_setup(alloc: Global) -> Result<Setup, Fail> {
    setup_of(alloc, &ancestor_file(alloc, "")?)
}

/// What the first and the second daughter of the ancestor cost.
const FIRST: Option<Effort> = Some(Effort {
    ran: 839,
    moved: 80,
});

const SECOND: Option<Effort> = Some(Effort {
    ran: 813,
    moved: 80,
});

/// How many quanta the ancestor's soup runs, and the expected result.
const BRED: [(u16, &str, (Option<Effort>, Option<Effort>)); 5] = [
    (
        33,
        "births 0 deaths 0 living 1 filled 160 front 1 ip 61 ax 159 bx 79 cx 1 dx 4 flag 0 errors 0",
        (None, None),
    ),
    (
        34,
        "births 1 deaths 0 living 2 filled 240 front 2 ip 80 ax 0 bx 0 cx 0 dx 0 flag 0 errors 0",
        (FIRST, None),
    ),
    (
        99,
        "births 1 deaths 0 living 2 filled 320 front 1 ip 32 ax 160 bx 0 cx 80 dx 4 flag 0 errors 0",
        (FIRST, None),
    ),
    (
        100,
        "births 2 deaths 0 living 3 filled 400 front 2 ip 141 ax 319 bx 159 cx 1 dx 4 flag 0 errors 0",
        (FIRST, SECOND),
    ),
    (
        101,
        "births 3 deaths 0 living 4 filled 480 front 3 ip 160 ax 0 bx 0 cx 0 dx 0 flag 0 errors 0",
        (FIRST, SECOND),
    ),
];

#[test]
fn the_ancestor_breeds(rt: HostRuntime) -> Result<(), Fail> {
    let setup = ancestor_setup(rt.alloc())?;
    for (quanta, line, efforts) in BRED {
        let (told, spent) = bred(rt.alloc(), &setup, quanta)?;
        assert_eq!(rt; (told.as_str(), spent), (line, efforts));
    }
    Ok(())
}

/// A soup file, how many quanta it runs, and the expected result.
const DEATHS: [(&str, u16, &str); 5] = [
    // nobody else is left, and there is no room
    (
        r#"
soup_size = 100
mal_mult = 100
[[creature]]
at = 0
code = "zero or1 shl shl shl shl shl shl shl mal"
"#,
        1,
        "births 0 deaths 0 living 1 filled 10 front 1 ip 25 ax 0 bx 0 cx 128 dx 0 flag 0 errors 1",
    ),
    // the other creature dies
    (
        r#"
soup_size = 100
mal_mult = 100
[[creature]]
at = 0
code = "zero or1 shl shl shl shl shl shl mal nop_0"
[[creature]]
at = 50
code = "nop_1 nop_1 nop_1 nop_1 nop_1 nop_1 nop_1 nop_1 nop_1 nop_1"
"#,
        1,
        "births 0 deaths 1 living 1 filled 74 front 1 ip 25 ax 10 bx 0 cx 64 dx 0 flag 0 errors 0",
    ),
    // the other creature dies, and then there is still no room
    (
        r#"
soup_size = 100
mal_mult = 100
[[creature]]
at = 0
code = "zero or1 shl shl shl shl shl shl shl mal"
[[creature]]
at = 50
code = "nop_1 nop_1 nop_1 nop_1 nop_1 nop_1 nop_1 nop_1 nop_1 nop_1"
"#,
        1,
        "births 0 deaths 1 living 1 filled 10 front 1 ip 25 ax 0 bx 0 cx 128 dx 0 flag 0 errors 1",
    ),
    // one slice with a mal, a copy, an error, a mal that gives up the block and lets the other die, a copy and a divide
    (
        r#"
soup_size = 100
slice_size = 14
mal_mult = 100
move_percent = 0
fill_percent = 100
[[creature]]
at = 0
code = "zero or1 shl shl shl shl mal mov_iab jmp shl shl mal mov_iab divide"
[[creature]]
at = 50
code = "nop_1 nop_1 nop_1 nop_1 nop_1 nop_1 nop_1 nop_1 nop_1 nop_1"
"#,
        1,
        "births 1 deaths 1 living 2 filled 78 front 3 ip 14 ax 0 bx 0 cx 0 dx 0 flag 0 errors 0",
    ),
    // half of the living die in quantum 2, and not the one that runs
    (
        r#"
soup_size = 100
dist_every = 2
dist_percent = 50
[[creature]]
at = 0
code = "inc_a"
[[creature]]
at = 10
code = "inc_b"
[[creature]]
at = 20
code = "inc_c"
[[creature]]
at = 30
code = "dec_c"
"#,
        2,
        "births 0 deaths 2 living 2 filled 2 front 4 ip 30 ax 0 bx 0 cx 0 dx 0 flag 0 errors 0",
    ),
];

#[test]
fn room_is_made_by_deaths(rt: HostRuntime) -> Result<(), Fail> {
    let alloc = rt.alloc();
    for (file, quanta, line) in DEATHS {
        let (told, _) = run_file(alloc, file, quanta)?;
        assert_eq!(rt; told.as_str(), line);
    }
    Ok(())
}

/// Settings and a code at cell 0, and the result of one quantum, worked out by hand from the first draws of quantum 1:
/// the flaws 1 and -1, the flips of bits 4 and 1 in copies, and the flip of bit 0 of cell 24505. The last number is
/// that of the cells.
const FIRST_DRAWS: [(&str, &str, &str, u64); 4] = [
    (
        "soup_size = 100\nslice_size = 2\nflaw_rate = 1",
        "inc_a inc_b",
        "births 0 deaths 0 living 1 filled 2 front 1 ip 2 ax 2 bx 0 cx 0 dx 0 flag 0 errors 0",
        26,
    ),
    (
        "soup_size = 100\nslice_size = 1\ncopy_rate = 1",
        "mov_iab mov_iab",
        "births 0 deaths 0 living 1 filled 2 front 1 ip 1 ax 0 bx 0 cx 0 dx 0 flag 0 errors 0",
        62,
    ),
    (
        "soup_size = 100\nslice_size = 2\ncopy_rate = 1",
        "mov_iab mov_iab",
        "births 0 deaths 0 living 1 filled 2 front 1 ip 2 ax 0 bx 0 cx 0 dx 0 flag 0 errors 0",
        60,
    ),
    (
        "slice_size = 1\nback_rate = 1",
        "inc_a",
        "births 0 deaths 0 living 1 filled 1 front 1 ip 1 ax 1 bx 0 cx 0 dx 0 flag 0 errors 0",
        24_514,
    ),
];

/// What the first quantum of a soup with a code at cell 0 leaves.
fn first_quantum(alloc: Global, settings: &str, code: &str) -> Result<(String, u64), Fail> {
    let file = format!(in alloc; "{settings}\n[[creature]]\nat = 0\ncode = '{code}'\n")?;
    run_file(alloc, &file, 1)
}

#[test]
fn the_first_draws_are_worked_by_hand(rt: HostRuntime) -> Result<(), Fail> {
    for (settings, code, line, weight) in FIRST_DRAWS {
        let (told, sum) = first_quantum(rt.alloc(), settings, code)?;
        assert_eq!(rt; (told.as_str(), sum), (line, weight));
    }
    Ok(())
}

/// A soup file of 101 cells with a creature of this many inc_a at cell 0, whose slice goes by its size.
fn counters(alloc: Global, size: u16, parts: &str) -> Result<String, Fail> {
    let mut file = format!(in alloc; "soup_size = 101\nslice_by_size = true\n{parts}\n")?;
    file.push_str("[[creature]]\nat = 0\ncode = '")?;
    for _cell in 0..size {
        file.push_str("inc_a ")?;
    }
    file.push_str("'\n")?;
    Ok(file)
}

/// Where its first slice ends, and what it counted.
fn counted_in_a_slice(alloc: Global, file: &str) -> Result<(u32, i32), Fail> {
    let world = run_of(alloc, &setup_of(alloc, file)?, 1)?;
    let front = world.front();
    Ok((front.ip, front.ax))
}

#[test]
fn a_slice_by_size_has_bounds(rt: HostRuntime) -> Result<(), Fail> {
    let alloc = rt.alloc();
    // how many cells, the settings, where the slice ends, and what is counted
    let rows = [
        (1, "slice_num = 1\nslice_den = 4", (1, 1)),
        (3, "slice_num = 1\nslice_den = 4", (1, 1)),
        (8, "slice_num = 1\nslice_den = 4", (2, 2)),
        (100, "slice_num = 100\nslice_den = 1", (1, 9_901)),
        (101, "slice_num = 100\nslice_den = 1", (1, 10_000)),
    ];
    for (size, parts, want) in rows {
        let file = counters(alloc, size, parts)?;
        assert_eq!(rt; counted_in_a_slice(alloc, file.as_str())?, want, "{size}");
    }
    Ok(())
}

/// Settings of the ancestor's run in a soup of 500 cells, how many quanta it runs, and the expected result; the last
/// number is that of the cells.
const DRAWN: [(&str, u16, &str, u64); 8] = [
    (
        "flaw_rate = 1",
        400,
        "births 1 deaths 0 living 2 filled 191 front 1 ip 472 ax 5 bx 5 cx 6 dx 2 flag 0 errors 392",
        38_447,
    ),
    (
        "flaw_rate = 2",
        400,
        "births 1 deaths 1 living 1 filled 234 front 1 ip 447 ax 110 bx 14 cx 19393 dx 1 flag 0 errors 387",
        61_932,
    ),
    (
        "copy_rate = 1",
        400,
        "births 8 deaths 7 living 2 filled 320 front 1 ip 58 ax 258 bx 18 cx 61 dx 4 flag 0 errors 0",
        796_292,
    ),
    (
        "copy_rate = 2",
        400,
        "births 7 deaths 5 living 3 filled 400 front 8 ip 53 ax 181 bx 21 cx 58 dx 4 flag 0 errors 1",
        623_735,
    ),
    (
        "back_rate = 1",
        150,
        "births 1 deaths 1 living 1 filled 98 front 1 ip 231 ax 105 bx 4 cx 19 dx 0 flag 0 errors 15",
        315_442,
    ),
    (
        "back_rate = 2",
        400,
        "births 1 deaths 1 living 1 filled 288 front 1 ip 73 ax 0 bx 29 cx -1 dx 0 flag 0 errors 1559",
        563_984,
    ),
    (
        "back_rate = 2\ncopy_rate = 2\nflaw_rate = 2",
        150,
        "births 1 deaths 0 living 2 filled 305 front 2 ip 148 ax 160 bx 5 cx -2 dx -1 flag 0 errors 34",
        173_116,
    ),
    // slices of three times the size, and a disturbance in each seventh quantum
    (
        "slice_by_size = true\nslice_num = 3\nslice_den = 1\ndist_every = 7\ndist_percent = 60",
        300,
        "births 56 deaths 55 living 2 filled 320 front 57 ip 136 ax 308 bx 148 cx 11 dx 4 flag 0 errors 0",
        364_177,
    ),
];

/// What the ancestor's run in a soup of 500 cells leaves.
fn run_ancestor(alloc: Global, settings: &str, quanta: u16) -> Result<(String, u64), Fail> {
    let settings = format!(in alloc; "soup_size = 500\n{settings}")?;
    run_file(alloc, &ancestor_file(alloc, &settings)?, quanta)
}

#[test]
fn draws_change_a_run(rt: HostRuntime) -> Result<(), Fail> {
    for (settings, quanta, line, weight) in DRAWN {
        let (told, sum) = run_ancestor(rt.alloc(), settings, quanta)?;
        assert_eq!(rt; (told.as_str(), sum), (line, weight));
    }
    Ok(())
}

/// Settings of the ancestor's run in a soup of 500 cells, and the result of 20,000 quanta.
const FULL: [(&str, &str, u64); 2] = [
    (
        "",
        "births 579 deaths 578 living 2 filled 320 front 578 ip 132 ax 190 bx 110 cx 50 dx 4 flag 0 errors 0",
        319_715,
    ),
    (
        "back_rate = 40\ncopy_rate = 50\nflaw_rate = 100",
        "births 16 deaths 16 living 1 filled 320 front 3 ip 11 ax 6 bx 0 cx 2 dx 0 flag 0 errors 32821",
        779_116,
    ),
];

#[test]
fn a_full_soup_goes_on(rt: HostRuntime) -> Result<(), Fail> {
    for (settings, line, weight) in FULL {
        let (told, sum) = run_ancestor(rt.alloc(), settings, 20_000)?;
        assert_eq!(rt; (told.as_str(), sum), (line, weight));
    }
    Ok(())
}

// A soup that is soon full, in which everything mutates.
const MUTATING: &str =
    "soup_size = 500\nsave_at = 1\nback_rate = 40\ncopy_rate = 50\nflaw_rate = 100";

/// Whether the world after this many quanta is restored from its bytes, and has the same bytes again.
fn is_restored_after(alloc: Global, setup: &Setup, quanta: u16) -> Result<bool, OutOfMemory> {
    let world = run_of(alloc, setup, quanta)?;
    let bytes = bytes_of(alloc, &world)?;
    Ok(told_again(alloc, setup, &bytes)? == Some(true))
}

fn mutating_setup(alloc: Global) -> Result<Setup, Fail> {
    setup_of(alloc, &ancestor_file(alloc, MUTATING)?)
}

#[test]
fn worlds_along_a_run_are_restored(rt: HostRuntime) -> Result<(), Fail> {
    let setup = mutating_setup(rt.alloc())?;
    for part in 0..200 {
        assert!(rt; is_restored_after(rt.alloc(), &setup, 3 * part)?, "{part}");
    }
    Ok(())
}
