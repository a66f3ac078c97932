//! What the first quanta of small worlds find, each run by itself from the world's start. All rows were worked out by
//! hand.

ghost use Rattle.std.specs.Prelude.{◌≡◌, ◌<◌, IfOk};
ghost use Rattle.tierra_model.specs.FreeList.{free_list};

use quantum_run::{Finding, Job, Workspace, run_quantum};
use read_sets::Reads;
use std::alloc::Global;
use std::marker::Brand;
use std::sync::Arc;
use std::sync::ledger::{Blank, Ledger};
use std::test::Fail;
use step_count::Steps;
use test_soups::{TWO, setup_of};
use tierra_model::{Creature, Event, FreeList, MOST_QUANTA, Now, OutOfMemory};
use world_core::World;

/// What the job of a quantum finds in the world of a soup file.
#[derive(Clone, Copy, Drop)]
struct Row {
    file: &'static str,
    quantum: u32,
    /// The cells in the order of reading: the first cell of each run, and what the cells hold.
    cells: &'static [(u32, &'static [u8])],
    /// Where each free run begins, and its size.
    free: Option<&'static [(u32, u32)]>,
    /// Each creature, and where its block begins and how large it is.
    yard: Option<&'static [(u64, u32, u32)]>,
    events: &'static [Event],
    /// From the creature's record after the quantum: ip, ax, bx and cx, the instructions that it ran and its errors.
    after: (u32, i32, i32, i32, u64, u64),
}

const ROWS: [Row; 12] = [
    // it copies its own second cell over its first
    Row {
        file: TWO,
        quantum: 1,
        cells: &[(
            0,
            &[
                9, 26, 0, 0, 0, 0, 0, 0, 0, 0, 0, 0, 0, 0, 0, 0, 0, 0, 0, 0, 0, 0, 0, 0, 0,
            ],
        )],
        free: None,
        yard: None,
        events: &[Event::Write { at: 0, value: 26 }],
        after: (25, 0, 1, 0, 25, 0),
    },
    // it runs past the last cell into the other creature, and may not write there
    Row {
        file: TWO,
        quantum: 2,
        cells: &[
            (90, &[1, 1, 1, 1, 1, 0, 0, 0, 0, 0]),
            (0, &[9, 26, 0, 0, 0, 0, 0, 0, 0, 0, 0, 0, 0, 0, 0]),
        ],
        free: None,
        yard: None,
        events: &[Event::Err],
        after: (15, 0, 1, 0, 25, 1),
    },
    // a slice of one instruction
    Row {
        file: r#"
slice_size = 1
[[creature]]
at = 0
code = "inc_b mov_iab"
"#,
        quantum: 1,
        cells: &[(0, &[9])],
        free: None,
        yard: None,
        events: &[],
        after: (1, 0, 1, 0, 1, 0),
    },
    // cell 6 is written before it is run, so it is not read
    Row {
        file: r#"
[[creature]]
at = 0
code = "dec_c dec_c sub_ac sub_ac sub_ac mov_iab nop_1"
"#,
        quantum: 1,
        cells: &[
            (0, &[10, 10, 7, 7, 7, 26]),
            (7, &[0, 0, 0, 0, 0, 0, 0, 0, 0, 0, 0, 0, 0, 0, 0, 0, 0, 0]),
        ],
        free: None,
        yard: None,
        events: &[Event::Write { at: 6, value: 10 }],
        after: (25, 6, 0, -3, 25, 0),
    },
    // a template that goes on at cell 0
    Row {
        file: r#"
soup_size = 100
[[creature]]
at = 98
code = "nop_0 jmp"
[[creature]]
at = 0
code = "nop_1 zero"
"#,
        quantum: 1,
        cells: &[(98, &[0, 20]), (0, &[1, 4])],
        free: None,
        yard: None,
        events: &[],
        after: (99, 0, 0, 0, 25, 0),
    },
    // the background flips its second cell, so that it runs inc_b there
    Row {
        file: r#"
back_rate = 1
[[creature]]
at = 24504
code = "nop_0 inc_a"
"#,
        quantum: 1,
        cells: &[
            (24505, &[8]),
            (24504, &[0]),
            (
                24506,
                &[
                    0, 0, 0, 0, 0, 0, 0, 0, 0, 0, 0, 0, 0, 0, 0, 0, 0, 0, 0, 0, 0, 0, 0,
                ],
            ),
        ],
        free: None,
        yard: None,
        events: &[Event::Write {
            at: 24505,
            value: 9,
        }],
        after: (24529, 0, 1, 0, 25, 0),
    },
    // a block is taken
    Row {
        file: r#"
soup_size = 100
mal_mult = 100
[[creature]]
at = 0
code = "zero or1 shl shl shl shl shl shl mal nop_0"
"#,
        quantum: 1,
        cells: &[(
            0,
            &[
                4, 2, 3, 3, 3, 3, 3, 3, 30, 0, 0, 0, 0, 0, 0, 0, 0, 0, 0, 0, 0, 0, 0, 0, 0,
            ],
        )],
        free: Some(&[(10, 90)]),
        yard: None,
        events: &[Event::Mal { at: 10, size: 64 }, Event::Good],
        after: (25, 10, 0, 64, 25, 0),
    },
    // the other creature dies to make room for a block
    Row {
        file: r#"
soup_size = 100
mal_mult = 100
[[creature]]
at = 0
code = "zero or1 shl shl shl shl shl shl mal nop_0"
[[creature]]
at = 50
code = "nop_1 nop_1 nop_1 nop_1 nop_1 nop_1 nop_1 nop_1 nop_1 nop_1"
"#,
        quantum: 1,
        cells: &[(
            0,
            &[
                4, 2, 3, 3, 3, 3, 3, 3, 30, 0, 0, 0, 0, 0, 0, 0, 0, 0, 0, 0, 0, 0, 0, 0, 0,
            ],
        )],
        free: Some(&[(10, 40), (60, 40)]),
        yard: Some(&[(1, 0, 10), (2, 50, 10)]),
        events: &[
            Event::Reap { place: 1 },
            Event::Mal { at: 10, size: 64 },
            Event::Good,
        ],
        after: (25, 10, 0, 64, 25, 0),
    },
    // the other creature dies, but there is still no room
    Row {
        file: r#"
soup_size = 100
mal_mult = 100
[[creature]]
at = 45
code = "zero or1 shl shl shl shl shl shl mal nop_0"
[[creature]]
at = 0
code = "nop_1 nop_1 nop_1 nop_1 nop_1 nop_1 nop_1 nop_1 nop_1 nop_1"
"#,
        quantum: 1,
        cells: &[(
            45,
            &[
                4, 2, 3, 3, 3, 3, 3, 3, 30, 0, 0, 0, 0, 0, 0, 0, 0, 0, 0, 0, 0, 0, 0, 0, 0,
            ],
        )],
        free: Some(&[(10, 35), (55, 45)]),
        yard: Some(&[(1, 45, 10), (2, 0, 10)]),
        events: &[Event::Reap { place: 1 }, Event::Err],
        after: (70, 0, 0, 64, 25, 1),
    },
    // a daughter block that is held is given up
    Row {
        file: r#"
soup_size = 100
[[creature]]
at = 0
code = "zero or1 shl shl shl shl mal mal"
"#,
        quantum: 1,
        cells: &[(
            0,
            &[
                4, 2, 3, 3, 3, 3, 30, 30, 0, 0, 0, 0, 0, 0, 0, 0, 0, 0, 0, 0, 0, 0, 0, 0, 0,
            ],
        )],
        free: Some(&[(8, 92)]),
        yard: None,
        events: &[
            Event::Mal { at: 8, size: 16 },
            Event::Good,
            Event::GiveUp,
            Event::Mal { at: 8, size: 16 },
            Event::Good,
        ],
        after: (25, 8, 0, 16, 25, 0),
    },
    // a daughter is born, and what the mother runs is counted anew
    Row {
        file: r#"
soup_size = 100
move_percent = 0
[[creature]]
at = 0
code = "zero or1 shl shl shl shl mal divide"
"#,
        quantum: 1,
        cells: &[(
            0,
            &[
                4, 2, 3, 3, 3, 3, 30, 31, 0, 0, 0, 0, 0, 0, 0, 0, 0, 0, 0, 0, 0, 0, 0, 0, 0,
            ],
        )],
        free: Some(&[(8, 92)]),
        yard: None,
        events: &[
            Event::Mal { at: 8, size: 16 },
            Event::Good,
            Event::Good,
            Event::Divide { ran: 8, moved: 0 },
        ],
        after: (25, 8, 0, 16, 17, 0),
    },
    // half of the living die of a disturbance
    Row {
        file: r#"
soup_size = 100
dist_every = 1
dist_percent = 50
[[creature]]
at = 0
code = "inc_a"
[[creature]]
at = 10
code = "inc_b"
[[creature]]
at = 20
code = "inc_c"
[[creature]]
at = 30
code = "dec_c"
"#,
        quantum: 1,
        cells: &[(
            0,
            &[
                8, 0, 0, 0, 0, 0, 0, 0, 0, 0, 9, 0, 0, 0, 0, 0, 0, 0, 0, 0, 11, 0, 0, 0, 0,
            ],
        )],
        free: None,
        yard: Some(&[(1, 0, 1), (2, 10, 1), (3, 20, 1), (4, 30, 1)]),
        events: &[Event::Reap { place: 1 }, Event::Reap { place: 1 }],
        after: (25, 1, 1, 1, 25, 0),
    },
];

// (Where a test has the table itself, the prover takes it through each of the test's borrows.)
fn rows() -> [Row; 12] {
    ROWS
}

fn free_list(alloc: Global, world: &World) -> Result<FreeList, OutOfMemory>
    ensures { IfOk result (λ free. free ≡ free_list world.now.world) }
{
    let mut items = Vec::with_capacity(alloc, world.free_len() as usize)?;
    for place in 0..world.free_len() {
        items.push(world.free_at(place))?;
    }
    Ok(FreeList { items })
}

/// The job of the quantum `k` after the next, made of the parts of a world, if there is such a quantum, and a creature
/// for it.
fn job_of(alloc: Global, world: &mut World, k: u32) -> Result<Option<Job>, OutOfMemory> {
    if MOST_QUANTA.saturating_sub(world.quanta()) <= u64::from(k) {
        return Ok(None);
    }
    let free = Arc::new(alloc, free_list(alloc, world)?)?;
    let yard = Arc::new(alloc, world.yard(alloc)?)?;
    let soup = world.version()?;
    let room = Workspace::new(alloc).spare_room();
    let quantum = world.quanta() + u64::from(k) + 1;
    let Some(front) = world.place(k) else {
        return Ok(None);
    };
    let settings = world.settings();
    let job = Job::of(alloc, settings, quantum, front, soup, free, yard, room)?;
    Ok(Some(job))
}

/// The job of a quantum, made from the start of a soup file's world, if it has enough creatures.
fn first_job(alloc: Global, file: &str, quantum: u32) -> Result<Option<Job>, Fail> {
    let mut world = World::start(alloc, &setup_of(alloc, file)?)?;
    Ok(job_of(alloc, &mut world, quantum.saturating_sub(1))?)
}

/// What a job finds.
fn finding_of<L: Ledger>(alloc: Global, job: &Job, blank: Blank) -> Result<Finding, OutOfMemory>
    requires name { blank.name ≡ L.name }
    requires parts { blank.parts ≡ L.parts }
    requires some { 0 < L.parts }
{
    let mut steps = Steps::<L>::start(blank);
    run_quantum(alloc, job, &mut steps)
}

/// Whether these are the cells, in this order.
fn are_cells(reads: &Reads, runs: &[(u32, &[u8])]) -> bool {
    let mut rest = reads.cells();
    for &(first, values) in runs {
        for (at, value) in (first..).zip(values) {
            let Some((&cell, others)) = rest.split_first() else {
                return false;
            };
            if cell != (at, *value) {
                return false;
            }
            rest = others;
        }
    }
    rest.is_empty()
}

/// Whether the free list was read and has these runs, or was not.
fn is_free(reads: &Reads, runs: Option<&[(u32, u32)]>) -> bool {
    match (reads.free(), runs) {
        (Some(free), Some(runs)) => free
            .items
            .iter()
            .map(|run| (run.at, run.size))
            .eq(runs.iter().copied()),
        (free, runs) => free.is_none() && runs.is_none(),
    }
}

/// Whether the yard was read and has these creatures, or was not.
fn is_yard(reads: &Reads, yard: Option<&[(u64, u32, u32)]>) -> bool {
    match (reads.yard(), yard) {
        (Some(seen), Some(yard)) => {
            seen.items
                .iter()
                .map(|x| (x.id, x.own.at, x.own.size))
                .eq(yard.iter().copied())
        }
        (seen, yard) => seen.is_none() && yard.is_none(),
    }
}

fn numbers_of(c: &Creature) -> (u32, i32, i32, i32, u64, u64) {
    (c.ip, c.ax, c.bx, c.cx, c.ran, c.errors)
}

fn is_as_told(finding: &Finding, row: &Row) -> bool {
    let reads = finding.reads();
    are_cells(reads, row.cells)
        && is_free(reads, row.free)
        && is_yard(reads, row.yard)
        && finding.events().items.as_slice() == row.events
        && numbers_of(finding.after()) == row.after
}

/// Whether the row's job finds what the row tells, whether a copy of the finding has the same, and whether the finding
/// has the quantum and the creature of its job.
fn is_found(alloc: Global, row: &Row) -> Result<[bool; 3], Fail> {
    let Some(job) = first_job(alloc, row.file, row.quantum)? else {
        return Err(Fail::from("no job of this quantum"));
    };
    let finding = finding_of::<Brand>(alloc, &job, Blank::new(1))?;
    let copy = finding.copy()?;
    Ok([
        is_as_told(&finding, row),
        is_as_told(&copy, row),
        (finding.quantum(), finding.before().id) == (u64::from(row.quantum), job.front().id),
    ])
}

/// Whether a copy of what the row's job read has the cells and the lists that the row tells.
fn are_copied(alloc: Global, row: &Row) -> Result<[bool; 3], Fail> {
    let Some(job) = first_job(alloc, row.file, row.quantum)? else {
        return Err(Fail::from("no job of this quantum"));
    };
    let finding = finding_of::<Brand>(alloc, &job, Blank::new(1))?;
    let copy = finding.reads().copy()?;
    Ok([
        are_cells(&copy, row.cells),
        is_free(&copy, row.free),
        is_yard(&copy, row.yard),
    ])
}

#[test]
fn reads_are_copied(rt: HostRuntime) -> Result<(), Fail> {
    for row in rows() {
        let copied = are_copied(rt.alloc(), &row)?;
        assert_eq!(rt;
            copied,
            [true; 3],
            "quantum {} of {}",
            row.quantum, row.file
        );
    }
    Ok(())
}

#[test]
fn quanta_find_what_they_read_and_do(rt: HostRuntime) -> Result<(), Fail> {
    for row in rows() {
        let found = is_found(rt.alloc(), &row)?;
        assert_eq!(rt; found, [true; 3], "quantum {} of {}", row.quantum, row.file);
    }
    Ok(())
}
