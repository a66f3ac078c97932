//! Reads are noted, copied and taken up again, and compared with a small world.

ghost use Rattle.std.specs.Prelude.{All, ◌<◌, ◌≤◌, ◌+◌, ◌^◌, IfOk, IfSome, length};
ghost use Rattle.std.specs.Arc.{arc_value};

use crate::small::{FIRST_BLOCK, FREE, Small, YARD, newborn};
use read_sets::{Reads, agrees};
use std::alloc::Global;
use std::sync::Arc;
use std::test::Fail;
use tierra_model::{Block, Creature, FreeList, OutOfMemory, Stale, Standing, Yard};

/// Shares a list of free blocks.
fn free_of(alloc: Global, blocks: &[Block]) -> Result<Arc<FreeList>, OutOfMemory>
    requires { length blocks.now < 2 ^ 32 }
    ensures { IfOk result (λ a. length (arc_value a) < 2 ^ 32) }
{
    let mut items = Vec::new(alloc);
    items.extend_from_slice(blocks)?;
    Ok(Arc::new(alloc, FreeList { items })?)
}

/// Shares a yard.
fn yard_of(alloc: Global, standings: &[Standing]) -> Result<Arc<Yard>, OutOfMemory>
    requires { length standings.now < 2 ^ 32 }
    ensures { IfOk result (λ a. length (arc_value a) < 2 ^ 32) }
{
    let mut items = Vec::new(alloc);
    items.extend_from_slice(standings)?;
    Ok(Arc::new(alloc, Yard { items })?)
}

// Whether the free list was read, and whether the yard was.
fn lists_of(reads: &Reads) -> (bool, bool) {
    (reads.free().is_some(), reads.yard().is_some())
}

/// The cells that are read first and second.
const NOTED: [(u32, u8); 2] = [(3, 1), (0, 9)];

// Whether these are the cells that were read.
fn has_noted(reads: &Reads) -> bool {
    reads.len() == 2 && [reads.at(0), reads.at(1)] == NOTED && reads.cells() == NOTED.as_slice()
}

#[test]
fn reads_are_kept_in_order(rt: HostRuntime) -> Result<(), Fail> {
    let alloc = rt.alloc();
    let mut reads = Reads::new(alloc, 4)?;
    reads.note(3, 1);
    reads.note(0, 9);
    reads.note_free(free_of(alloc, &FREE)?);
    let copy = reads.copy()?;
    reads.note_yard(yard_of(alloc, &YARD)?);
    assert!(rt; has_noted(&reads) && has_noted(&copy));
    assert_eq!(rt;
        (lists_of(&reads), lists_of(&copy)),
        ((true, true), (true, false))
    );
    Ok(())
}

#[test]
fn cleared_reads_have_nothing(rt: HostRuntime) -> Result<(), Fail> {
    let alloc = rt.alloc();
    let mut reads = Reads::new(alloc, 1)?;
    reads.note(3, 1);
    reads.note_free(free_of(alloc, &FREE)?);
    reads.note_yard(yard_of(alloc, &YARD)?);
    reads.clear();
    assert_eq!(rt; (reads.len(), lists_of(&reads)), (0, (false, false)));
    Ok(())
}

#[test]
fn reads_get_their_room_later(rt: HostRuntime) -> Result<(), Fail> {
    let mut later = Reads::empty(rt.alloc());
    later.reserve(1)?;
    later.note(2, 0);
    assert_eq!(rt; later.cells(), [(2, 0)].as_slice());
    Ok(())
}

/// Notes a cell of the world.
fn note_cell(reads: &mut Reads, cell: (u32, u8))
    requires some { 0 < reads.old.spare }
    requires before { All (λ c. c.0 < 4) reads.old.reads.cells }
    ensures after { All (λ c. c.0 < 4) reads.new.reads.cells }
    ensures room { reads.old.spare ≤ reads.new.spare + 1 }
{
    let (at, value) = cell;
    if at < 4 {
        reads.note(at, value);
    }
}

/// Compares a record, two cells, and the lists that are given with the world.
fn compare(
    alloc: Global,
    front: &Creature,
    cells: [(u32, u8); 2],
    free: Option<&[Block]>,
    yard: Option<&[Standing]>,
) -> Result<Result<(), Stale>, OutOfMemory>
    requires free { IfSome free (λ blocks. length blocks.now < 2 ^ 32) }
    requires yard { IfSome yard (λ standings. length standings.now < 2 ^ 32) }
{
    let mut reads = Reads::new(alloc, 2)?;
    note_cell(&mut reads, cells[0]);
    note_cell(&mut reads, cells[1]);
    if let Some(blocks) = free {
        reads.note_free(free_of(alloc, blocks)?);
    }
    if let Some(standings) = yard {
        reads.note_yard(yard_of(alloc, standings)?);
    }
    Ok(agrees(&reads, front, &Small::new()))
}

const TRUE_CELLS: [(u32, u8); 2] = [(0, 9), (3, 1)];

const OTHER_BLOCK: Block = Block { at: 4, size: 90 };

const ERRED: Standing = Standing {
    id: 1,
    errors: 1,
    own: FIRST_BLOCK,
    daughter: None,
};

/// Compares reads that agree in this many parts, in the order in which the parts are compared.
fn compare_agreeing(alloc: Global, parts: u32) -> Result<Result<(), Stale>, OutOfMemory> {
    let front = newborn(1, FIRST_BLOCK);
    let front = match parts {
        0 => Creature { id: 7, ..front },
        1 => Creature { ax: 5, ..front },
        _ => front,
    };
    let cells = if parts < 3 {
        [(1, 2), (0, 8)]
    } else {
        TRUE_CELLS
    };
    let free = if parts < 4 {
        [FREE[0], OTHER_BLOCK]
    } else {
        FREE
    };
    let yard = if parts < 5 { [YARD[0], ERRED] } else { YARD };
    compare(alloc, &front, cells, Some(&free), Some(&yard))
}

#[test]
fn the_first_difference_is_told(rt: HostRuntime) -> Result<(), Fail> {
    let of_cell = Stale::Cell {
        at: 1,
        seen: 2,
        now: 26,
    };
    let of_free = Stale::Free {
        place: 1,
        seen: Some(OTHER_BLOCK),
        now: Some(FREE[1]),
    };
    let of_yard = Stale::Yard {
        place: 1,
        seen: Some(ERRED),
        now: Some(YARD[1]),
    };
    let rows = [
        (0, Err(Stale::Front { seen: 7, now: 1 })),
        (1, Err(Stale::Body)),
        (2, Err(of_cell)),
        (3, Err(of_free)),
        (4, Err(of_yard)),
        (5, Ok(())),
    ];
    for (parts, want) in rows {
        assert_eq!(rt; compare_agreeing(rt.alloc(), parts)?, want);
    }
    Ok(())
}

/// Compares reads that agree in the record and the cells.
fn compare_lists(
    alloc: Global,
    free: Option<&[Block]>,
    yard: Option<&[Standing]>,
) -> Result<Result<(), Stale>, OutOfMemory>
    requires free { IfSome free (λ blocks. length blocks.now < 2 ^ 32) }
    requires yard { IfSome yard (λ standings. length standings.now < 2 ^ 32) }
{
    compare(alloc, &newborn(1, FIRST_BLOCK), TRUE_CELLS, free, yard)
}

fn free_differs(place: u32, seen: Option<Block>, now: Option<Block>) -> Result<(), Stale> {
    Err(Stale::Free { place, seen, now })
}

fn yard_differs(place: u32, seen: Option<Standing>, now: Option<Standing>) -> Result<(), Stale> {
    Err(Stale::Yard { place, seen, now })
}

// A list that was not read is not compared; one that was ends where the other ends.
#[test]
fn lists_differ_past_an_end(rt: HostRuntime) -> Result<(), Fail> {
    let alloc = rt.alloc();
    let [second, first] = YARD;
    let past = Block { at: 100, size: 1 };
    let long = [FREE[0], FREE[1], past];
    let three = [second, first, first];
    let rows = [
        (compare_lists(alloc, None, None)?, Ok(())),
        (
            compare_lists(alloc, Some(&[]), None)?,
            free_differs(0, None, Some(FREE[0])),
        ),
        (
            compare_lists(alloc, Some(&long), None)?,
            free_differs(2, Some(past), None),
        ),
        (
            compare_lists(alloc, None, Some(&[]))?,
            yard_differs(0, None, Some(second)),
        ),
        (
            compare_lists(alloc, None, Some(&three))?,
            yard_differs(2, Some(first), None),
        ),
    ];
    for (answer, want) in rows {
        assert_eq!(rt; answer, want);
    }
    Ok(())
}
