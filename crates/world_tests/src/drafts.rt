//! The bytes of a small world, written by hand, are read and checked for soundness, as are these bytes with changes.

ghost use Rattle.std.specs.Prelude.{IfOk};
ghost use Rattle.tierra_model.specs.Ranges.{IsCode};

use std::alloc::Global;
use std::test::Fail;
use tierra_model::{Block, Code, OutOfMemory, Settings, grow_setup};
use world_state::{Draft, Stop, blocks_in, draft_of};

// How many bytes the small world has.
const SIZE: usize = 650;

fn one_cell(alloc: Global) -> Result<Code, OutOfMemory>
    ensures { IfOk result (λ code. IsCode code) }
{
    let mut items = Vec::new(alloc);
    items.push(9)?;
    Ok(Code { items })
}

// A soup of a hundred cells, in which a genotype is saved at once.
fn small_settings(alloc: Global) -> Result<Settings, OutOfMemory> {
    let mut settings = grow_setup(alloc, one_cell(alloc)?)?.settings;
    settings.soup_size = 100;
    settings.save_at = 1;
    Ok(settings)
}

fn put(bytes: &mut Vec<u8>, place: usize, value: u8) {
    if let Some(byte) = bytes.get_mut(place) {
        *byte = value;
    }
}

// 104 bytes of soup, 32 of counts, 4 and twice 129 of the living, 16 of the reaper queue, 8 and twice 62 of the
// genotypes, 8 and twice 48 of the savings.
fn small_world(alloc: Global) -> Result<Vec<u8>, OutOfMemory> {
    let mut bytes = Vec::with_capacity(alloc, SIZE)?;
    for _ in 0..SIZE {
        bytes.push(0)?;
    }
    let rows = [
        (3, 100), // cells
        (9, 9),
        (10, 26),
        (111, 1), // quanta
        (119, 1), // births
        (135, 3), // the next birth number
        (139, 2), // how many live
        (147, 2), // the newborn, who is at the front of the slicer queue
        (151, 7), // its block begins at 7
        (155, 2), // and has two cells
        (252, 1), // the number of its genotype
        (276, 1), // the first creature
        (280, 5),
        (284, 2),
        (405, 1), // the reaper queue
        (413, 2),
        (421, 2), // how many genotypes
        (425, 2), // the length of the first code
        (426, 9),
        (427, 26),
        (451, 1), // how many ever had it
        (487, 2), // and of the second
        (488, 9),
        (489, 27),
        (497, 1), // its parent is the first
        (505, 1), // its quantum
        (513, 1),
        (553, 2), // how many are saved
        (609, 1), // the second of them
        (617, 1), // and its quantum
    ];
    for (place, value) in rows {
        put(&mut bytes, place, value);
    }
    Ok(bytes)
}

// Whether the small world with two of its bytes changed is sound, or nothing if the bytes spell no world.
fn judged(
    alloc: Global,
    first: (usize, u8),
    second: (usize, u8),
) -> Result<Option<bool>, OutOfMemory> {
    let mut bytes = small_world(alloc)?;
    put(&mut bytes, first.0, first.1);
    put(&mut bytes, second.0, second.1);
    match draft_of(alloc, &small_settings(alloc)?, &bytes).ok() {
        Some(draft) => Ok(Some(draft.is_sound(alloc)?)),
        None => Ok(None),
    }
}

/// What is read from the bytes of the small world.
fn small_draft(alloc: Global) -> Result<Draft, Fail> {
    match draft_of(alloc, &small_settings(alloc)?, &small_world(alloc)?) {
        Ok(draft) => Ok(draft),
        Err(_) => Err(Fail::from("the bytes tell no world")),
    }
}

/// The quanta, the births, the deaths, the next birth number, and how many cells the soup has.
fn counts_of(draft: &Draft) -> ([u64; 4], usize) {
    let counts = [draft.quanta, draft.births, draft.deaths, draft.next_birth];
    (counts, draft.cells.len())
}

/// Whether creature 2 is the front of the slicer queue, and creature 1 the top of the reaper queue.
fn are_in_line(draft: &Draft) -> bool {
    draft.slicer.as_slice() == [2, 1].as_slice() && draft.reaper.as_slice() == [1, 2].as_slice()
}

/// Whether these are the blocks that have owners.
fn has_blocks(alloc: Global, draft: &Draft, blocks: &[Block]) -> Result<bool, OutOfMemory> {
    Ok(blocks_in(alloc, &draft.living)?.as_slice() == blocks)
}

/// The first creature, the parent of the last genotype, and the quantum of the last saving.
fn ends_of(draft: &Draft) -> [Option<u64>; 3] {
    [
        draft.living.first().map(|creature| creature.id),
        draft.stored.last().and_then(|found| found.parent),
        draft.saved.last().map(|saving| saving.quantum),
    ]
}

#[test]
fn a_small_world_is_read(rt: HostRuntime) -> Result<(), Fail> {
    let draft = small_draft(rt.alloc())?;
    assert_eq!(rt; counts_of(&draft), ([1, 1, 0, 3], 100));
    assert!(rt; are_in_line(&draft));
    assert!(rt;
        has_blocks(
            rt.alloc(),
            &draft,
            &[Block { at: 5, size: 2 }, Block { at: 7, size: 2 }]
        )?
    );
    assert_eq!(rt; ends_of(&draft), [1, 0, 1].map(Some));
    assert!(rt; draft.is_sound(rt.alloc())?);
    Ok(())
}

#[test]
fn a_part_of_a_small_world_is_not_read(rt: HostRuntime) -> Result<(), Fail> {
    let alloc = rt.alloc();
    let settings = small_settings(alloc)?;
    let bytes = small_world(alloc)?;
    for len in 0..bytes.len() {
        let stop = draft_of(alloc, &settings, &bytes[..len]).err();
        assert_eq!(rt; stop, Some(Stop::Malformed));
    }
    Ok(())
}

/// A place among the bytes, and what stands there after the change.
type Change = (usize, u8);

// Place 0 is 0 already.
const NONE: Change = (0, 0);

/// Two changes, and whether the world is then sound.
const CHANGES: [(Change, Change, bool); 35] = [
    (NONE, NONE, true),
    ((9, 31), NONE, true), // a cell
    ((9, 32), NONE, false),
    ((108, 1), NONE, false), // too many quanta
    ((119, 3), NONE, false), // more births than birth numbers
    ((127, 1), NONE, false), // a death that no birth number tells
    ((135, 4), NONE, false), // the next birth number
    ((147, 1), (276, 2), true), // the other at the front
    ((147, 1), (413, 1), false), // the same number twice
    ((147, 3), (413, 3), false), // the next birth number lives
    ((276, 0), (405, 0), false), // and so does 0
    ((151, 6), NONE, false), // a cell of another
    ((151, 99), NONE, false), // a block past the end
    ((155, 0), NONE, false), // and one of no cell
    ((163, 5), NONE, true), // a daughter block before all others
    ((163, 6), NONE, false), // which shares a cell
    ((191, 99), NONE, true), // an ip
    ((191, 100), NONE, false),
    ((235, 9), NONE, true), // a place on the stack
    ((235, 10), NONE, false),
    ((237, 1), NONE, false), // too many errors
    ((252, 2), NONE, false), // a genotype that there is not
    ((405, 2), (413, 1), true), // the other at the top
    ((405, 2), NONE, false), // and twice in the reaper queue
    ((426, 32), NONE, false), // no code of a genotype
    ((489, 26), NONE, false), // the same code twice
    ((435, 1), NONE, false), // a genotype is its own parent
    ((497, 0), NONE, true), // and one has NONE
    ((451, 0), NONE, false), // too few ever had what is saved
    ((459, 1), NONE, true), // a first effort
    ((561, 1), NONE, false), // one is saved twice, another never
    ((609, 2), NONE, false), // a genotype saved that there is not
    ((617, 2), NONE, false), // saved in a quantum to come
    ((569, 1), NONE, true), // both in one quantum
    ((569, 1), (617, 0), false), // the later before the earlier
];

// (Where a test has the table itself, the prover takes it through each of the test's borrows.)
fn changes() -> [(Change, Change, bool); 35] {
    CHANGES
}

#[test]
fn a_change_is_judged(rt: HostRuntime) -> Result<(), Fail> {
    for (first, second, sound) in changes() {
        assert_eq!(rt; judged(rt.alloc(), first, second)?, Some(sound));
    }
    assert_eq!(rt; judged(rt.alloc(), (2, 1), NONE)?, None);
    Ok(())
}
