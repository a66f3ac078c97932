//! A small world is written as bytes and restored from them, also after one of the bytes was changed.

use crate::looks::{
    SMALL, cell_of, counts_of, genotypes_of, restored, small_bytes, start_of, told_again,
};
use std::alloc::Global;
use std::test::Fail;
use test_soups::setup_of;
use tierra_model::{Creature, Now, OutOfMemory, Setup};
use world_core::World;
use world_state::{Draft, Stop, draft_of};

// The bytes that are not 0, each with its place.
fn placed(alloc: Global, bytes: &[u8]) -> Result<Vec<(usize, u8)>, OutOfMemory> {
    let mut placed = Vec::new(alloc);
    for (place, byte) in bytes.iter().enumerate() {
        if *byte != 0 {
            placed.push((place, *byte))?;
        }
    }
    Ok(placed)
}

// 104 bytes of soup, 32 of counts, 4 and 129 of the creature, 8 of the reaper queue, 70 of the genotype, 56 of the
// saving.
#[test]
fn a_small_world_is_told_as_bytes(rt: HostRuntime) -> Result<(), Fail> {
    let alloc = rt.alloc();
    let bytes = small_bytes(alloc)?;
    assert_eq!(rt; bytes.len(), 403);
    let rows = [
        (3, 100), // cells
        (9, 9), // cell 5
        (10, 26), // cell 6
        (135, 2), // the next birth number
        (139, 1), // how many live
        (147, 1), // the creature's birth number
        (151, 5), // its block begins at 5
        (155, 2), // and has two cells
        (191, 5), // its ip
        (276, 1), // the reaper queue
        (284, 1), // how many genotypes
        (288, 2), // the length of the code
        (289, 9), // the code
        (290, 26), //
        (314, 1), // how many ever had it
        (354, 1), // how many are saved
    ];
    assert_eq!(rt; placed(alloc, &bytes)?.as_slice(), rows.as_slice());
    Ok(())
}

fn read_of(alloc: Global, setup: &Setup, bytes: &[u8]) -> Result<Draft, Fail> {
    match draft_of(alloc, &setup.settings, bytes) {
        Ok(draft) => Ok(draft),
        Err(_) => Err(Fail::from("the bytes tell no world")),
    }
}

/// Whether the bytes spell no world.
fn tells_none(alloc: Global, setup: &Setup, bytes: &[u8]) -> bool {
    draft_of(alloc, &setup.settings, bytes).err() == Some(Stop::Malformed)
}

/// The quanta, the births, the deaths, the next birth number, how many ever had the first genotype, and the number of
/// the genotype that was saved first.
fn numbers_of(draft: &Draft) -> [Option<u64>; 6] {
    [
        Some(draft.quanta),
        Some(draft.births),
        Some(draft.deaths),
        Some(draft.next_birth),
        draft.stored.first().map(|found| found.total),
        draft.saved.first().map(|saving| saving.genotype),
    ]
}

/// Whether these are the cells that are not 0.
fn has_cells(alloc: Global, draft: &Draft, cells: &[(usize, u8)]) -> Result<bool, OutOfMemory> {
    Ok(draft.cells.len() == 100 && placed(alloc, &draft.cells)?.as_slice() == cells)
}

/// Whether creature 1 stands alone in both queues.
fn has_one_in_line(draft: &Draft) -> bool {
    draft.slicer.as_slice() == [1].as_slice() && draft.reaper.as_slice() == [1].as_slice()
}

/// Whether the first of the living in the draft is this creature.
fn tells_first(draft: &Draft, front: &Creature) -> bool {
    draft.living.first() == Some(front)
}

/// What is read from the bytes of the small world.
fn small_draft(alloc: Global) -> Result<Draft, Fail> {
    let setup = setup_of(alloc, SMALL)?;
    let bytes = small_bytes(alloc)?;
    read_of(alloc, &setup, &bytes)
}

fn small_front(alloc: Global) -> Result<Creature, Fail> {
    let world = start_of(alloc, &setup_of(alloc, SMALL)?)?;
    Ok(*world.front())
}

#[test]
fn a_small_world_is_read_from_its_bytes(rt: HostRuntime) -> Result<(), Fail> {
    let front = small_front(rt.alloc())?;
    let draft = small_draft(rt.alloc())?;
    assert_eq!(rt; numbers_of(&draft), [0, 0, 0, 2, 1, 0].map(Some));
    assert!(rt; has_cells(rt.alloc(), &draft, &[(5, 9), (6, 26)])?);
    assert!(rt; has_one_in_line(&draft));
    assert!(rt; tells_first(&draft, &front));
    Ok(())
}

#[test]
fn a_part_of_the_bytes_is_not_read(rt: HostRuntime) -> Result<(), Fail> {
    let alloc = rt.alloc();
    let setup = setup_of(alloc, SMALL)?;
    let bytes = small_bytes(alloc)?;
    for len in 0..bytes.len() {
        assert!(rt; tells_none(alloc, &setup, &bytes[..len]));
    }
    Ok(())
}

/// Whether it is the small world, by its counts, its genotypes and two cells.
fn is_small(world: &World) -> bool {
    counts_of(world) == [0, 0, 0, 1, 2, 2, 1]
        && genotypes_of(world) == [1, 1, 0]
        && cell_of(world, 5) == Some(9)
        && cell_of(world, 6) == Some(26)
}

fn is_restored_small(alloc: Global, setup: &Setup, bytes: &[u8]) -> Result<bool, OutOfMemory> {
    match restored(alloc, setup, bytes)? {
        Some(world) => Ok(is_small(&world)),
        None => Ok(false),
    }
}

#[test]
fn a_small_world_is_restored(rt: HostRuntime) -> Result<(), Fail> {
    let alloc = rt.alloc();
    let setup = setup_of(alloc, SMALL)?;
    let bytes = small_bytes(alloc)?;
    assert!(rt; is_restored_small(alloc, &setup, &bytes)?);
    Ok(())
}

#[test]
fn a_part_of_the_bytes_is_no_world(rt: HostRuntime) -> Result<(), Fail> {
    let alloc = rt.alloc();
    let setup = setup_of(alloc, SMALL)?;
    let bytes = small_bytes(alloc)?;
    for len in 0..bytes.len() {
        assert_eq!(rt; told_again(alloc, &setup, &bytes[..len])?, None);
    }
    Ok(())
}

#[test]
fn longer_bytes_are_no_world(rt: HostRuntime) -> Result<(), Fail> {
    let alloc = rt.alloc();
    let mut bytes = small_bytes(alloc)?;
    bytes.push(0)?;
    assert_eq!(rt; told_again(alloc, &setup_of(alloc, SMALL)?, &bytes)?, None);
    Ok(())
}

#[test]
fn bytes_are_of_one_soup_size(rt: HostRuntime) -> Result<(), Fail> {
    let alloc = rt.alloc();
    let larger = "soup_size = 101\nsave_at = 1\n[[creature]]\nat = 5\ncode = 'inc_b mov_iab'\n";
    let setup = setup_of(alloc, larger)?;
    assert_eq!(rt; told_again(alloc, &setup, &small_bytes(alloc)?)?, None);
    Ok(())
}

/// The result of `told_again` for the bytes with one of them changed.
fn told_changed(
    alloc: Global,
    setup: &Setup,
    bytes: &[u8],
    place: usize,
    value: u8,
) -> Result<Option<bool>, OutOfMemory> {
    let mut bytes = bytes.to_vec(alloc)?;
    if let Some(byte) = bytes.get_mut(place) {
        *byte = value;
    }
    told_again(alloc, setup, &bytes)
}

/// A place, the byte that is put there, and whether the bytes are then still a world.
const CHANGES: [(usize, u8, bool); 28] = [
    (9, 31, true), // a cell
    (9, 32, false), // no code
    (111, 1, true), // the quanta
    (119, 1, true), // the births
    (119, 2, false), // as many as the next birth number
    (127, 1, false), // the deaths, which the next birth number tells
    (135, 3, false), // the next birth number
    (139, 2, false), // more live than are told
    (147, 2, false), // a birth number that the reaper queue has not
    (151, 99, false), // a block past the end
    (155, 0, false), // and one of no cell
    (163, 5, true), // a daughter block before the creature's own
    (163, 6, false), // and one that shares a cell with it
    (191, 100, false), // an ip past the end
    (195, 7, true), // a word of the stack
    (235, 10, false), // its place on the stack
    (244, 3, true), // the errors
    (252, 1, false), // a genotype that there is not
    (276, 2, false), // somebody else in the reaper queue
    (290, 32, false), // no code of a genotype
    (298, 1, false), // a genotype that is its own parent
    (314, 0, false), // too few ever had what is saved
    (314, 2, true), //
    (322, 1, true), // a first effort
    (330, 1, false), // an effort of no instruction
    (354, 0, false), // bytes behind the last saving
    (362, 1, false), // a genotype saved that there is not
    (370, 1, false), // saved in a quantum to come
];

// (Where a test has the table itself, the prover takes it through each of the test's borrows.)
fn changes() -> [(usize, u8, bool); 28] {
    CHANGES
}

#[test]
fn a_changed_byte_is_refused_or_told_again(rt: HostRuntime) -> Result<(), Fail> {
    let alloc = rt.alloc();
    let setup = setup_of(alloc, SMALL)?;
    let bytes = small_bytes(alloc)?;
    for (place, value, sound) in changes() {
        let wanted = if sound { Some(true) } else { None };
        assert_eq!(rt; told_changed(alloc, &setup, &bytes, place, value)?, wanted);
    }
    Ok(())
}

#[test]
fn no_byte_is_changed_unseen(rt: HostRuntime) -> Result<(), Fail> {
    let alloc = rt.alloc();
    let setup = setup_of(alloc, SMALL)?;
    let bytes = small_bytes(alloc)?;
    for place in 0..403 {
        for value in [0, 1, 128, 255] {
            assert!(rt; told_changed(alloc, &setup, &bytes, place, value)? != Some(false));
        }
    }
    Ok(())
}
