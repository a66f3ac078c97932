//! Isles of a soup with two creatures, of one without room, and of the ancestor.

use soup_isles::{WorldList, isles_text, run_isles};
use std::alloc::Global;
use std::test::Fail;
use std::thread::Threads;
use test_soups::{TWO, ancestor_file, setup_of};
use tierra_model::Now;
use world_core::World;

/// A creature with more than half of the cells.
const LARGE_FILE: &str = r#"
soup_size = 100
[[creature]]
at = 49
code = """
inc_a inc_a inc_a inc_a inc_a inc_a inc_a inc_a inc_a inc_a inc_a inc_a inc_a inc_a inc_a inc_a inc_a
inc_a inc_a inc_a inc_a inc_a inc_a inc_a inc_a inc_a inc_a inc_a inc_a inc_a inc_a inc_a inc_a inc_a
inc_a inc_a inc_a inc_a inc_a inc_a inc_a inc_a inc_a inc_a inc_a inc_a inc_a inc_a inc_a inc_a inc_a
"""
"#;

/// The report of each of the two-creature isles, with the migrant.
const TWO_REPORT: &str = "quanta 1\nbirths 0\ndeaths 0\nliving 3\nfilled 12\n\
    front 2 ip 0 ax 0 bx 0 cx 0 dx 0 flag 0 errors 0\ngenotypes 2\nkept 1\n0005aaa 2 2\n0002aaa 1 1\n";

/// The report of an isle of two creatures that is the only one, so that no migrant comes.
const ALONE_REPORT: &str = "quanta 1\nbirths 0\ndeaths 0\nliving 2\nfilled 7\n\
    front 2 ip 0 ax 0 bx 0 cx 0 dx 0 flag 0 errors 0\ngenotypes 2\nkept 0\n0005aaa 1 1\n0002aaa 1 1\n";

/// The report of each isle that has no room for a migrant.
const LARGE_REPORT: &str = "quanta 1\nbirths 0\ndeaths 0\nliving 1\nfilled 51\n\
    front 1 ip 74 ax 25 bx 0 cx 0 dx 0 flag 0 errors 0\ngenotypes 1\nkept 0\n0051aaa 1 1\n";

/// The worlds of isles of a soup file, after this many epochs of one quantum.
fn worlds_of<R: Threads + Sync>(
    rt: &R,
    alloc: Global,
    file: &str,
    isles: u8,
    workers: u8,
) -> Result<WorldList, Fail> {
    let setup = setup_of(alloc, file)?;
    let isles = u32::from(isles).clamp(1, 64);
    let workers = u32::from(workers).clamp(1, 64);
    Ok(run_isles(rt, alloc, &setup, isles, 2, 1, workers)?)
}

/// The first eight cells of a world.
fn first_cells(alloc: Global, world: &World) -> Result<Vec<u8>, Fail> {
    let mut cells = Vec::new(alloc);
    for at in 0..world.settings().soup_size.min(8) {
        cells.push(world.cell(at))?;
    }
    Ok(cells)
}

/// Where the block of a living creature is, and how large.
fn block_of(world: &World, id: u64) -> Option<(u32, u32)> {
    world.creature(id).map(|c| (c.own.at, c.own.size))
}

/// The text of isles that all have the same report.
fn same_text(alloc: Global, isles: u8, report: &str) -> Result<Vec<u8>, Fail> {
    let mut text = Vec::new(alloc);
    for isle in 1..u32::from(isles) + 1 {
        let piece = format!(in alloc; "isle {isle}\n{report}")?;
        text.extend_from_slice(piece.as_bytes())?;
    }
    Ok(text)
}

#[test]
fn isles_are_the_same_for_every_number_of_workers(rt: HostRuntime) -> Result<(), Fail> {
    let alloc = rt.alloc();
    let rows = [
        (TWO, 2, 1, TWO_REPORT),
        (TWO, 2, 3, TWO_REPORT),
        (TWO, 2, 64, TWO_REPORT),
        (TWO, 64, 4, TWO_REPORT),
        (TWO, 64, 64, TWO_REPORT),
        (TWO, 1, 2, ALONE_REPORT),
        (LARGE_FILE, 3, 2, LARGE_REPORT),
    ];
    for (file, isles, workers, report) in rows {
        let worlds = worlds_of(&rt, alloc, file, isles, workers)?;
        let text = isles_text(alloc, &worlds)?;
        assert_eq!(rt;
            text.items.as_slice(),
            same_text(alloc, isles, report)?.as_slice()
        );
    }
    Ok(())
}

#[test]
fn the_migrant_comes_last_to_the_least_address(rt: HostRuntime) -> Result<(), Fail> {
    let alloc = rt.alloc();
    let setup = setup_of(alloc, TWO)?;
    for world in run_isles(&rt, alloc, &setup, 2, 2, 1, 2)?.items.iter() {
        let blocks = [1, 2, 3, 4].map(|id| block_of(world, id));
        assert_eq!(rt; blocks, [Some((90, 5)), Some((0, 2)), Some((2, 5)), None]);
        let cells = first_cells(alloc, world)?;
        assert_eq!(rt; cells.as_slice(), [26, 26, 1, 1, 1, 1, 1, 0].as_slice());
    }
    Ok(())
}

#[test]
fn daughter_blocks_are_lost(rt: HostRuntime) -> Result<(), Fail> {
    let alloc = rt.alloc();
    let setup = setup_of(alloc, &ancestor_file(alloc, "")?)?;
    for (epochs, living, second) in [(1, 1, None), (2, 2, Some(80)), (3, 3, Some(80))] {
        let worlds = run_isles(&rt, alloc, &setup, 2, epochs, 10, 2)?;
        for world in worlds.items.iter() {
            assert_eq!(rt; world.living(), living);
            assert_eq!(rt; world.creature(2).map(|c| c.own.at), second);
            assert_eq!(rt; world.genotypes().len(), 1);
        }
    }
    let worlds = run_isles(&rt, alloc, &setup, 2, 1, 10, 2)?;
    for world in worlds.items.iter() {
        assert_eq!(rt;
            world.front().daughter.map(|b| (b.at, b.size)),
            Some((80, 80))
        );
    }
    Ok(())
}

/// The seeds of isles 1 and 2 in epoch 1, and then in epoch 2, where the file's seed is 31 zeros and 255.
const SEEDS: [[u8; 32]; 4] = [
    [
        0xb3, 0x5c, 0xb9, 0x3c, 0xaf, 0x64, 0x47, 0x96, 0x03, 0x54, 0xab, 0xec, 0xd7, 0x23, 0xac,
        0xd2, 0xcc, 0x8b, 0x06, 0xdd, 0xbe, 0x20, 0x97, 0xec, 0x6e, 0x56, 0x0a, 0x6a, 0xf9, 0x4f,
        0xca, 0xb8,
    ],
    [
        0xad, 0x5c, 0x4c, 0xb2, 0xf6, 0xf7, 0xa4, 0xf5, 0x94, 0x4e, 0xd2, 0x1b, 0x67, 0x8d, 0x4e,
        0xd7, 0x8d, 0x09, 0xa3, 0x44, 0x05, 0x51, 0x9a, 0x52, 0xf8, 0xd4, 0xf2, 0xf6, 0x98, 0x8d,
        0x0b, 0x1c,
    ],
    [
        0x48, 0x3a, 0x6a, 0x7c, 0x02, 0x4a, 0xd8, 0xcb, 0xec, 0x54, 0xdb, 0xb7, 0xed, 0x5a, 0x20,
        0xdd, 0xc1, 0xbc, 0xca, 0xd7, 0x5e, 0x5c, 0x33, 0xb4, 0xe5, 0x94, 0xd5, 0x94, 0x2a, 0x6b,
        0xa9, 0xc3,
    ],
    [
        0xdd, 0x35, 0xcc, 0x92, 0x98, 0x00, 0x4d, 0xf6, 0x78, 0xd2, 0x85, 0x78, 0xad, 0xf1, 0x89,
        0xfb, 0xbb, 0x6f, 0x51, 0x32, 0x5f, 0x61, 0x35, 0x4e, 0x10, 0x0e, 0xd7, 0xba, 0x86, 0x53,
        0xc4, 0x71,
    ],
];

#[test]
fn each_isle_has_a_seed_in_each_epoch(rt: HostRuntime) -> Result<(), Fail> {
    let alloc = rt.alloc();
    let file = format!(in alloc; "seed = \"{:062}ff\"\n{TWO}", 0)?;
    let setup = setup_of(alloc, &file)?;
    for epochs in [1, 2] {
        let worlds = run_isles(&rt, alloc, &setup, 2, epochs, 1, 1)?;
        let found: [Option<[u8; 32]>; 2] = [0, 1].map(|k| worlds
            .items
            .get(k)
            .map(|w| w.settings().seed));
        let first = (epochs as usize - 1) * 2;
        assert_eq!(rt; found, [Some(SEEDS[first]), Some(SEEDS[first + 1])]);
    }
    Ok(())
}
