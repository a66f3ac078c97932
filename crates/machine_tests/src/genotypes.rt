//! Births, and what is known after them.

ghost use Rattle.std.specs.Prelude.{◌≡◌, ◌^◌, ◌<◌, [], All, IfOk};
ghost use Rattle.tierra_model.specs.Ranges.{IsCode};

use genotyper::Genotypes;
use std::alloc::Global;
use std::process::Abort;
use std::test::Fail;
use tierra_model::{Code, Effort, OutOfMemory};

fn code(rt: &impl Abort, alloc: Global, cells: &[u8]) -> Result<Code, OutOfMemory>
    ensures { IfOk result IsCode }
{
    assert!(rt; 1 <= cells.len() && cells.len() <= 20000);
    assert!(rt; cells.iter().all(|c| *c < 32));
    let items = cells.to_vec(alloc)?;
    Ok(Code { items })
}

/// Checks that the totals are small.
fn check_totals(rt: &impl Abort, genotypes: &Genotypes)
    ensures { All (λ g. g.total < 2 ^ 60) genotypes.now.genotypes }
{
    for number in 0..genotypes.len() {
        assert!(rt; genotypes.total(number) < 1 << 60);
    }
}

/// What is known of a genotype: its name's rank, its total, its parent and the quantum of its first birth.
type Row = (u64, u64, Option<u64>, u64);

// What is known of the genotype with this number, which must have this code.
fn row(rt: &impl Abort, genotypes: &Genotypes, number: u64, cells: &[u8]) -> Row {
    assert!(rt; number < genotypes.len());
    let name = genotypes.name_of(number);
    assert!(rt; genotypes.code_of(number).items.as_slice() == cells);
    assert_eq!(rt; name.size as usize, cells.len());
    (
        name.rank,
        genotypes.total(number),
        genotypes.parent_of(number),
        genotypes.first_quantum(number),
    )
}

// Notes a birth. Gives the genotype's number and what is then known of it.
fn birth(
    rt: &impl Abort,
    alloc: Global,
    genotypes: &mut Genotypes,
    cells: &[u8],
    parent: Option<u64>,
    q: u64,
) -> Result<(u64, Row), OutOfMemory> {
    let code = code(rt, alloc, cells)?;
    genotypes.reserve(1)?;
    check_totals(rt, genotypes);
    let number = genotypes.note_birth(code, parent, q);
    Ok((number, row(rt, genotypes, number, cells)))
}

#[test]
fn births_are_numbered_and_counted(rt: HostRuntime) -> Result<(), Fail> {
    let mut genotypes = Genotypes::new(rt.alloc());
    let one = [1u8, 1];
    let two = [2u8, 3];
    let three = [4u8, 5];
    let long = [6u8, 7, 8];
    for (cells, parent, q, number, row) in [
        (one.as_slice(), None, 0, 0, (0, 1, None, 0)),
        (two.as_slice(), Some(0), 3, 1, (1, 1, Some(0), 3)),
        (long.as_slice(), Some(1), 4, 2, (0, 1, Some(1), 4)),
        (three.as_slice(), Some(0), 5, 3, (2, 1, Some(0), 5)),
        (one.as_slice(), Some(2), 6, 0, (0, 2, None, 0)),
        (two.as_slice(), Some(3), 7, 1, (1, 2, Some(0), 3)),
        (long.as_slice(), None, 8, 2, (0, 2, Some(1), 4)),
        (one.as_slice(), Some(3), 9, 0, (0, 3, None, 0)),
    ] {
        let born = birth(&rt, rt.alloc(), &mut genotypes, cells, parent, q)?;
        assert_eq!(rt; born, (number, row));
    }
    assert_eq!(rt; genotypes.len(), 4);
    Ok(())
}

// Enters a genotype. Gives the number that it had before, and the one that it has now.
fn enter_first(
    rt: &impl Abort,
    alloc: Global,
    genotypes: &mut Genotypes,
) -> Result<(Option<u64>, u64), OutOfMemory>
    requires { genotypes.old.genotypes ≡ [] }
{
    genotypes.reserve(1)?;
    let code = code(rt, alloc, &[1, 2, 3])?;
    let before = genotypes.number_of(&code);
    Ok((before, genotypes.enter_with(code, None, 5, 7)))
}

// Notes an effort of the first genotype. Gives its first two efforts.
fn efforts(
    rt: &impl Abort,
    genotypes: &mut Genotypes,
    bred: u64,
    ran: u64,
) -> (Option<Effort>, Option<Effort>) {
    assert!(rt; 0 < genotypes.len());
    genotypes.note_effort(0, bred, Effort { ran, moved: 80 });
    assert!(rt; 0 < genotypes.len());
    (genotypes.first_effort(0), genotypes.second_effort(0))
}

const FIRST: Option<Effort> = Some(Effort {
    ran: 839,
    moved: 80,
});

const SECOND: Option<Effort> = Some(Effort {
    ran: 813,
    moved: 80,
});

/// How many daughters were bred, what the last of them took, and the first two efforts after it.
const EFFORTS: [(u64, u64, (Option<Effort>, Option<Effort>)); 6] = [
    (3, 1, (None, None)),
    (2, 813, (None, SECOND)),
    (1, 839, (FIRST, SECOND)),
    (1, 2, (FIRST, SECOND)),
    (2, 3, (FIRST, SECOND)),
    (0, 4, (FIRST, SECOND)),
];

#[test]
fn first_efforts_stay(rt: HostRuntime) -> Result<(), Fail> {
    let mut genotypes = Genotypes::new(rt.alloc());
    let numbers = enter_first(&rt, rt.alloc(), &mut genotypes)?;
    let known = row(&rt, &genotypes, 0, &[1, 2, 3]);
    assert_eq!(rt; (numbers, known), ((None, 0), (0, 7, None, 5)));
    for (bred, ran, both) in EFFORTS {
        assert_eq!(rt; efforts(&rt, &mut genotypes, bred, ran), both);
    }
    Ok(())
}
