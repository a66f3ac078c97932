//! Versions of a soup.

ghost use Rattle.std.specs.Prelude.{◌≡◌, ◌<◌};

use soup_cells::{PAGE, Soup, Version};
use std::alloc::Global;
use std::test::Fail;
use tierra_model::OutOfMemory;

const VERSIONS: u32 = 12_000;

// the last cell of the first page and the first of the second
const LAST: u32 = 4095;

const FIRST: u32 = 4096;

// Makes both cells at the edge of a page ready, and then sets them.
fn set_both(soup: &mut Soup, last: u8, first: u8) -> Result<(), OutOfMemory>
    requires last { last < 32 }
    requires first { first < 32 }
{
    if soup.row().len() > FIRST as usize {
        soup.ready(LAST)?;
        soup.ready(FIRST)?;
        soup.set(LAST, last);
        soup.set(FIRST, first);
    }
    Ok(())
}

// Sets a cell, if it is there.
fn set_cell(soup: &mut Soup, at: u32, value: u8) -> Result<(), OutOfMemory>
    requires { value < 32 }
{
    if (at as usize) < soup.row().len() {
        soup.ready(at)?;
        soup.set(at, value);
    }
    Ok(())
}

// Those two cells of a soup.
fn both_now(soup: &Soup) -> Option<(u8, u8)> {
    if soup.row().len() > FIRST as usize {
        Some((soup.get(LAST), soup.get(FIRST)))
    } else {
        None
    }
}

// And of a version.
fn both_in(version: &Version) -> Option<(u8, u8)> {
    if FIRST < version.size() {
        Some((version.get(LAST), version.get(FIRST)))
    } else {
        None
    }
}

// How many cells a version has, the last cell of its first page, and how long its third page is.
fn pages_of(version: &Version) -> Option<(u32, u8, usize)> {
    let size = version.size();
    if 2 * PAGE < size {
        Some((
            size,
            version.page(0)[PAGE as usize - 1],
            version.page(2).len(),
        ))
    } else {
        None
    }
}

#[test]
fn a_version_keeps_its_cells(rt: HostRuntime) -> Result<(), Fail> {
    let mut soup = Soup::new(rt.alloc(), 10_000)?;
    let first = soup.version()?;
    set_both(&mut soup, 7, 9)?;
    let second = for_threads(soup.version()?);
    set_cell(&mut soup, LAST, 3)?;
    let cells = [both_in(&first), both_in(&second), both_now(&soup)];
    assert_eq!(rt;
        (cells, pages_of(&second)),
        ([(0, 0), (7, 9), (3, 9)].map(Some), Some((10_000, 7, 1808)))
    );
    Ok(())
}

// Makes a version before each of the sets.
fn many_versions(alloc: Global) -> Result<Vec<Version>, OutOfMemory> {
    let mut soup = Soup::new(alloc, 1_048_576)?;
    let mut versions = Vec::new(alloc);
    for k in 0..VERSIONS {
        versions.push(soup.version()?)?;
        set_cell(&mut soup, place(k), code(k))?;
    }
    Ok(versions)
}

// Whether version number k has what was set before it, and not what was set after it.
fn is_before(version: &Version, k: u32) -> bool {
    let before = if k < 6000 { 0 } else { code(k - 6000) };
    (k == 0 || cell(version, place(k - 1)) == code(k - 1)) && cell(version, place(k)) == before
}

#[test]
fn many_versions_are_kept(rt: HostRuntime) -> Result<(), Fail> {
    let versions = many_versions(rt.alloc())?;
    for (k, version) in (0..VERSIONS).zip(versions.iter()) {
        assert!(rt; is_before(version, k));
    }
    Ok(())
}

fn for_threads<T: Send + Sync>(value: T) -> T
    ensures { result ≡ value }
{
    value
}

// where set number k writes; set number k + 6,000 writes there again
fn place(k: u32) -> u32 {
    k % 6000 * 174
}

fn code(k: u32) -> u8
    ensures { result < 32 }
{
    1 + (k % 31) as u8
}

fn cell(version: &Version, at: u32) -> u8 {
    if at < version.size() {
        version.get(at)
    } else {
        u8::MAX
    }
}
