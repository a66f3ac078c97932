//! Searches in a small soup that counts the looks, and in one that has a row and counts none.

ghost use Rattle.std.specs.Prelude.{◌≡◌, ◌≤◌, ◌<◌, IfOk, length};

use std::alloc::{AllocError, Global};
use std::marker::Model;
use std::test::Fail;
use template_search::{Found, Way, search};
use tierra_model::View;

#[derive(Drop)]
struct Flat {
    cells: Vec<u8>,
    looks: u64,
}

impl Model for Flat {
    ghost use Rattle.std.specs.Prelude.{List, ℕ, vec_len, ◌≤◌};

    // what the cells hold, and how often they were looked at
    ghost Value = { List ℕ × ℕ };

    ghost view = { λ v. (v.cells.items, v.looks) };

    ghost invariant = { λ v. vec_len v.cells ≤ 1048576 };
}

impl Flat {
    fn put(&mut self, at: u32, value: u8)
        ensures { length self.new.0 ≡ length self.old.0 }
    {
        if let Some(cell) = self.cells.get_mut(at as usize) {
            *cell = value;
        }
    }
}

impl View for Flat {
    ghost use Rattle.std.specs.Prelude.{◌+◌, ◌%◌, ◌^◌, true, length, slice_index, slice_set};
    ghost use Rattle.std.proofs.Common.{arith, get_or-set_other, length-set, refl};
    ghost use Rattle.std.proofs.lemmas.Grind.{get_or-set_at};
    ghost use Rattle.std.proofs.lemmas.Bool.Decides.{nat_tests};

    ghost size = { λ v. length v.0 };

    ghost cells = { λ v p. slice_index v.0 p };

    ghost writable = { λ v p. true };

    ghost looked = { λ v p. (v.0, (v.1 + 1) % 2 ^ 64) };

    ghost written = { λ v p x. (slice_set v.0 p x, v.1) };

    ghost look_keeps_size = { λ v p. refl };

    ghost look_keeps_cells = { λ v p q. refl };

    ghost look_keeps_writable = { λ v p q. refl };

    ghost write_keeps_size = { λ v p x _ _ _. length-set v.0 p x };

    ghost write_sets_cell = { λ v p x q here _ _ there. Prim.grind
        (arith, nat_tests, get_or-set_at, get_or-set_other) };

    ghost write_keeps_writable = { λ v p x q _ _ _. refl };

    fn size(&self) -> u32 {
        self.cells.len() as u32
    }

    fn get(&mut self, at: u32) -> u8 {
        self.looks = self.looks.wrapping_add(1);
        self.cells[at as usize]
    }

    fn may_write(&self, at: u32) -> bool {
        true
    }

    fn set(&mut self, at: u32, value: u8) {
        self.cells[at as usize] = value;
    }
}

/// The cells of such a soup, without a count of the looks.
#[derive(Drop)]
struct Plain {
    cells: Vec<u8>,
}

impl Model for Plain {
    ghost use Rattle.std.specs.Prelude.{List, ℕ, vec_len, ◌≤◌};

    ghost Value = { List ℕ };

    ghost view = { λ v. v.cells.items };

    ghost invariant = { λ v. vec_len v.cells ≤ 1048576 };
}

impl View for Plain {
    ghost use Rattle.std.specs.Prelude.{true, length, slice_index, slice_set};
    ghost use Rattle.std.proofs.Common.{arith, get_or-set_other, length-set, refl};
    ghost use Rattle.std.proofs.lemmas.Grind.{get_or-set_at};
    ghost use Rattle.std.proofs.lemmas.Bool.Decides.{nat_tests};

    ghost size = { λ v. length v };

    ghost cells = { λ v p. slice_index v p };

    ghost writable = { λ v p. true };

    ghost looked = { λ v p. v };

    ghost written = { λ v p x. slice_set v p x };

    ghost look_keeps_size = { λ v p. refl };

    ghost look_keeps_cells = { λ v p q. refl };

    ghost look_keeps_writable = { λ v p q. refl };

    ghost write_keeps_size = { λ v p x _ _ _. length-set v p x };

    ghost write_sets_cell = { λ v p x q here _ _ there. Prim.grind
        (arith, nat_tests, get_or-set_at, get_or-set_other) };

    ghost write_keeps_writable = { λ v p x q _ _ _. refl };

    fn size(&self) -> u32 {
        self.cells.len() as u32
    }

    fn get(&mut self, at: u32) -> u8 {
        self.cells[at as usize]
    }

    fn may_write(&self, at: u32) -> bool {
        true
    }

    fn set(&mut self, at: u32, value: u8) {
        self.cells[at as usize] = value;
    }

    fn row(&self) -> Option<&[u8]> {
        Some(self.cells.as_slice())
    }
}

// a soup of cells that hold 08, which is no nop, except for the cells listed
fn soup(alloc: Global, size: u32, nops: &[(u32, u8)]) -> Result<Flat, AllocError>
    requires { size ≤ 1048576 }
    ensures { IfOk result (λ v. length v.0 ≡ size) }
{
    let cells = vec![in alloc; 8; size as usize]?;
    let mut soup = Flat { cells, looks: 0 };
    for (at, nop) in nops {
        soup.put(*at, *nop);
    }
    Ok(soup)
}

// what a search finds in such a soup, and after how many looks; 0 looks if a search in a row finds something else
fn find(
    alloc: Global,
    size: u32,
    nops: &[(u32, u8)],
    ip: u32,
    way: Way,
    limit: u32,
    min: u32,
) -> Result<(Found, u64), AllocError>
    requires ip { ip < size }
    requires size { size ≤ 1048576 }
{
    let mut soup = soup(alloc, size, nops)?;
    let mut plain = Plain {
        cells: soup.cells.clone()?,
    };
    let found = search(&mut soup, ip, way, limit, min);
    let in_row = search(&mut plain, ip, way, limit, min);
    Ok((found, if in_row == found { soup.looks } else { 0 }))
}

#[test]
fn finds_the_nearest(rt: HostRuntime) -> Result<(), Fail> {
    let alloc = rt.alloc();
    let nops = &[(9, 0), (6, 1), (11, 1)];
    let rows = [
        (Way::Outward, 16, 1, (Found::At(12), 5)),
        (Way::Backward, 16, 1, (Found::At(7), 4)),
        (Way::Forward, 16, 1, (Found::At(12), 4)),
        (Way::Outward, 1, 1, (Found::NoMatch, 4)),
        (Way::Outward, 16, 2, (Found::Short, 2)),
    ];
    for (way, limit, min, want) in rows {
        assert_eq!(rt; find(alloc, 16, nops, 8, way, limit, min)?, want);
    }
    assert_eq!(rt;
        find(alloc, 16, &[(6, 1), (11, 1)], 8, Way::Outward, 16, 1)?,
        (Found::Short, 1)
    );
    Ok(())
}

#[test]
fn takes_ten_of_eleven_nops(rt: HostRuntime) -> Result<(), Fail> {
    let nops = &[
        (1, 0),
        (2, 0),
        (3, 0),
        (4, 0),
        (5, 0),
        (6, 0),
        (7, 0),
        (8, 0),
        (9, 0),
        (10, 0),
        (11, 0),
        (20, 1),
        (21, 1),
        (22, 1),
        (23, 1),
        (24, 1),
        (25, 1),
        (26, 1),
        (27, 1),
        (28, 1),
        (29, 1),
    ];
    assert_eq!(rt;
        find(rt.alloc(), 100, nops, 0, Way::Outward, 50, 1)?,
        (Found::At(30), 38)
    );
    Ok(())
}

#[test]
fn goes_round_the_ring(rt: HostRuntime) -> Result<(), Fail> {
    let alloc = rt.alloc();
    let match_across = &[(3, 0), (4, 0), (99, 1), (0, 1)];
    let template_across = &[(99, 0), (0, 1), (50, 1), (51, 0)];
    let match_at_the_end = &[(9, 1), (15, 0)];
    for (found, want) in [
        (
            find(alloc, 100, match_across, 2, Way::Backward, 50, 1)?,
            (Found::At(1), 7),
        ),
        (
            find(alloc, 100, template_across, 98, Way::Outward, 50, 1)?,
            (Found::At(52), 98),
        ),
        (
            find(alloc, 100, template_across, 98, Way::Forward, 50, 1)?,
            (Found::At(52), 54),
        ),
        (
            find(alloc, 100, template_across, 98, Way::Forward, 49, 1)?,
            (Found::NoMatch, 52),
        ),
        (
            find(alloc, 16, match_at_the_end, 8, Way::Forward, 6, 1)?,
            (Found::At(0), 8),
        ),
    ] {
        assert_eq!(rt; found, want);
    }
    Ok(())
}

#[test]
fn goes_on_to_its_limit(rt: HostRuntime) -> Result<(), Fail> {
    let alloc = rt.alloc();
    let own_cell = &[(0, 1), (1, 0)];
    for (found, want) in [
        (
            find(alloc, 5, own_cell, 0, Way::Forward, 12, 1)?,
            (Found::At(1), 6),
        ),
        (
            find(alloc, 5, own_cell, 0, Way::Forward, 3, 1)?,
            (Found::NoMatch, 5),
        ),
        (
            find(alloc, 5, &[(1, 0)], 0, Way::Outward, 12, 1)?,
            (Found::NoMatch, 26),
        ),
        (
            find(alloc, 1, &[(0, 0)], 0, Way::Outward, 3, 10)?,
            (Found::NoMatch, 16),
        ),
        (
            find(alloc, 1, &[], 0, Way::Outward, 3, 1)?,
            (Found::Short, 1),
        ),
        (
            find(alloc, 100, &[(1, 0)], 0, Way::Outward, 1048576, 1)?,
            (Found::NoMatch, 2097154),
        ),
    ] {
        assert_eq!(rt; found, want);
    }
    Ok(())
}

// the candidate at cell 10, a full circle ahead, is the only match
#[test]
fn finds_a_match_a_full_circle_away(rt: HostRuntime) -> Result<(), Fail> {
    let nops = &[
        (1, 0),
        (2, 0),
        (3, 0),
        (4, 0),
        (5, 0),
        (6, 0),
        (7, 0),
        (8, 0),
        (9, 0),
        (10, 1),
        (11, 1),
        (12, 1),
        (13, 1),
        (14, 1),
        (15, 1),
        (16, 1),
        (17, 1),
        (18, 1),
        (19, 0),
    ];
    let rows = [
        (19, (Found::NoMatch, 65)),
        (20, (Found::At(0), 75)),
        (1048576, (Found::At(0), 75)),
    ];
    for (limit, want) in rows {
        assert_eq!(rt;
            find(rt.alloc(), 20, nops, 0, Way::Forward, limit, 1)?,
            want
        );
    }
    Ok(())
}

// what a search finds from cell 100 of 200 cells with runs of nops; a run is its place, its length and its nop
fn find_in_runs(
    alloc: Global,
    runs: &[(u32, u32, u8)],
    way: Way,
    limit: u32,
) -> Result<(Found, u64), AllocError> {
    let mut nops = Vec::new(alloc);
    for (start, count, nop) in runs {
        for k in 0..*count {
            nops.push((start.wrapping_add(k), *nop))?;
        }
    }
    find(alloc, 200, &nops, 100, way, limit, 1)
}

#[test]
fn compares_long_templates(rt: HostRuntime) -> Result<(), Fail> {
    let alloc = rt.alloc();
    let ten = &[(101, 10, 0), (120, 9, 1), (60, 10, 1)];
    let nine = &[(101, 9, 0), (115, 8, 1), (70, 9, 1)];
    let eight = &[(101, 8, 0), (115, 7, 1), (70, 8, 1)];
    for (found, want) in [
        (
            find_in_runs(alloc, ten, Way::Outward, 90)?,
            (Found::At(70), 171),
        ),
        (
            find_in_runs(alloc, ten, Way::Forward, 90)?,
            (Found::NoMatch, 145),
        ),
        (
            find_in_runs(alloc, nine, Way::Outward, 90)?,
            (Found::At(79), 134),
        ),
        (
            find_in_runs(alloc, eight, Way::Outward, 90)?,
            (Found::At(78), 118),
        ),
    ] {
        assert_eq!(rt; found, want);
    }
    Ok(())
}

#[test]
fn compares_short_templates(rt: HostRuntime) -> Result<(), Fail> {
    let alloc = rt.alloc();
    let three = &[
        (101, 1, 0),
        (102, 1, 1),
        (103, 1, 0),
        (130, 1, 1),
        (131, 1, 0),
        (132, 1, 1),
    ];
    for (found, want) in [
        (
            find_in_runs(alloc, three, Way::Outward, 90)?,
            (Found::At(133), 59),
        ),
        (
            find_in_runs(alloc, &[(101, 1, 1), (192, 1, 0)], Way::Forward, 90)?,
            (Found::NoMatch, 92),
        ),
        (
            find_in_runs(alloc, &[(101, 1, 1), (193, 1, 0)], Way::Outward, 95)?,
            (Found::At(194), 185),
        ),
    ] {
        assert_eq!(rt; found, want);
    }
    Ok(())
}

// what a search finds from cell `ip` of 200 cells, with the template 0 1 after it and the complement at `starts`
fn find_complement(
    alloc: Global,
    ip: u32,
    starts: &[u32],
    way: Way,
    limit: u32,
) -> Result<(Found, u64), AllocError>
    requires { ip < 200 }
{
    let mut nops = Vec::new(alloc);
    nops.push((ip + 1, 0))?;
    nops.push((ip + 2, 1))?;
    for start in starts {
        nops.push((*start, 1))?;
        nops.push((start.wrapping_add(1) % 200, 0))?;
    }
    find(alloc, 200, &nops, ip, way, limit, 1)
}

// Each search has three looks at the template, and one at each candidate that does not match. From cell 100 a candidate
// at distance d begins at 102 + d or 99 - d.
#[test]
fn finds_a_match_at_each_distance(rt: HostRuntime) -> Result<(), Fail> {
    let ahead = [
        (104, 106, 7, 6),
        (117, 119, 33, 19),
        (118, 120, 35, 20),
        (119, 121, 37, 21),
        (133, 135, 65, 35),
        (134, 136, 67, 36),
        (135, 137, 69, 37),
    ];
    let behind = [
        (98, 100, 6, 5),
        (84, 86, 34, 19),
        (83, 85, 36, 20),
        (82, 84, 38, 21),
        (68, 70, 66, 35),
        (67, 69, 68, 36),
        (66, 68, 70, 37),
    ];
    for (way, rows) in [(Way::Forward, ahead), (Way::Backward, behind)] {
        for (start, place, outward, one_way) in rows {
            let both = find_complement(rt.alloc(), 100, &[start], Way::Outward, 60)?;
            assert_eq!(rt; both, (Found::At(place), outward));
            let one = find_complement(rt.alloc(), 100, &[start], way, 60)?;
            assert_eq!(rt; one, (Found::At(place), one_way));
        }
    }
    Ok(())
}

#[test]
fn takes_the_nearest_of_two(rt: HostRuntime) -> Result<(), Fail> {
    let rows = [
        ([118, 83], Way::Outward, (Found::At(120), 35)),
        ([133, 68], Way::Outward, (Found::At(135), 65)),
        ([117, 83], Way::Outward, (Found::At(119), 33)),
        ([119, 83], Way::Outward, (Found::At(85), 36)),
        ([134, 68], Way::Outward, (Found::At(70), 66)),
        ([119, 83], Way::Forward, (Found::At(121), 21)),
        ([117, 83], Way::Backward, (Found::At(85), 20)),
        ([110, 106], Way::Outward, (Found::At(108), 11)),
        ([110, 106], Way::Forward, (Found::At(108), 8)),
        ([90, 95], Way::Outward, (Found::At(97), 12)),
        ([90, 95], Way::Backward, (Found::At(97), 8)),
    ];
    for (starts, way, want) in rows {
        assert_eq!(rt; find_complement(rt.alloc(), 100, &starts, way, 60)?, want);
    }
    Ok(())
}

#[test]
fn stops_at_its_limit(rt: HostRuntime) -> Result<(), Fail> {
    let rows = [
        (118, Way::Outward, 16, (Found::At(120), 35)),
        (118, Way::Outward, 15, (Found::NoMatch, 33)),
        (83, Way::Outward, 15, (Found::NoMatch, 33)),
        (119, Way::Forward, 17, (Found::At(121), 21)),
        (119, Way::Forward, 16, (Found::NoMatch, 19)),
        (134, Way::Forward, 31, (Found::NoMatch, 34)),
        (83, Way::Backward, 16, (Found::At(85), 20)),
        (83, Way::Backward, 15, (Found::NoMatch, 18)),
        (66, Way::Backward, 32, (Found::NoMatch, 35)),
    ];
    for (start, way, limit, want) in rows {
        assert_eq!(rt;
            find_complement(rt.alloc(), 100, &[start], way, limit)?,
            want
        );
    }
    Ok(())
}

// From cell 160 the candidates ahead begin at 162 + d, and from cell 20 those behind at 19 - d.
#[test]
fn finds_a_match_near_an_end(rt: HostRuntime) -> Result<(), Fail> {
    let ahead = [
        (178, 180, 35, 20),
        (192, 194, 63, 34),
        (193, 195, 65, 35),
        (198, 0, 75, 40),
        (199, 1, 77, 41),
        (0, 2, 79, 42),
    ];
    let behind = [
        (3, 5, 36, 20),
        (2, 4, 38, 21),
        (1, 3, 40, 22),
        (0, 2, 42, 23),
        (199, 1, 44, 24),
        (198, 0, 46, 25),
    ];
    for (ip, way, rows) in [(160, Way::Forward, ahead), (20, Way::Backward, behind)] {
        for (start, place, outward, one_way) in rows {
            let both = find_complement(rt.alloc(), ip, &[start], Way::Outward, 60)?;
            assert_eq!(rt; both, (Found::At(place), outward));
            let one = find_complement(rt.alloc(), ip, &[start], way, 60)?;
            assert_eq!(rt; one, (Found::At(place), one_way));
        }
    }
    Ok(())
}

// A template of ten cells is the only one whose match ahead can be at distance 1.
#[test]
fn finds_a_match_beside_ten_nops(rt: HostRuntime) -> Result<(), Fail> {
    let alloc = rt.alloc();
    let ahead = &[(101, 10, 0), (111, 10, 1)];
    let behind = &[(101, 10, 0), (90, 10, 1)];
    let both = &[(101, 10, 0), (111, 10, 1), (90, 10, 1)];
    for (found, want) in [
        (
            find_in_runs(alloc, ahead, Way::Outward, 60)?,
            (Found::At(121), 20),
        ),
        (
            find_in_runs(alloc, ahead, Way::Forward, 60)?,
            (Found::At(121), 20),
        ),
        (
            find_in_runs(alloc, behind, Way::Outward, 60)?,
            (Found::At(100), 21),
        ),
        (
            find_in_runs(alloc, behind, Way::Backward, 60)?,
            (Found::At(100), 20),
        ),
        (
            find_in_runs(alloc, both, Way::Outward, 60)?,
            (Found::At(121), 20),
        ),
    ] {
        assert_eq!(rt; found, want);
    }
    Ok(())
}

// a row is not known where it holds 255
#[test]
fn looks_where_the_row_is_not_known(rt: HostRuntime) -> Result<(), Fail> {
    let alloc = rt.alloc();
    let apart = &[
        (101, 0),
        (102, 1),
        (108, 255),
        (92, 255),
        (118, 1),
        (119, 0),
    ];
    let after_one = &[(101, 0), (102, 1), (104, 1), (105, 255), (118, 1), (119, 0)];
    for (nops, way, want) in [
        (apart, Way::Outward, (Found::At(120), 35)),
        (apart, Way::Forward, (Found::At(120), 20)),
        (after_one, Way::Outward, (Found::At(120), 36)),
        (after_one, Way::Forward, (Found::At(120), 21)),
    ] {
        assert_eq!(rt; find(alloc, 200, nops, 100, way, 60, 1)?, want);
    }
    Ok(())
}
