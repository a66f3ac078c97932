//! Curves of small soups, and the counts of a log.

use run_log::{Log, Point, curve};
use std::alloc::Global;
use std::test::Fail;
use test_soups::{ancestor_file, setup_of};
use tierra_model::Text;

/// The first creature's request kills the second.
const KILLER: &str = r#"
soup_size = 100
mal_mult = 100
[[creature]]
at = 0
code = "zero or1 shl shl shl shl shl shl mal nop_0"
[[creature]]
at = 50
code = "nop_1 nop_1 nop_1 nop_1 nop_1 nop_1 nop_1 nop_1 nop_1 nop_1"
"#;

/// The first creature's request kills the three next in the queue, until 83 cells in a row are free.
const THIRSTY: &str = r#"
soup_size = 100
mal_mult = 6
fill_percent = 100
[[creature]]
at = 0
code = "zero or1 shl shl shl shl shl shl mal nop_0 nop_0 nop_0"
[[creature]]
at = 30
code = "dec_c"
[[creature]]
at = 50
code = "dec_c"
[[creature]]
at = 70
code = "dec_c"
[[creature]]
at = 95
code = "dec_c"
"#;

/// The creature's second request kills the daughter that was born in the same quantum.
const HARSH: &str = r#"
soup_size = 100
mal_mult = 4
fill_percent = 50
move_percent = 1
[[creature]]
at = 0
code = "zero or1 shl shl shl shl mal mov_iab divide shl mal"
"#;

/// Half of the living die in quantum 2, and not the one that runs.
const DISTURBED: &str = r#"
soup_size = 100
dist_every = 2
dist_percent = 50
[[creature]]
at = 0
code = "inc_a"
[[creature]]
at = 10
code = "inc_b"
[[creature]]
at = 20
code = "inc_c"
[[creature]]
at = 30
code = "dec_c"
"#;

/// A soup file, quanta, how far apart counts are told, and the curve.
const CURVES: [(&str, u16, u16, &str); 4] = [
    (
        KILLER,
        1,
        1,
        "death 1 2
at 0 living 2 births 0 deaths 0
at 1 living 1 births 0 deaths 1
",
    ),
    (
        THIRSTY,
        1,
        1,
        "death 1 2
death 1 3
death 1 4
at 0 living 5 births 0 deaths 0
at 1 living 2 births 0 deaths 3
",
    ),
    (
        HARSH,
        1,
        1,
        "birth 1 2
death 1 2
at 0 living 1 births 0 deaths 0
at 1 living 1 births 1 deaths 1
",
    ),
    (
        DISTURBED,
        3,
        1000,
        "death 2 1
death 2 3
at 0 living 4 births 0 deaths 0
at 3 living 2 births 0 deaths 2
",
    ),
];

/// The curve of the ancestor's 101 quanta.
const ANCESTOR_CURVE: &str = "birth 34 2
birth 100 3
birth 101 4
at 0 living 1 births 0 deaths 0
at 34 living 2 births 1 deaths 0
at 68 living 2 births 1 deaths 0
at 101 living 4 births 3 deaths 0
";

fn curve_of(alloc: Global, file: &str, quanta: u16, every: u16) -> Result<Text, Fail> {
    let setup = setup_of(alloc, file)?;
    Ok(curve(alloc, &setup, u64::from(quanta), u64::from(every).max(1))?)
}

#[test]
fn curves_are_told(rt: HostRuntime) -> Result<(), Fail> {
    for (file, quanta, every, want) in CURVES {
        let text = curve_of(rt.alloc(), file, quanta, every)?;
        assert_eq!(rt; str::from_utf8(text.items.as_slice())?, want);
    }
    Ok(())
}

#[test]
fn the_ancestors_curve_is_told(rt: HostRuntime) -> Result<(), Fail> {
    let file = ancestor_file(rt.alloc(), "")?;
    let rows = [
        (101, 34, ANCESTOR_CURVE),
        (0, 5, "at 0 living 1 births 0 deaths 0\n"),
    ];
    for (quanta, every, want) in rows {
        let text = curve_of(rt.alloc(), &file, quanta, every)?;
        assert_eq!(rt; str::from_utf8(text.items.as_slice())?, want);
    }
    Ok(())
}

#[test]
fn counts_are_those_of_the_records(rt: HostRuntime) -> Result<(), Fail> {
    let mut log = Log::new(rt.alloc(), 2);
    log.reserve(4)?;
    log.born(3, 3);
    log.died(3, 1);
    log.born(5, 4);
    log.died(9, 4);
    let rows = [
        (0, 2, 0, 0),
        (2, 2, 0, 0),
        (3, 2, 1, 1),
        (4, 2, 1, 1),
        (5, 3, 2, 1),
        (8, 3, 2, 1),
        (9, 2, 2, 2),
        (u64::MAX, 2, 2, 2),
    ];
    for (quantum, living, births, deaths) in rows {
        let point = Point {
            living,
            births,
            deaths,
        };
        assert_eq!(rt; log.at(quantum), point, "{quantum}");
    }
    Ok(())
}
