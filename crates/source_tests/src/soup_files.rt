//! Soup files with their setups, and those that are refused.

use soup_file::{FileFault, read_setup};
use std::alloc::{AllocError, Global};
use std::test::Fail;
use tierra_asm::{AsmFault, assemble};
use tierra_model::{Inoculum, Settings, Setup, grow_setup};

const EVERY_KEY: &str = r#"
soup_size = 100
slice_size = 0x10
slice_by_size = true
slice_num = 2
slice_den = 3
search_limit = 50
min_template = 2
min_cell = 5
max_cell = 5
mal_mult = 4
fill_percent = 90
move_percent = 0
save_at = 7
back_rate = 8
copy_rate = 9
flaw_rate = 4294967295
seed = "000102030405060708090a0b0c0d0e0f101112131415161718191A1B1C1D1EfF"
dist_every = 6
dist_percent = 20

[[creature]]
at = 95
code = """
zero or1 ; five cells
shl shl mov_cd
"""

[[creature]]
code = 'nop_1'
at = 0
"#;

/// What is expected of a soup file that is refused.
#[derive(Clone, Copy)]
enum Refusal {
    NotToml,
    UnknownKey(&'static str),
    WrongKind(&'static str),
    OutOfRange(&'static str),
    Missing(&'static str),
    Listing(u32, AsmFault),
    Overlap(u32, u32),
    NoCreature,
}

fn is(fault: &FileFault, refusal: &Refusal) -> bool {
    match (fault, refusal) {
        (FileFault::NotToml, Refusal::NotToml) => true,
        (FileFault::NoCreature, Refusal::NoCreature) => true,
        (FileFault::UnknownKey { key }, Refusal::UnknownKey(name)) => {
            key.items.as_slice() == name.as_bytes()
        }
        (FileFault::WrongKind { key }, Refusal::WrongKind(name)) => {
            key.items.as_slice() == name.as_bytes()
        }
        (FileFault::OutOfRange { key }, Refusal::OutOfRange(name)) => {
            key.items.as_slice() == name.as_bytes()
        }
        (FileFault::Missing { key }, Refusal::Missing(name)) => {
            key.items.as_slice() == name.as_bytes()
        }
        (FileFault::Listing { creature, fault }, Refusal::Listing(number, cause)) => {
            creature == number && fault == cause
        }
        (FileFault::Overlap { first, second }, Refusal::Overlap(one, other)) => {
            first == one && second == other
        }
        _ => false,
    }
}

fn is_accepted(alloc: Global, text: &str) -> bool {
    read_setup(alloc, text.as_bytes()).is_ok()
}

fn is_refused(alloc: Global, text: &str, refusal: &Refusal) -> bool {
    match read_setup(alloc, text.as_bytes()) {
        Ok(_) => false,
        Err(fault) => is(&fault, refusal),
    }
}

// The settings and creatures that `EVERY_KEY` tells.
fn tells_every_key(setup: &Setup) -> bool {
    let mut seed = [0; 32];
    for (place, byte) in (0..31).zip(seed.iter_mut()) {
        *byte = place;
    }
    seed[31] = 0xff;
    let settings = Settings {
        soup_size: 100,
        slice_size: 16,
        slice_by_size: true,
        slice_num: 2,
        slice_den: 3,
        search_limit: 50,
        min_template: 2,
        min_cell: 5,
        max_cell: 5,
        mal_mult: 4,
        fill_percent: 90,
        move_percent: 0,
        save_at: 7,
        back_rate: 8,
        copy_rate: 9,
        flaw_rate: u32::MAX,
        seed,
        dist_every: 6,
        dist_percent: 20,
    };
    setup.settings == settings
        && are(
            setup.creatures.items.as_slice(),
            &[(95, &[4, 2, 3, 3, 24]), (0, &[1])],
        )
}

fn are(creatures: &[Inoculum], expected: &[(u32, &[u8])]) -> bool {
    creatures.len() == expected.len()
        && creatures.iter().zip(expected.iter()).all(|(creature, (at, code))| {
            creature.at == *at && creature.code.items.as_slice() == *code
        })
}

#[test]
fn a_file_tells_its_setup(rt: HostRuntime) -> Result<(), FileFault> {
    assert!(rt; is_every_key_told(rt.alloc())?);
    Ok(())
}

fn is_every_key_told(alloc: Global) -> Result<bool, FileFault> {
    let setup = read_setup(alloc, EVERY_KEY.as_bytes())?;
    Ok(tells_every_key(&setup))
}

#[test]
fn a_file_of_one_creature_tells_what_is_grown(rt: HostRuntime) -> Result<(), Fail> {
    let settings = grow_setup(rt.alloc(), assemble(rt.alloc(), "zero")?)?.settings;
    for text in [
        "[[creature]]\nat = 0\ncode = \"zero\"",
        "creature = [{ code = \"zero\", at = 0 }]",
        "\"creature\" = [{ 'at' = 0x0, code = \"; a comment\\n zero\" },]",
    ] {
        assert!(rt; tells(rt.alloc(), text, &settings, &[(0, &[4])])?, "{text}");
    }
    Ok(())
}

// Whether a file tells these settings and these creatures.
fn tells(
    alloc: Global,
    text: &str,
    settings: &Settings,
    creatures: &[(u32, &[u8])],
) -> Result<bool, FileFault> {
    let setup = read_setup(alloc, text.as_bytes())?;
    Ok(setup.settings == *settings && are(setup.creatures.items.as_slice(), creatures))
}

#[test]
fn each_range_has_its_ends(rt: HostRuntime) -> Result<(), AllocError> {
    let rows: [(&'static str, &str, i64, i64); 16] = [
        ("soup_size", "", 100, 1_048_576),
        ("slice_size", "", 1, 10_000),
        ("slice_num", "", 1, 100),
        ("slice_den", "", 1, 100),
        ("search_limit", "", 1, 1_048_576),
        ("min_template", "", 1, 10),
        ("min_cell", "", 1, 20_000),
        ("max_cell", "min_cell = 1\n", 1, 20_000),
        ("mal_mult", "", 1, 100),
        ("fill_percent", "", 1, 100),
        ("move_percent", "", 0, 100),
        ("save_at", "", 1, 1_000_000),
        ("back_rate", "", 0, 4_294_967_295),
        ("copy_rate", "", 0, 4_294_967_295),
        ("flaw_rate", "", 0, 4_294_967_295),
        ("dist_every", "", 0, 4_000_000),
    ];
    for (key, before, low, high) in rows {
        let ends = [
            (low - 1, false),
            (low, true),
            (high, true),
            (high + 1, false),
        ];
        assert_eq!(rt; wrong_end(rt.alloc(), before, key, &ends)?, None, "{key}");
    }
    Ok(())
}

// The first of these numbers that is not read at a key as it is expected.
fn wrong_end(
    alloc: Global,
    before: &str,
    key: &'static str,
    ends: &[(i64, bool)],
) -> Result<Option<i64>, AllocError> {
    for (value, is_in_range) in ends {
        if !is_read_as(alloc, before, key, *value, *is_in_range)? {
            return Ok(Some(*value));
        }
    }
    Ok(None)
}

// Whether a file with this number at a key is accepted if it is in range, and else refused for that key.
fn is_read_as(
    alloc: Global,
    before: &str,
    key: &'static str,
    value: i64,
    is_in_range: bool,
) -> Result<bool, AllocError> {
    let text = format!(in alloc;
        "{before}{key} = {value}\ncreature = [{{ at = 0, code = 'zero' }}]"
    )?;
    Ok(is_as_expected(alloc, text.as_str(), key, is_in_range))
}

// Whether a file is accepted, or else refused for the range of a key, as it is expected.
fn is_as_expected(alloc: Global, text: &str, key: &'static str, is_in_range: bool) -> bool {
    if is_in_range {
        is_accepted(alloc, text)
    } else {
        is_refused(alloc, text, &Refusal::OutOfRange(key))
    }
}

#[test]
fn the_document_and_its_keys_come_first(rt: HostRuntime) {
    let rows = [
        ("slices = 3 slice_size = 0", Refusal::NotToml),
        ("a = 1\nsoup_size = 1\nsoup_size = 1", Refusal::NotToml),
        ("soup_size = 9223372036854775808", Refusal::NotToml),
        ("slices = 3\nsoup_size = 1", Refusal::UnknownKey("slices")),
        (
            "zoo = 1\nSeed = 1\nsoup_size = ''",
            Refusal::UnknownKey("Seed"),
        ),
        ("'a\"b' = 1", Refusal::UnknownKey("a\"b")),
        ("\"\" = 1", Refusal::UnknownKey("")),
        ("z = 1\ncreature = [{ a = 1 }]", Refusal::UnknownKey("z")),
    ];
    for (text, refusal) in rows {
        assert!(rt; is_refused(rt.alloc(), text, &refusal), "{text}");
    }
}

#[test]
fn the_first_setting_of_another_kind_is_told(rt: HostRuntime) {
    let rows = [
        ("slice_size = 1.0\nslice_by_size = 1", "slice_size"),
        ("slice_by_size = 1\nslice_num = 0", "slice_by_size"),
        ("seed = 5\ndist_every = -1", "seed"),
    ];
    for (text, key) in rows {
        assert!(rt;
            is_refused(rt.alloc(), text, &Refusal::WrongKind(key)),
            "{text}"
        );
    }
}

#[test]
fn the_first_setting_out_of_range_is_told(rt: HostRuntime) {
    let rows = [
        ("soup_size = 99\nslice_size = ''", "soup_size"),
        ("slice_num = 0\nslice_den = 0", "slice_num"),
        ("slice_den = 0\nsearch_limit = 0", "slice_den"),
        ("search_limit = 0\nmin_template = 0", "search_limit"),
        ("min_template = 0\nmin_cell = 0", "min_template"),
        ("min_cell = 0\nmax_cell = 0", "min_cell"),
        ("max_cell = 0\nmal_mult = 0", "max_cell"),
        ("mal_mult = 0\nfill_percent = 0", "mal_mult"),
        ("fill_percent = 0\nmove_percent = -1", "fill_percent"),
        ("move_percent = -1\nsave_at = 0", "move_percent"),
        ("save_at = 0\nback_rate = -1", "save_at"),
        ("back_rate = -1\ncopy_rate = -1", "back_rate"),
        ("copy_rate = -1\nflaw_rate = -1", "copy_rate"),
        ("flaw_rate = -1\nseed = ''", "flaw_rate"),
        ("seed = ''\ndist_every = -1", "seed"),
        ("dist_every = 4000001\ndist_percent = -1", "dist_every"),
        ("dist_percent = 101\nmax_cell = 11", "dist_percent"),
        ("max_cell = 11\ncreature = 1", "max_cell"),
    ];
    for (text, key) in rows {
        assert!(rt;
            is_refused(rt.alloc(), text, &Refusal::OutOfRange(key)),
            "{text}"
        );
    }
}

#[test]
fn the_first_creature_that_fails_is_told(rt: HostRuntime) {
    let rows = [
        ("", Refusal::NoCreature),
        ("creature = []", Refusal::NoCreature),
        (
            "creature = { at = 0, code = 'zero' }",
            Refusal::WrongKind("creature"),
        ),
        ("creature = [{ a = 1 }, 1]", Refusal::WrongKind("creature")),
        (
            "creature = [{ b = 1, a = 1 }]",
            Refusal::UnknownKey("creature.a"),
        ),
        (
            "creature = [{ code = 1, At = 1 }]",
            Refusal::UnknownKey("creature.At"),
        ),
        ("creature = [{ code = 1 }]", Refusal::Missing("creature.at")),
        (
            "creature = [{ at = '0', code = 1 }]",
            Refusal::WrongKind("creature.at"),
        ),
        (
            "creature = [{ at = 60000 }]",
            Refusal::OutOfRange("creature.at"),
        ),
        (
            "creature = [{ at = -1, code = 1 }]",
            Refusal::OutOfRange("creature.at"),
        ),
        (
            "creature = [{ at = 59999 }]",
            Refusal::Missing("creature.code"),
        ),
        (
            "creature = [{ at = 0, code = 1 }, { a = 1 }]",
            Refusal::WrongKind("creature.code"),
        ),
    ];
    for (text, refusal) in rows {
        assert!(rt; is_refused(rt.alloc(), text, &refusal), "{text}");
    }
}

#[test]
fn the_first_code_or_block_that_fails_is_told(rt: HostRuntime) {
    let rows = [
        (
            "creature = [{ at = 0, code = 'zero' }, { at = 59999, code = 'zero\tzoro' }]",
            Refusal::Listing(2, AsmFault::UnknownName { line: 1 }),
        ),
        (
            "creature = [{ at = 0, code = '' }]",
            Refusal::Listing(1, AsmFault::Empty),
        ),
        (
            "soup_size = 100\ncreature = [{ at = 99, code = 'shl' }, { at = 96, code = 'shl shl shl shl shl' }]",
            Refusal::OutOfRange("creature.at"),
        ),
        (
            "creature = [{ at = 0, code = 'shl shl shl shl shl' }, { at = 4, code = 'shl shl shl shl shl' }]",
            Refusal::Overlap(1, 2),
        ),
        (
            "creature = [{ at = 9, code = 'shl' }, { at = 4, code = 'shl shl' }, { at = 7, code = 'shl' }, { at = 5, code = 'shl shl shl shl shl' }, { at = 0 }]",
            Refusal::Overlap(1, 4),
        ),
    ];
    for (text, refusal) in rows {
        assert!(rt; is_refused(rt.alloc(), text, &refusal), "{text}");
    }
}

#[test]
fn blocks_that_touch_are_accepted(rt: HostRuntime) -> Result<(), FileFault> {
    let text =
        "soup_size = 100\ncreature = [{ at = 95, code = 'shl shl shl shl shl' }, { at = 93, code = 'shl shl' }]";
    let told = has_creatures(rt.alloc(), text, &[(95, &[3, 3, 3, 3, 3]), (93, &[3, 3])])?;
    assert!(rt; told);
    Ok(())
}

// Whether a file tells these creatures.
fn has_creatures(alloc: Global, text: &str, creatures: &[(u32, &[u8])]) -> Result<bool, FileFault> {
    let setup = read_setup(alloc, text.as_bytes())?;
    Ok(are(setup.creatures.items.as_slice(), creatures))
}

#[test]
fn bytes_that_are_no_text_are_no_document(rt: HostRuntime) {
    assert!(rt; is_refused(rt.alloc(), "\u{feff}a", &Refusal::NotToml));
    assert!(rt; read_setup(rt.alloc(), &[0xff]).is_err_and(|fault| is(&fault, &Refusal::NotToml)));
}

#[test]
fn a_seed_has_64_digits(rt: HostRuntime) -> Result<(), AllocError> {
    for (digits, is_seed) in [
        (
            "ABCDEFabcdef0123456789000000000000000000000000000000000000000000",
            true,
        ),
        (
            "ABCDEFabcdef012345678900000000000000000000000000000000000000000",
            false,
        ),
        (
            "ABCDEFabcdef01234567890000000000000000000000000000000000000000000",
            false,
        ),
        (
            "ABCDEFabcdef012345678900000000000000000000000000000000000000000g",
            false,
        ),
    ] {
        let is_right = is_seed_read_as(rt.alloc(), digits, is_seed)?;
        assert!(rt; is_right, "{digits}");
    }
    Ok(())
}

// Whether a file with these digits as its seed is accepted, or else refused for them, as it is expected.
fn is_seed_read_as(alloc: Global, digits: &str, is_seed: bool) -> Result<bool, AllocError> {
    let text = format!(in alloc; "seed = '{digits}'\ncreature = [{{ at = 0, code = 'zero' }}]")?;
    Ok(is_as_expected(alloc, text.as_str(), "seed", is_seed))
}
