//! Names and their texts.

use genotyper::{NameFault, name_text, parse_name};
use std::alloc::Global;
use std::process::Abort;
use std::test::Fail;
use tierra_model::{Name, OutOfMemory};

/// The size and the rank of a name, and its text.
const TEXTS: [(u32, u64, &str); 14] = [
    (80, 0, "0080aaa"),
    (80, 1, "0080aab"),
    (80, 26, "0080aba"),
    (80, 17575, "0080zzz"),
    (80, 17576, "0080aaaa"),
    (1, 474551, "0001zzzz"),
    (1, 474552, "0001aaaaa"),
    (999, 27, "0999abb"),
    (9999, 27, "9999abb"),
    (10000, 27, "10000abb"),
    (12345, 27, "12345abb"),
    (20000, 99246114928148759, "20000zzzzzzzzzzzz"),
    (20000, 99246114928148760, "20000aaaaaaaaaaaaa"),
    (20000, 1152921504606846975, "20000lbcaubkfanhhn"),
];

// Whether the name is written as this text.
fn is_written(alloc: Global, name: &Name, text: &str) -> Result<bool, OutOfMemory> {
    Ok(name_text(alloc, name)?.items.as_slice() == text.as_bytes())
}

#[test]
fn texts_are_written_and_read_back(rt: HostRuntime) -> Result<(), Fail> {
    for (size, rank, text) in TEXTS {
        let name = Name { size, rank };
        let written = is_written(rt.alloc(), &name, text)?;
        assert_eq!(rt; (written, parse_name(text)), (true, Ok(name)), "{text}");
    }
    let greatest = Name {
        size: u32::MAX,
        rank: u64::MAX,
    };
    assert!(rt; is_written(rt.alloc(), &greatest, "4294967295gkgwbylwrxtmqp")?);
    Ok(())
}

const BAD_SIZES: [&str; 14] = [
    "",
    "aaa",
    "080aaa",
    "00080aaa",
    "012345aaa",
    "0000aaa",
    "20001aaa",
    "99999aaa",
    "100000aaa",
    "184467440737095516160080aaa",
    "-0080aaa",
    " 0080aaa",
    "008 0aaa",
    "0000",
];

const BAD_LETTERS: [&str; 14] = [
    "0080",
    "0080aa",
    "0080aaA",
    "0080aa0",
    "0080aaa0",
    "0080a-a",
    "0080aaa\n",
    "0080 aaa",
    "0080aaé",
    "0080lbcaubkfanhho",
    "0080zzzzzzzzzzzzz",
    "0080aaaaaaaaaaaaaa",
    "20000{{{",
    "20000```",
];

// Checks that the texts are refused for this fault.
fn check_refused(rt: &impl Abort, texts: [&str; 14], fault: NameFault) {
    for text in texts {
        assert_eq!(rt; parse_name(text), Err(fault), "{text}");
    }
}

#[test]
fn faulty_texts_are_refused(rt: HostRuntime) {
    check_refused(&rt, BAD_SIZES, NameFault::BadSize);
    check_refused(&rt, BAD_LETTERS, NameFault::BadLetters);
}
