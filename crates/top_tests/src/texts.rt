//! Texts of the top call, however their bytes come, and what is refused.

use crate::runs::tells;
use soup_top::{SourceFault, Status};
use std::alloc::Global;
use std::sync::Wait;
use std::test::Fail;
use std::thread::Threads;
use test_calls::{Ended, Given, PLAIN, call, call_with};
use test_soups::{ANCESTOR, ANCESTOR_HEX, GROWN, ancestor_file};
use tierra_asm::AsmFault;
use tierra_dis::{DisFault, HexFault};
use tierra_model::OutOfMemory;

const FIRST: &str = "zero or1 shl shl mov_cd";

const FIRST_REPORT: &str =
    "quanta 1\nbirths 0\ndeaths 0\nliving 1\nfilled 5\nfront 1 ip 25 ax 0 bx 0 cx 4 dx 4 flag 0 errors 0\n\
     genotypes 1\nkept 0\n0005aaa 1 1\n";

const USAGE: &str =
    "tierra: usage: tierra grow|run|asm|dis|bank|drill|dump|hold|curve|probe|watch|isles [--quanta N] [--workers W] [--number K] [--every X] [--looks X] [--isles X] [--epochs X]\n";

/// The words of the first listing's run.
const FIRST_RUN: &str = "grow --quanta 1 --workers 1";

#[test]
fn the_first_listing_runs_however_its_bytes_come(rt: HostRuntime) -> Result<(), Fail> {
    for cut in [1usize, 7, 4096] {
        let given = Given { cut, ..PLAIN };
        let ended = call_with(&rt, rt.alloc(), FIRST_RUN, FIRST.as_bytes(), &given)?;
        assert!(rt; ended.is_done(FIRST_REPORT), "a cut of {cut}");
    }
    Ok(())
}

/// A call's answer, and how many bytes it tells.
pub(crate) fn answer<R: Threads + Wait + Sync>(
    rt: &R,
    alloc: Global,
    words: &str,
    source: &str,
    given: &Given<'_>,
) -> Result<(Status, usize), OutOfMemory> {
    let ended = call_with(rt, alloc, words, source.as_bytes(), given)?;
    let told = ended.told.len();
    Ok((ended.status, told))
}

#[test]
fn a_read_that_fails_tells_nothing(rt: HostRuntime) -> Result<(), Fail> {
    for number in [1u64, 2, 3, 4] {
        let given = Given {
            cut: 10,
            reads: &[number],
            ..PLAIN
        };
        let answer = answer(&rt, rt.alloc(), FIRST_RUN, FIRST, &given)?;
        assert_eq!(rt; answer, (Status::ReadFault, 0), "read {number}");
    }
    Ok(())
}

/// Makes a call in which the tell of this number fails: the answer, and whether anything was told.
fn with_tell<R: Threads + Wait + Sync>(
    rt: &R,
    alloc: Global,
    words: &str,
    number: u64,
) -> Result<(Status, bool), OutOfMemory> {
    let given = Given {
        tells: &[number],
        ..PLAIN
    };
    let (status, told) = answer(rt, alloc, words, FIRST, &given)?;
    Ok((status, told > 0))
}

#[test]
fn a_tell_that_fails_is_the_answer(rt: HostRuntime) -> Result<(), Fail> {
    for words in [FIRST_RUN, "asm"] {
        // The whole text is one tell, so there is no second one to fail.
        let answers = (
            with_tell(&rt, rt.alloc(), words, 1)?,
            with_tell(&rt, rt.alloc(), words, 2)?,
        );
        let want = ((Status::TellFault, false), (Status::Done, true));
        assert_eq!(rt; answers, want, "{words}");
    }
    Ok(())
}

#[test]
fn texts_are_told_whole(rt: HostRuntime) -> Result<(), Fail> {
    let jump =
        "quanta 1\nbirths 0\ndeaths 0\nliving 1\nfilled 5\nfront 1 ip 28 ax 0 bx 1 cx 0 dx 0 flag 0 errors 0\n\
        genotypes 1\nkept 0\n0005aaa 1 1\n";
    let rows: [(&str, &str, &str); 10] = [
        ("grow --quanta 1", "jmp nop_0 inc_a nop_1 inc_b", jump),
        ("grow --quanta 1 --workers 1", FIRST, FIRST_REPORT),
        ("grow --quanta 1", FIRST, FIRST_REPORT),
        ("asm", "nop_0 divide ; end", "00 1f\n"),
        ("asm", "\tmal\r\n\tdivide\r\n", "1e 1f\n"),
        ("asm", "; first\nadr;and one without a line feed", "1b\n"),
        ("asm", ANCESTOR, ANCESTOR_HEX),
        ("dis", "1F 00", "divide\nnop_0\n"),
        ("dis", "\t1e\r\n;one\r;two\n1f", "mal\ndivide\n"),
        ("dis", "04;02", "zero\n"),
    ];
    for (words, bytes, text) in rows {
        assert!(rt;
            tells(&rt, rt.alloc(), words, bytes, text)?,
            "{words} of {bytes}"
        );
    }
    Ok(())
}

/// The names of the ancestor's instructions, one on each line.
fn ancestor_lines(alloc: Global) -> Result<String, OutOfMemory> {
    let mut lines = String::new(alloc);
    for name in ANCESTOR.split_ascii_whitespace() {
        lines.push_str(name)?;
        lines.push_str("\n")?;
    }
    Ok(lines)
}

/// Whether the call with reads of at most a hundred bytes tells that text.
fn tells_by_hundreds<R: Threads + Wait + Sync>(
    rt: &R,
    alloc: Global,
    words: &str,
    source: &str,
    text: &str,
) -> Result<bool, OutOfMemory> {
    let given = Given { cut: 100, ..PLAIN };
    Ok(call_with(rt, alloc, words, source.as_bytes(), &given)?.is_done(text))
}

#[test]
fn the_ancestor_comes_back_from_its_digits(rt: HostRuntime) -> Result<(), Fail> {
    let alloc = rt.alloc();
    let lines = ancestor_lines(alloc)?;
    assert!(rt; tells_by_hundreds(&rt, alloc, "dis", ANCESTOR_HEX, &lines)?);
    assert!(rt; tells_by_hundreds(&rt, alloc, "asm", &lines, ANCESTOR_HEX)?);
    Ok(())
}

/// The text, this many times.
fn repeated(alloc: Global, text: &str, times: u16) -> Result<String, OutOfMemory> {
    let mut all = String::new(alloc);
    for _ in 0..times {
        all.push_str(text)?;
    }
    Ok(all)
}

#[test]
fn the_longest_code_has_20000_instructions(rt: HostRuntime) -> Result<(), Fail> {
    let alloc = rt.alloc();
    let digits = repeated(alloc, "04 ", 20_000)?;
    let listing = repeated(alloc, "zero\n", 20_000)?;
    assert!(rt; tells(&rt, alloc, "dis", &digits, &listing)?);
    let answer = answer(&rt, alloc, "asm", &listing, &PLAIN)?;
    assert_eq!(rt; answer, (Status::Done, 60_000));
    Ok(())
}

/// The answer where so many copies of a text are the source.
fn answer_to_copies<R: Threads + Wait + Sync>(
    rt: &R,
    alloc: Global,
    words: &str,
    text: &str,
    copies: u16,
) -> Result<Status, OutOfMemory> {
    let source = repeated(alloc, text, copies)?;
    let (status, _told) = answer(rt, alloc, words, &source, &PLAIN)?;
    Ok(status)
}

#[test]
fn a_longer_code_is_refused(rt: HostRuntime) -> Result<(), Fail> {
    let of_digits = answer_to_copies(&rt, rt.alloc(), "dis", "04 ", 20_001)?;
    let of_listing = answer_to_copies(&rt, rt.alloc(), "asm", "zero\n", 20_001)?;
    let too_long = AsmFault::TooLong { line: 20_001 };
    let want = (
        Status::SourceRefused(SourceFault::Hex(HexFault::TooLong)),
        Status::SourceRefused(SourceFault::Listing(too_long)),
    );
    assert_eq!(rt; (of_digits, of_listing), want);
    Ok(())
}

#[test]
fn options_come_in_any_order(rt: HostRuntime) -> Result<(), Fail> {
    let alloc = rt.alloc();
    let file = ancestor_file(alloc, "")?;
    let later =
        "quanta 1000\nbirths 0\ndeaths 0\nliving 1\nfilled 5\nfront 1 ip 25000 ax 0 bx 0 cx 4 dx 4 flag 0 errors 0\n\
        genotypes 1\nkept 0\n0005aaa 1 1\n";
    let rows: [(&str, &str, &str); 6] = [
        ("--workers=2 run --quanta 34", &file, GROWN),
        ("--quanta 34 --workers=1 grow", ANCESTOR, GROWN),
        ("grow --workers 64 --quanta=34", ANCESTOR, GROWN),
        ("--quanta 1 grow --workers 2", FIRST, FIRST_REPORT),
        ("grow", FIRST, later),
        ("grow --workers 1", FIRST, later),
    ];
    for (words, source, text) in rows {
        assert!(rt; tells(&rt, alloc, words, source, text)?, "{words}");
    }
    Ok(())
}

/// Whether the words are refused with the usage, and nothing is told.
fn are_refused<R: Threads + Wait + Sync>(
    rt: &R,
    alloc: Global,
    words: &str,
) -> Result<bool, OutOfMemory> {
    let ended = call(rt, alloc, words, "zero")?;
    let is_usage = ended.line(alloc)?.as_slice() == USAGE.as_bytes();
    Ok(is_usage && ended.told.is_empty() && ended.status == Status::WordsRefused)
}

#[test]
fn other_words_are_refused(rt: HostRuntime) -> Result<(), Fail> {
    for words in [
        "",
        "sow",
        "--help",
        "run run",
        "asm dis",
        "run --quanta 0",
        "run --quanta 007",
        "run --quanta +7",
        "run --quanta=-7",
        "run --quanta 4000001",
        "run --quanta 5 --quanta 5",
        "run --workers 0",
        "run --workers 65",
        "watch --workers 64",
        "watch --looks 1001",
        "run --number 1",
        "hold --workers 1",
        "hold --every 0",
        "asm --quanta 3",
        "dis --workers 1",
        "bank --quanta 1",
        "dump --workers 1",
        "drill --workers 1",
        "drill --number 18446744073709551616",
    ] {
        assert!(rt; are_refused(&rt, rt.alloc(), words)?, "{words}");
    }
    Ok(())
}

/// Whether that reason is the call's line for standard error.
pub(crate) fn gives(alloc: Global, ended: &Ended, reason: &str) -> Result<bool, OutOfMemory> {
    let line = format!(in alloc; "tierra: {reason}\n")?;
    Ok(ended.line(alloc)?.as_slice() == line.as_bytes())
}

/// Whether the words refuse the source for the fault, with the reason on one line.
fn is_refused<R: Threads + Wait + Sync>(
    rt: &R,
    alloc: Global,
    words: &str,
    source: &[u8],
    fault: SourceFault,
    reason: &str,
) -> Result<bool, OutOfMemory> {
    let ended = call_with(rt, alloc, words, source, &PLAIN)?;
    Ok(ended.status == Status::SourceRefused(fault) && gives(alloc, &ended, reason)?)
}

#[test]
fn texts_are_refused_for_their_first_fault(rt: HostRuntime) -> Result<(), Fail> {
    let alloc = rt.alloc();
    let long = vec![in alloc; b' '; 1_048_577]?;
    for words in ["grow", "asm", "dis"] {
        let reason = "source is longer than 1048576 bytes";
        let fault = SourceFault::TooLong;
        assert!(rt;
            is_refused(&rt, alloc, words, &long, fault, reason)?,
            "{words}"
        );
        let reason = "source is not UTF-8";
        let fault = SourceFault::NotText;
        assert!(rt;
            is_refused(&rt, alloc, words, b"\xff", fault, reason)?,
            "{words}"
        );
    }
    Ok(())
}

#[test]
fn listings_are_refused_for_their_first_fault(rt: HostRuntime) -> Result<(), Fail> {
    let unknown = AsmFault::UnknownName { line: 2 };
    let rows: [(&str, &str, AsmFault, &str); 4] = [
        ("grow", "", AsmFault::Empty, "listing is empty"),
        ("grow", "zero\nzoro", unknown, "line 2: unknown instruction"),
        ("asm", "zero\nzoro", unknown, "line 2: unknown instruction"),
        ("asm", "; 00", AsmFault::Empty, "listing is empty"),
    ];
    for (words, text, fault, reason) in rows {
        let fault = SourceFault::Listing(fault);
        let refused = is_refused(&rt, rt.alloc(), words, text.as_bytes(), fault, reason)?;
        assert!(rt; refused, "{words} of {text}");
    }
    Ok(())
}

#[test]
fn hex_texts_are_refused_for_their_first_fault(rt: HostRuntime) -> Result<(), Fail> {
    let rows: [(&str, HexFault, &str); 2] = [
        (
            "1f 0",
            HexFault::NotHex { place: 2 },
            "word 2: not two hexadecimal digits",
        ),
        ("", HexFault::Empty, "no instructions"),
    ];
    for (text, fault, reason) in rows {
        let fault = SourceFault::Hex(fault);
        let refused = is_refused(&rt, rt.alloc(), "dis", text.as_bytes(), fault, reason)?;
        assert!(rt; refused, "{text}");
    }
    let fault = SourceFault::Dis(DisFault::NotAnOp { place: 1 });
    let reason = "word 1: not an instruction";
    assert!(rt; is_refused(&rt, rt.alloc(), "dis", b"20", fault, reason)?);
    Ok(())
}
