//! What is told of a genebank, and what leaves the disk alone.

use crate::runs::{Kept, ZERO_FILE, bank_with, call_over, is_end, is_told, part_of};
use bank_recover::BankFault;
use soup_top::Status;
use std::alloc::Global;
use std::sync::Wait;
use std::test::Fail;
use std::thread::Threads;
use test_calls::{Given, PLAIN, call, call_with};
use test_soups::{ANCESTOR, ANCESTOR_HEX, ancestor_file};
use tierra_model::OutOfMemory;

/// The text of a bank with the ancestor alone, after those lines.
fn bank_text_of(alloc: Global, lines: &str) -> Result<String, OutOfMemory> {
    let mut text = String::from_str(alloc, lines)?;
    text.push_str("code ")?;
    for digits in ANCESTOR_HEX.split_ascii_whitespace() {
        text.push_str(digits)?;
    }
    text.push_str("\n")?;
    Ok(text)
}

/// The bank of a run, which is done.
fn kept_by<R: Threads + Wait + Sync>(
    rt: &R,
    alloc: Global,
    words: &str,
    source: &str,
) -> Result<Vec<u8>, Fail> {
    let ended = call(rt, alloc, words, source)?;
    if ended.status == Status::Done {
        Ok(ended.file(0)?)
    } else {
        Err(Fail::from("the run is not done"))
    }
}

/// Whether the bank of a run is told by these lines and the code of the ancestor.
fn is_bank_told<R: Threads + Wait + Sync>(
    rt: &R,
    alloc: Global,
    words: &str,
    source: &str,
    lines: &str,
) -> Result<bool, Fail> {
    let bank = kept_by(rt, alloc, words, source)?;
    let text = bank_text_of(alloc, lines)?;
    Ok(is_told(rt, alloc, "bank", "", &bank, &text, "LRT")?)
}

#[test]
fn a_bank_is_told(rt: HostRuntime) -> Result<(), Fail> {
    let alloc = rt.alloc();
    let late = ancestor_file(alloc, "save_at = 3\n")?;
    let rows: [(&str, &str, &str); 2] = [
        (
            "grow --quanta 34",
            ANCESTOR,
            "saved 0080aaa 34\nparent none\nfirst 839 80\nsecond none\n",
        ),
        (
            "run --quanta 100",
            &late,
            "saved 0080aaa 100\nparent none\nfirst 839 80\nsecond 813 80\n",
        ),
    ];
    for (words, source, lines) in rows {
        let is_so = is_bank_told(&rt, alloc, words, source, lines)?;
        assert!(rt; is_so, "{words}");
    }
    Ok(())
}

/// Whether the first hundred bytes of a bank are refused as damaged.
fn is_cut_refused<R: Threads + Wait + Sync>(
    rt: &R,
    alloc: Global,
    bank: &[u8],
) -> Result<bool, Fail> {
    let cut = part_of(alloc, bank, 0, 100)?;
    let ended = call_over(rt, alloc, "bank", "", &cut)?;
    let want = Status::BankRefused(BankFault::Damaged { group: 0 });
    Ok(is_end(&ended, &want, "", "LR"))
}

#[test]
fn a_bank_is_told_without_a_source_or_a_setup(rt: HostRuntime) -> Result<(), Fail> {
    let alloc = rt.alloc();
    let group = Kept {
        form_two: false,
        quantum: 34,
        ran: 0,
        last: 5,
    };
    let bank = bank_with(alloc, &[7; 32], &group)?;
    let text = bank_text_of(alloc, "saved 0080aaa 34\nparent none\n")?;
    let is_so = is_told(&rt, alloc, "bank", "", &bank, &text, "LRT")?;
    let is_refused = is_cut_refused(&rt, alloc, &bank)?;
    assert_eq!(rt; (bank.len(), is_so, is_refused), (198, true, true));
    Ok(())
}

#[test]
fn an_empty_bank_is_told_without_a_read(rt: HostRuntime) -> Result<(), Fail> {
    let given = Given {
        cut: 1,
        reads: &[1],
        ..PLAIN
    };
    let ended = call_with(&rt, rt.alloc(), "bank", b"", &given)?;
    assert!(rt; ended.is_done(""));
    Ok(())
}

#[test]
fn a_bank_is_probed(rt: HostRuntime) -> Result<(), Fail> {
    let alloc = rt.alloc();
    let bank = kept_by(&rt, alloc, "grow --quanta 34", ANCESTOR)?;
    let rows: [(&str, &str); 3] = [
        (
            "probe --quanta 100 --workers 3",
            "0080aaa first 839 80 second 813 80\n",
        ),
        ("probe --quanta 99", "0080aaa first 839 80 second none\n"),
        ("probe --quanta 33", "0080aaa first none second none\n"),
    ];
    for (words, text) in rows {
        assert!(rt;
            is_told(&rt, alloc, words, "", &bank, text, "LRT")?,
            "{words}"
        );
    }
    Ok(())
}

/// Whether the call over an empty file is done, with those calls.
fn is_done_by<R: Threads + Wait + Sync>(
    rt: &R,
    alloc: Global,
    words: &str,
    source: &str,
    calls: &str,
) -> Result<bool, OutOfMemory> {
    let ended = call(rt, alloc, words, source)?;
    Ok(ended.status == Status::Done && ended.calls.as_str() == calls)
}

#[test]
fn nothing_is_told_of_a_bank_without_groups(rt: HostRuntime) -> Result<(), Fail> {
    for words in ["bank", "probe"] {
        assert!(rt; is_done_by(&rt, rt.alloc(), words, "", "L")?, "{words}");
    }
    Ok(())
}

#[test]
fn other_texts_are_told_without_the_disk(rt: HostRuntime) -> Result<(), Fail> {
    let rows: [(&str, &str); 7] = [
        ("asm", "zero"),
        ("dis", "04"),
        ("dump --quanta 1", ZERO_FILE),
        ("drill --quanta 1 --number 7", ZERO_FILE),
        ("curve --quanta 1", ZERO_FILE),
        ("watch --quanta 1", ZERO_FILE),
        ("isles --quanta 1", ZERO_FILE),
    ];
    for (words, source) in rows {
        assert!(rt; is_done_by(&rt, rt.alloc(), words, source, "T")?, "{words}");
    }
    Ok(())
}
