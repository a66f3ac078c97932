//! Runs that keep their genebank. The banks were worked out apart from this program, and are known by their lengths and
//! their SHA-256 digests.

use bank_recover::{BankFault, groups_of};
use sha2::{Digest, Sha256};
use soup_top::Status;
use std::alloc::Global;
use std::sync::Wait;
use std::test::Fail;
use std::thread::Threads;
use test_calls::{Ended, Given, PLAIN, call, call_with, line_of};
use test_soups::{ANCESTOR, ANCESTOR_HEX, GROWN, ancestor_file};
use tierra_model::OutOfMemory;

const SETUP_OF_ONE: [u8; 32] = [
    0x0d, 0xf5, 0x60, 0x1d, 0x2d, 0xd9, 0x5a, 0x2c, 0x4a, 0xaf, 0x3d, 0xf2, 0x4c, 0x1b, 0x91, 0x31,
    0x2a, 0xca, 0x88, 0xf4, 0xfc, 0xc8, 0x84, 0xff, 0xef, 0x8e, 0x59, 0x3d, 0xe7, 0x0d, 0xe4, 0x38,
];

const SETUP_OF_THREE: [u8; 32] = [
    0x67, 0xae, 0x31, 0x1c, 0x75, 0xae, 0x4e, 0x32, 0x96, 0xe7, 0x5b, 0xe6, 0x08, 0x6a, 0x45, 0x3d,
    0x1b, 0x9b, 0xf3, 0xc2, 0x2e, 0xf5, 0x5d, 0x8a, 0x53, 0x53, 0x1f, 0xa3, 0x92, 0x62, 0x66, 0xc9,
];

/// The length and the digest of a file.
type Sum = (usize, [u8; 32]);

// The ancestor's bank, from quantum 34 on.
const BANK_OF_ONE: Sum = (
    230,
    [
        0xac, 0x2c, 0x9f, 0x53, 0x6e, 0xdf, 0xdf, 0xa3, 0xd5, 0xa6, 0x99, 0x01, 0x8f, 0xba, 0x5a,
        0x63, 0xf8, 0xde, 0x82, 0x03, 0xec, 0x4a, 0x78, 0x89, 0x8e, 0x96, 0xd1, 0xdf, 0x18, 0xa8,
        0x35, 0x49,
    ],
);

// The bank of the three ancestors after 102 quanta, and one whose first group has form One.
const BANK_OF_THREE: Sum = (
    600,
    [
        0xf1, 0x74, 0xdc, 0xed, 0xca, 0xca, 0x67, 0xb2, 0xd2, 0xa1, 0x0f, 0x55, 0x58, 0x6e, 0xc2,
        0x14, 0x1d, 0xb6, 0xad, 0x56, 0x5d, 0xb8, 0x91, 0x63, 0xbf, 0xa8, 0xa2, 0xc4, 0x35, 0x7e,
        0x76, 0x77,
    ],
);

const BANK_OF_BOTH_FORMS: Sum = (
    568,
    [
        0xb4, 0x37, 0x82, 0x2b, 0x15, 0xb6, 0x0f, 0x94, 0x45, 0x7f, 0x8b, 0x34, 0x6e, 0xcf, 0xb8,
        0x26, 0xf8, 0x44, 0x60, 0x68, 0xc9, 0xa8, 0xbe, 0x11, 0xcb, 0x41, 0x4a, 0xf1, 0x79, 0x17,
        0xc7, 0x55,
    ],
);

// A genotype of one instruction, saved at the start.
const BANK_OF_ZERO: Sum = (
    151,
    [
        0xdf, 0x02, 0x47, 0x7b, 0x61, 0x94, 0x23, 0x7f, 0x30, 0x7e, 0x5a, 0x98, 0x3c, 0x2f, 0xdc,
        0x9f, 0x55, 0xa7, 0x61, 0x1b, 0x8f, 0xee, 0x4f, 0xbb, 0xb2, 0x85, 0xb6, 0xc9, 0xae, 0xc6,
        0xb1, 0xc2,
    ],
);

pub(crate) const ZERO_FILE: &str = "save_at = 1\n[[creature]]\nat = 0\ncode = \"zero\"\n";

const ZERO_TEXT: &str = "saved 0001aaa 0\nquanta 1\nbirths 0\ndeaths 0\nliving 1\nfilled 1\n\
    front 1 ip 25 ax 0 bx 0 cx 0 dx 0 flag 0 errors 0\ngenotypes 1\nkept 1\n0001aaa 1 1\n";

// The run of the three ancestors, what it tells, and a letter for each of its calls: the bank is made, three groups are
// appended, and the line of each is told.
const RUN_OF_THREE: &str = "run --quanta 102";

const TEXT_OF_THREE: &str = "saved 0080aaa 100\nsaved 0080aab 101\nsaved 0080aac 102\n\
    quanta 102\nbirths 3\ndeaths 0\nliving 6\nfilled 720\n\
    front 4 ip 80 ax 0 bx 0 cx 0 dx 0 flag 0 errors 0\n\
    genotypes 3\nkept 3\n0080aaa 2 2\n0080aab 2 2\n0080aac 2 2\n";

const CALLS_OF_THREE: &str = "SLWSWSWSWSWSTWSWSTWSWSTT";

/// A soup file of the ancestor and two of its kind, whose last instructions differ.
fn three_ancestors(alloc: Global) -> Result<String, OutOfMemory> {
    let mut source = String::new(alloc);
    for (at, last) in [(0u32, "if_cz"), (1000, "inc_a"), (2000, "dec_c")] {
        let head = format!(in alloc; "[[creature]]\nat = {at}\ncode = \"\"\"")?;
        source.push_str(&head)?;
        for (place, name) in ANCESTOR.split_ascii_whitespace().enumerate() {
            source.push_str(if place == 79 { last } else { name })?;
            source.push_str(" ")?;
        }
        source.push_str("\"\"\"\n")?;
    }
    Ok(source)
}

fn sum_of(image: &[u8]) -> Sum {
    (image.len(), Sha256::digest(image))
}

/// The banks whose sums are known.
#[derive(Clone, Copy, Drop)]
enum Known {
    One,
    Three,
    BothForms,
    Zero,
}

fn known_sum(bank: Known) -> Sum {
    match bank {
        Known::One => BANK_OF_ONE,
        Known::Three => BANK_OF_THREE,
        Known::BothForms => BANK_OF_BOTH_FORMS,
        Known::Zero => BANK_OF_ZERO,
    }
}

fn is_bank(image: &[u8], bank: Known) -> bool {
    sum_of(image) == known_sum(bank)
}

/// Makes a call over a file.
pub(crate) fn call_over<R: Threads + Wait + Sync>(
    rt: &R,
    alloc: Global,
    words: &str,
    source: &str,
    image: &[u8],
) -> Result<Ended, OutOfMemory> {
    let given = Given { image, ..PLAIN };
    call_with(rt, alloc, words, source.as_bytes(), &given)
}

/// Whether the call ended with that answer, that text and those calls.
pub(crate) fn is_end(ended: &Ended, status: &Status, text: &str, calls: &str) -> bool {
    ended.status == *status
        && ended.told.as_slice() == text.as_bytes()
        && ended.calls.as_str() == calls
}

/// Whether the call over the file is done, with that text and those calls.
pub(crate) fn is_told<R: Threads + Wait + Sync>(
    rt: &R,
    alloc: Global,
    words: &str,
    source: &str,
    image: &[u8],
    text: &str,
    calls: &str,
) -> Result<bool, OutOfMemory> {
    let ended = call_over(rt, alloc, words, source, image)?;
    Ok(is_end(&ended, &Status::Done, text, calls))
}

/// Whether the call over an empty file is done, with that text, that bank and those calls.
fn is_made<R: Threads + Wait + Sync>(
    rt: &R,
    alloc: Global,
    words: &str,
    source: &str,
    text: &str,
    bank: Known,
    calls: &str,
) -> Result<bool, OutOfMemory> {
    let ended = call(rt, alloc, words, source)?;
    Ok(is_end(&ended, &Status::Done, text, calls) && is_bank(&ended.file(0)?, bank))
}

/// Whether the run of the three ancestors over the file is done, with its text and that bank.
fn is_done_of_three<R: Threads + Wait + Sync>(
    rt: &R,
    alloc: Global,
    three: &str,
    image: &[u8],
    bank: Known,
) -> Result<bool, OutOfMemory> {
    let ended = call_over(rt, alloc, RUN_OF_THREE, three, image)?;
    Ok(ended.is_done(TEXT_OF_THREE) && is_bank(&ended.file(0)?, bank))
}

/// Whether the call over the file refuses it, tells nothing and only reads.
fn is_refused_unwritten<R: Threads + Wait + Sync>(
    rt: &R,
    alloc: Global,
    words: &str,
    source: &str,
    image: &[u8],
    fault: BankFault,
) -> Result<bool, OutOfMemory> {
    let ended = call_over(rt, alloc, words, source, image)?;
    Ok(is_end(&ended, &Status::BankRefused(fault), "", "SLR"))
}

/// The first saved lines of the three ancestors.
fn first_lines(count: u64) -> &'static str {
    match count {
        0 => "",
        1 => "saved 0080aaa 100\n",
        2 => "saved 0080aaa 100\nsaved 0080aab 101\n",
        _ => "saved 0080aaa 100\nsaved 0080aab 101\nsaved 0080aac 102\n",
    }
}

/// Whether so many of these lines were told, and nothing else.
fn has_told(ended: &Ended, lines: u64) -> bool {
    ended.told.as_slice() == first_lines(lines).as_bytes()
}

#[test]
fn a_run_makes_its_bank(rt: HostRuntime) -> Result<(), Fail> {
    let alloc = rt.alloc();
    let three = three_ancestors(alloc)?;
    let one_group = "SLWSWSWSWSWSTT";
    let rows: [(&str, &str, &str, Known, &str); 5] = [
        (
            "run --quanta 1",
            ZERO_FILE,
            ZERO_TEXT,
            Known::Zero,
            one_group,
        ),
        ("grow --quanta 34", ANCESTOR, GROWN, Known::One, one_group),
        (
            RUN_OF_THREE,
            &three,
            TEXT_OF_THREE,
            Known::Three,
            CALLS_OF_THREE,
        ),
        (
            "run --quanta 102 --workers 2",
            &three,
            TEXT_OF_THREE,
            Known::Three,
            CALLS_OF_THREE,
        ),
        (
            "run --quanta 102 --workers 8",
            &three,
            TEXT_OF_THREE,
            Known::Three,
            CALLS_OF_THREE,
        ),
    ];
    for (words, source, text, bank, calls) in rows {
        let is_so = is_made(&rt, alloc, words, source, text, bank, calls)?;
        assert!(rt; is_so, "{words}");
    }
    Ok(())
}

#[test]
fn a_run_makes_its_bank_in_a_file_of_zeros(rt: HostRuntime) -> Result<(), Fail> {
    let ended = call_over(&rt, rt.alloc(), "grow --quanta 34", ANCESTOR, &[0; 45])?;
    // Seven disk calls attach the file, and four append the group.
    let is_told = is_end(&ended, &Status::Done, GROWN, "SLRWSWSWSWSTT");
    let is_made = is_bank(&ended.file(0)?, Known::One);
    assert_eq!(rt; (is_told, is_made), (true, true));
    Ok(())
}

/// Whether a call is done with a text that has these lines in it.
fn has_lines(ended: &Ended, lines: &str) -> Result<bool, Fail> {
    Ok(ended.status == Status::Done && str::from_utf8(&ended.told)?.contains(lines))
}

/// Whether the run over an empty file is done, with the text and the bank of that one.
fn is_alike<R: Threads + Wait + Sync>(
    rt: &R,
    alloc: Global,
    words: &str,
    source: &str,
    first: &Ended,
) -> Result<bool, OutOfMemory> {
    let ended = call(rt, alloc, words, source)?;
    let same_text = ended.told.as_slice() == first.told.as_slice();
    let same_bank = sum_of(&ended.file(0)?) == sum_of(&first.file(0)?);
    Ok(ended.status == Status::Done && same_text && same_bank)
}

#[test]
fn runs_with_mutations_are_alike_with_any_number_of_workers(rt: HostRuntime) -> Result<(), Fail> {
    let alloc = rt.alloc();
    let source = ancestor_file(alloc, "copy_rate = 1000\nback_rate = 10000\n")?;
    let first = call(&rt, alloc, "run --quanta 5000", &source)?;
    let counts = "quanta 5000\nbirths 113\ndeaths 0\nliving 114\nfilled 18559\nfront ";
    assert!(rt; has_lines(&first, counts)?);
    for words in [
        "run --quanta 5000 --workers 3",
        "run --quanta 5000 --workers 64",
    ] {
        assert!(rt; is_alike(&rt, alloc, words, &source, &first)?, "{words}");
    }
    Ok(())
}

/// Whether these saved lines were told first, and then the report.
fn begins_with(alloc: Global, ended: &Ended, lines: &str) -> Result<bool, OutOfMemory> {
    let front = format!(in alloc; "{lines}quanta ")?;
    Ok(ended.told.as_slice().starts_with(front.as_bytes()))
}

/// The bank that a run over another one leaves, where the run is done, tells so many saved lines before its report, and
/// makes those calls.
fn gone_on<R: Threads + Wait + Sync>(
    rt: &R,
    alloc: Global,
    words: &str,
    three: &str,
    image: &[u8],
    lines: u64,
    calls: &str,
) -> Result<Option<Vec<u8>>, OutOfMemory> {
    let ended = call_over(rt, alloc, words, three, image)?;
    let is_told = begins_with(alloc, &ended, first_lines(lines))?;
    if ended.status == Status::Done && is_told && ended.calls.as_str() == calls {
        Ok(Some(ended.file(0)?))
    } else {
        Ok(None)
    }
}

#[test]
fn a_bank_goes_on_with_a_longer_run(rt: HostRuntime) -> Result<(), Fail> {
    let alloc = rt.alloc();
    let three = three_ancestors(alloc)?;
    let mut image = Vec::new(alloc);
    let rows: [(&str, u64, usize, &str); 5] = [
        ("run --quanta 99", 0, 45, "SLWSWSWST"),
        ("run --quanta 100", 1, 230, "SLRWSWSTT"),
        (RUN_OF_THREE, 3, 600, "SLRTWSWSTWSWSTT"),
        (RUN_OF_THREE, 3, 600, "SLRTTTT"),
        // Groups beyond the run's last are left alone.
        ("run --quanta 101", 2, 600, "SLRTTT"),
    ];
    for (words, lines, len, calls) in rows {
        let Some(left) = gone_on(&rt, alloc, words, &three, &image, lines, calls)? else {
            panic!(rt; "{words}")
        };
        assert_eq!(rt; left.len(), len, "{words}");
        image = left;
    }
    assert!(rt; is_bank(&image, Known::Three));
    Ok(())
}

#[test]
fn a_shorter_run_leaves_the_bank_alone(rt: HostRuntime) -> Result<(), Fail> {
    let alloc = rt.alloc();
    let bank = bank_of(&rt, alloc, "grow --quanta 100", ANCESTOR, Known::One)?;
    let words = "grow --quanta 34";
    let is_so = is_told(&rt, alloc, words, ANCESTOR, &bank, GROWN, "SLRTT")?;
    assert!(rt; is_so);
    Ok(())
}

/// Whether a run over what each crash leaves is done, with the bank of the three.
fn goes_on_from_each_crash<R: Threads + Wait + Sync>(
    rt: &R,
    alloc: Global,
    three: &str,
    ended: &Ended,
) -> Result<bool, OutOfMemory> {
    for pick in 0..4u32 {
        if !is_done_of_three(rt, alloc, three, &ended.file(pick)?, Known::Three)? {
            return Ok(false);
        }
    }
    Ok(true)
}

/// Whether each crash leaves no bytes.
fn leaves_nothing(ended: &Ended) -> Result<bool, OutOfMemory> {
    for pick in 0..4u32 {
        if !ended.file(pick)?.is_empty() {
            return Ok(false);
        }
    }
    Ok(true)
}

/// How many calls the run of the three ancestors makes where one disk call fails. And whether it ends with that fault,
/// so many saved lines and the first of all calls, leaves nothing before it writes, and goes on from each crash.
fn failed_at<R: Threads + Wait + Sync>(
    rt: &R,
    alloc: Global,
    three: &str,
    number: u64,
    lines: u64,
) -> Result<(u64, [bool; 5]), OutOfMemory> {
    let given = Given {
        disk: &[number],
        ..PLAIN
    };
    let ended = call_with(rt, alloc, RUN_OF_THREE, three.as_bytes(), &given)?;
    let calls = ended.calls.as_str();
    let seen = [
        ended.status == Status::DiskFault,
        has_told(&ended, lines),
        CALLS_OF_THREE.starts_with(calls),
        // The third call is the first that writes.
        number > 2 || leaves_nothing(&ended)?,
        goes_on_from_each_crash(rt, alloc, three, &ended)?,
    ];
    Ok((calls.len() as u64, seen))
}

#[test]
fn a_disk_call_that_fails_is_the_last(rt: HostRuntime) -> Result<(), Fail> {
    let alloc = rt.alloc();
    let three = three_ancestors(alloc)?;
    for number in 1..=20u64 {
        // Each group has four disk calls after the eight of the attach.
        let lines = number.saturating_sub(9) / 4;
        let seen = failed_at(&rt, alloc, &three, number, lines)?;
        assert_eq!(rt; seen, (number + lines, [true; 5]), "call {number}");
    }
    Ok(())
}

/// Whether the run of the three ancestors in which one tell fails ends there, with those calls and the lines before it.
fn is_untold<R: Threads + Wait + Sync>(
    rt: &R,
    alloc: Global,
    three: &str,
    number: u64,
    calls: &str,
) -> Result<bool, OutOfMemory> {
    let given = Given {
        tells: &[number],
        ..PLAIN
    };
    let ended = call_with(rt, alloc, RUN_OF_THREE, three.as_bytes(), &given)?;
    let lines = first_lines(number.saturating_sub(1));
    Ok(is_end(&ended, &Status::TellFault, lines, calls))
}

#[test]
fn a_tell_that_fails_is_the_last_call(rt: HostRuntime) -> Result<(), Fail> {
    let alloc = rt.alloc();
    let three = three_ancestors(alloc)?;
    let rows: [(u64, &str); 4] = [
        (1, "SLWSWSWSWSWST"),
        (2, "SLWSWSWSWSWSTWSWST"),
        (3, "SLWSWSWSWSWSTWSWSTWSWST"),
        (4, CALLS_OF_THREE),
    ];
    for (number, calls) in rows {
        assert!(rt;
            is_untold(&rt, alloc, &three, number, calls)?,
            "tell {number}"
        );
    }
    Ok(())
}

/// Whether each crash leaves a bank with at least this many groups, and at most three.
fn keeps_groups(alloc: Global, ended: &Ended, least: u64) -> Result<bool, Fail> {
    for pick in 0..4u32 {
        let image = ended.file(pick)?;
        let groups = groups_of(alloc, &image, Some(&SETUP_OF_THREE))?.items.len() as u64;
        if groups < least || groups > 3 {
            return Ok(false);
        }
    }
    Ok(true)
}

/// Whether the run of the three ancestors whose calls fail from one on ends with that fault and so many saved lines,
/// leaves their groups at each crash, and goes on from it.
fn stopped_at<R: Threads + Wait + Sync>(
    rt: &R,
    alloc: Global,
    three: &str,
    stop: u64,
    want: &Status,
    lines: u64,
) -> Result<[bool; 4], Fail> {
    let given = Given {
        stop: Some(stop),
        ..PLAIN
    };
    let ended = call_with(rt, alloc, RUN_OF_THREE, three.as_bytes(), &given)?;
    Ok([
        ended.status == *want,
        has_told(&ended, lines),
        keeps_groups(alloc, &ended, lines)?,
        goes_on_from_each_crash(rt, alloc, three, &ended)?,
    ])
}

#[test]
fn a_stop_at_each_call_leaves_a_true_bank(rt: HostRuntime) -> Result<(), Fail> {
    let alloc = rt.alloc();
    let three = three_ancestors(alloc)?;
    for stop in 1..=24u64 {
        let want = if matches!(stop, 13 | 18 | 23 | 24) {
            Status::TellFault
        } else {
            Status::DiskFault
        };
        // Each group has four disk calls and a tell after the eight of the attach.
        let lines = stop.saturating_sub(9) / 5;
        let seen = stopped_at(&rt, alloc, &three, stop, &want, lines)?;
        assert_eq!(rt; seen, [true; 4], "stop {stop}");
    }
    Ok(())
}

/// How many reads of the source there are in the run of the three ancestors whose desk calls fail from one on.
fn reads_till<R: Threads + Wait + Sync>(
    rt: &R,
    alloc: Global,
    three: &str,
    stop: u64,
) -> Result<u64, OutOfMemory> {
    let given = Given {
        stop: Some(stop),
        ..PLAIN
    };
    let ended = call_with(rt, alloc, RUN_OF_THREE, three.as_bytes(), &given)?;
    Ok(ended.reads)
}

#[test]
fn the_source_is_not_read_after_a_fault_of_the_desk(rt: HostRuntime) -> Result<(), Fail> {
    let alloc = rt.alloc();
    let three = three_ancestors(alloc)?;
    for stop in 1..=24u64 {
        // One read gives the whole source, and one finds its end.
        assert_eq!(rt; reads_till(&rt, alloc, &three, stop)?, 2, "stop {stop}");
    }
    Ok(())
}

/// The bank that a run makes, which is known.
fn bank_of<R: Threads + Wait + Sync>(
    rt: &R,
    alloc: Global,
    words: &str,
    source: &str,
    bank: Known,
) -> Result<Vec<u8>, Fail> {
    let ended = call(rt, alloc, words, source)?;
    let made = ended.file(0)?;
    if ended.status == Status::Done && is_bank(&made, bank) {
        Ok(made)
    } else {
        Err(Fail::from("the run made another bank"))
    }
}

/// Whether the run of the three goes on from that image, or refuses it where a group is given as damaged.
fn goes_on_or_refuses<R: Threads + Wait + Sync>(
    rt: &R,
    alloc: Global,
    three: &str,
    image: &[u8],
    damaged: Option<u64>,
) -> Result<bool, OutOfMemory> {
    match damaged {
        Some(group) => {
            let fault = BankFault::Damaged { group };
            is_refused_unwritten(rt, alloc, RUN_OF_THREE, three, image, fault)
        }
        None => is_done_of_three(rt, alloc, three, image, Known::Three),
    }
}

#[test]
fn a_bank_is_cut_at_each_length(rt: HostRuntime) -> Result<(), Fail> {
    let alloc = rt.alloc();
    let three = three_ancestors(alloc)?;
    let bank = bank_of(&rt, alloc, RUN_OF_THREE, &three, Known::Three)?;
    for len in 0..=bank.len() {
        let damaged = match len {
            45..=229 => Some(0),
            230..=414 => Some(1),
            415..=599 => Some(2),
            _ => None,
        };
        let is_so = goes_on_or_refuses(&rt, alloc, &three, &bank[..len], damaged)?;
        assert!(rt; is_so, "{len} bytes");
    }
    Ok(())
}

/// The bank of the three ancestors, with another byte at a place.
fn changed<R: Threads + Wait + Sync>(
    rt: &R,
    alloc: Global,
    three: &str,
    place: usize,
) -> Result<Vec<u8>, Fail> {
    let mut image = bank_of(rt, alloc, RUN_OF_THREE, three, Known::Three)?;
    match image.get_mut(place) {
        Some(cell) => *cell = 9,
        None => return Err(Fail::from("no such place")),
    }
    Ok(image)
}

/// The fault of a bank of the three ancestors with another first byte of its digest.
fn foreign() -> BankFault {
    let mut found = SETUP_OF_THREE;
    found[0] = 9;
    let wanted = SETUP_OF_THREE;
    BankFault::Foreign { found, wanted }
}

/// Whether a call that refuses a bank has exit number 3 and a line for standard error that ends with this reason.
fn has_line(alloc: Global, fault: BankFault, reason: &str) -> Result<bool, OutOfMemory> {
    let status = Status::BankRefused(fault);
    let line = format!(in alloc; "tierra: tierra.bank{reason}\n")?;
    Ok(status.number() == 3 && line_of(alloc, &status)?.as_slice() == line.as_bytes())
}

#[test]
fn another_file_is_refused(rt: HostRuntime) -> Result<(), Fail> {
    let alloc = rt.alloc();
    let three = three_ancestors(alloc)?;
    // A byte of the title, of the digest, and of a code in group 1.
    let rows: [(usize, BankFault, &str); 3] = [
        (1, BankFault::NotABank, " is not a genebank"),
        (12, foreign(), " belongs to another setup"),
        (302, BankFault::Damaged { group: 1 }, ": group 1 is damaged"),
    ];
    for (place, fault, reason) in rows {
        let image = changed(&rt, alloc, &three, place)?;
        let is_refused = is_refused_unwritten(&rt, alloc, RUN_OF_THREE, &three, &image, fault)?;
        let is_line = has_line(alloc, fault, reason)?;
        assert_eq!(rt; (is_refused, is_line), (true, true), "byte {place}");
    }
    Ok(())
}

/// A group with one genotype, the ancestor or one with another last instruction.
#[derive(Clone, Copy, Drop)]
pub(crate) struct Kept {
    pub(crate) form_two: bool,
    pub(crate) quantum: u64,
    pub(crate) ran: u64,
    pub(crate) last: u8,
}

fn payload_of(alloc: Global, group: &Kept) -> Result<Vec<u8>, Fail> {
    let mut payload = group.quantum.to_be_bytes().to_vec(alloc)?;
    payload.extend_from_slice(&[0, 0, 0, 1, 0, 0, 0, 80])?;
    payload.extend_from_slice(&[0; 20])?;
    if group.form_two {
        payload.extend_from_slice(&group.ran.to_be_bytes())?;
        payload.extend_from_slice(&[0, 0, 0, 0, 0, 0, 0, 80])?;
        payload.extend_from_slice(&[0; 16])?;
    }
    for (place, digits) in ANCESTOR_HEX.split_ascii_whitespace().enumerate() {
        let code = u8::from_str_radix(digits, 16)?;
        payload.push(if place == 79 { group.last } else { code })?;
    }
    Ok(payload)
}

/// The bank of a setup with one group.
pub(crate) fn bank_with(alloc: Global, setup: &[u8; 32], group: &Kept) -> Result<Vec<u8>, Fail> {
    let mut bank = b"Tierra bank1".to_vec(alloc)?;
    bank.extend_from_slice(setup)?;
    bank.push(1)?;
    let payload = payload_of(alloc, group)?;
    let field: u32 = if group.form_two { 0x8000_0094 } else { 0x74 };
    bank.extend_from_slice(&field.to_be_bytes())?;
    bank.extend_from_slice(&payload)?;
    bank.extend_from_slice(&Sha256::digest(payload.as_slice()))?;
    bank.push(0)?;
    Ok(bank)
}

#[test]
fn a_bank_of_form_one_goes_on(rt: HostRuntime) -> Result<(), Fail> {
    let alloc = rt.alloc();
    let three = three_ancestors(alloc)?;
    let group = Kept {
        form_two: false,
        quantum: 100,
        ran: 0,
        last: 5,
    };
    let image = bank_with(alloc, &SETUP_OF_THREE, &group)?;
    let is_done = is_done_of_three(&rt, alloc, &three, &image, Known::BothForms)?;
    assert_eq!(rt; (image.len(), is_done), (198, true));
    Ok(())
}

/// Whether the ancestor's run goes on from a bank with that group and leaves it as it is, or refuses it where the group
/// does not fit.
fn fits_or_differs<R: Threads + Wait + Sync>(
    rt: &R,
    alloc: Global,
    group: &Kept,
    fits: bool,
) -> Result<bool, Fail> {
    let image = bank_with(alloc, &SETUP_OF_ONE, group)?;
    let words = "grow --quanta 34";
    if fits {
        let ended = call_over(rt, alloc, words, ANCESTOR, &image)?;
        Ok(ended.is_done(GROWN) && sum_of(&ended.file(0)?) == sum_of(&image))
    } else {
        let fault = BankFault::Differs { group: 0 };
        Ok(is_refused_unwritten(rt, alloc, words, ANCESTOR, &image, fault)?)
    }
}

#[test]
fn a_group_that_does_not_fit_differs(rt: HostRuntime) -> Result<(), Fail> {
    let alloc = rt.alloc();
    let rows: [(bool, u64, u64, u8, bool); 7] = [
        (true, 34, 839, 5, true),
        (false, 34, 0, 5, true),
        (true, 33, 839, 5, false),
        (true, 34, 838, 5, false),
        (true, 34, 839, 8, false),
        (false, 33, 0, 5, false),
        (false, 34, 0, 8, false),
    ];
    for (form_two, quantum, ran, last, fits) in rows {
        let group = Kept {
            form_two,
            quantum,
            ran,
            last,
        };
        let is_so = fits_or_differs(&rt, alloc, &group, fits)?;
        assert!(rt;
            is_so,
            "form two {form_two}, quantum {quantum}, ran {ran}, last {last}"
        );
    }
    let fault = BankFault::Differs { group: 0 };
    assert!(rt; has_line(alloc, fault, ": group 0 differs from this run")?);
    Ok(())
}

/// The bytes from one place to another, or a failure where the bytes end earlier.
pub(crate) fn part_of(
    alloc: Global,
    bytes: &[u8],
    from: usize,
    to: usize,
) -> Result<Vec<u8>, Fail> {
    if from <= to && to <= bytes.len() {
        Ok(bytes[from..to].to_vec(alloc)?)
    } else {
        Err(Fail::from("the file is too short"))
    }
}

/// The bank of the three ancestors, with its first group in the place of the second one too.
fn first_twice<R: Threads + Wait + Sync>(
    rt: &R,
    alloc: Global,
    three: &str,
) -> Result<Vec<u8>, Fail> {
    let bank = bank_of(rt, alloc, RUN_OF_THREE, three, Known::Three)?;
    let mut image = part_of(alloc, &bank, 0, 229)?;
    image.extend_from_slice(&part_of(alloc, &bank, 44, 229)?)?;
    image.push(0)?;
    Ok(image)
}

#[test]
fn the_lines_before_a_group_that_differs_are_told(rt: HostRuntime) -> Result<(), Fail> {
    let alloc = rt.alloc();
    let three = three_ancestors(alloc)?;
    let image = first_twice(&rt, alloc, &three)?;
    let ended = call_over(&rt, alloc, RUN_OF_THREE, &three, &image)?;
    let want = Status::BankRefused(BankFault::Differs { group: 1 });
    assert!(rt; is_end(&ended, &want, first_lines(1), "SLRT"));
    Ok(())
}
