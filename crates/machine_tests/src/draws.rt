//! Draws against words of ChaCha8 that another program worked out.

use mutation_streams::{Draws, NoTape, Tape, TapeBlock, TapeEntry};
use std::alloc::Global;
use tierra_model::{OutOfMemory, Settings, defaults};

/// The seeds of the rows. (Each of 42 rows with 32 bytes of its own would take the prover a minute for each test.)
#[derive(Clone, Copy, Debug, Drop)]
enum Seed {
    Zeros,
    Rising,
    Ones,
}

impl Seed {
    fn bytes(self) -> [u8; 32] {
        match self {
            Seed::Zeros => [0; 32],
            Seed::Rising => std::array::from_fn(|k| k as u8),
            Seed::Ones => [255; 32],
        }
    }
}

use Seed::{Ones, Rising, Zeros};

/// Seed, quantum, instruction and rate, and what is drawn in a soup of 60,000 cells: the flip in the soup, the flaw
/// and the flip in a copy. A rate above 7 is one of the words itself.
type Row = (Seed, u64, u32, u32, Option<(u32, u8)>, i32, Option<u8>);

const ROWS: [Row; 42] = [
    (Zeros, 1, 0, 1, Some((24505, 0)), 1, Some(4)),
    (Zeros, 1, 0, 2, None, 0, None),
    (Zeros, 1, 0, 7, None, 1, None),
    (Zeros, 1, 9999, 1, Some((24505, 0)), -1, Some(2)),
    (Zeros, 1, 9999, 2, None, -1, None),
    (Zeros, 1, 9999, 7, None, 0, None),
    (Zeros, 1, 9999, 3008073515, Some((24505, 0)), 0, None),
    (Zeros, 1, 9999, 3504790356, None, -1, None),
    (Zeros, 1, 9999, 2080454571, None, 0, Some(2)),
    (Zeros, 4000000, 0, 1, Some((52596, 1)), 1, Some(3)),
    (Zeros, 4000000, 0, 2, None, 0, Some(3)),
    (Zeros, 4000000, 0, 7, None, 0, None),
    (Zeros, 4000000, 9999, 1, Some((52596, 1)), -1, Some(1)),
    (Zeros, 4000000, 9999, 2, None, 0, Some(1)),
    (Zeros, 4000000, 9999, 7, None, -1, None),
    (Rising, 1, 0, 1, Some((25337, 4)), 1, Some(0)),
    (Rising, 1, 0, 2, None, 1, None),
    (Rising, 1, 0, 7, None, 0, None),
    (Rising, 1, 9999, 1, Some((25337, 4)), 1, Some(1)),
    (Rising, 1, 9999, 2, None, 0, Some(1)),
    (Rising, 1, 9999, 7, None, 0, None),
    (Rising, 4000000, 0, 1, Some((15041, 2)), -1, Some(2)),
    (Rising, 4000000, 0, 2, Some((15041, 2)), -1, None),
    (Rising, 4000000, 0, 7, None, 0, None),
    (Rising, 4000000, 0, 1016334482, Some((15041, 2)), 0, None),
    (Rising, 4000000, 0, 3726298628, None, -1, None),
    (Rising, 4000000, 0, 1882000579, None, 0, Some(2)),
    (Rising, 4000000, 9999, 1, Some((15041, 2)), -1, Some(0)),
    (Rising, 4000000, 9999, 2, Some((15041, 2)), 0, None),
    (Rising, 4000000, 9999, 7, None, 0, None),
    (Ones, 1, 0, 1, Some((36245, 4)), 1, Some(2)),
    (Ones, 1, 0, 2, None, 0, Some(2)),
    (Ones, 1, 0, 7, None, 0, None),
    (Ones, 1, 9999, 1, Some((36245, 4)), -1, Some(1)),
    (Ones, 1, 9999, 2, None, -1, Some(1)),
    (Ones, 1, 9999, 7, None, 0, None),
    (Ones, 4000000, 0, 1, Some((42982, 3)), -1, Some(2)),
    (Ones, 4000000, 0, 2, Some((42982, 3)), 0, Some(2)),
    (Ones, 4000000, 0, 7, Some((42982, 3)), 0, None),
    (Ones, 4000000, 9999, 1, Some((42982, 3)), 1, Some(2)),
    (Ones, 4000000, 9999, 2, Some((42982, 3)), 1, Some(2)),
    (Ones, 4000000, 9999, 7, Some((42982, 3)), 0, None),
];

// (Where a test has the table itself, the prover takes it through each of the test's borrows.)
fn rows() -> [Row; 42] {
    ROWS
}

fn settings(seed: Seed, rate: u32) -> Settings {
    let mut settings = defaults();
    settings.back_rate = rate;
    settings.copy_rate = rate;
    settings.flaw_rate = rate;
    settings.seed = seed.bytes();
    settings
}

/// A flip in the soup, a flaw, and a flip in a copy.
type Drawn = (Option<(u32, u8)>, i32, Option<u8>);

fn drawn(settings: &Settings, q: u64, i: u32) -> Drawn {
    asked(&mut Draws::new(settings, q), i)
}

fn asked(draws: &mut Draws, i: u32) -> Drawn {
    (draws.back(), draws.flaw(i), draws.copy_bit(i))
}

#[test]
fn draws_are_the_words_of_the_stream(rt: HostRuntime) {
    for (seed, q, i, rate, back, flaw, copy_bit) in rows() {
        assert_eq!(rt;
            drawn(&settings(seed, rate), q, i),
            (back, flaw, copy_bit),
            "quantum {q} instruction {i} rate {rate}"
        );
    }
}

// Instruction 0 and those after it in order, some of them left out or asked for twice, and then one far away.
const IN_TURN: [u32; 20] = [
    0, 1, 2, 3, 5, 6, 7, 8, 9, 13, 14, 15, 16, 17, 18, 18, 40, 9999, 9998, 0,
];

// The flaw is drawn before the copy's flip, and the soup's flip is drawn last.
fn asked_in_turn(draws: &mut Draws, i: u32) -> (i32, Option<u8>, Option<(u32, u8)>) {
    (draws.flaw(i), draws.copy_bit(i), draws.back())
}

// The same, from draws of which nothing was asked before: one for the flaw, and one for the flips.
fn asked_afresh(settings: &Settings, i: u32) -> (i32, Option<u8>, Option<(u32, u8)>) {
    let flaw = Draws::new(settings, 1).flaw(i);
    let mut fresh = Draws::new(settings, 1);
    (flaw, fresh.copy_bit(i), fresh.back())
}

#[test]
fn what_was_asked_before_changes_no_draw(rt: HostRuntime) {
    for rate in [1, 2, 7] {
        let settings = settings(Rising, rate);
        let mut draws = Draws::new(&settings, 1);
        for i in IN_TURN {
            assert_eq!(rt;
                asked_in_turn(&mut draws, i),
                asked_afresh(&settings, i),
                "instruction {i} rate {rate}"
            );
        }
    }
}

// No word of these rows is 0 or the greatest number.
#[test]
fn nothing_is_drawn_at_no_rate_and_at_the_greatest(rt: HostRuntime) {
    for (seed, q, i, _, _, _, _) in rows() {
        for rate in [0, u32::MAX] {
            assert_eq!(rt;
                drawn(&settings(seed, rate), q, i),
                (None, 0, None),
                "quantum {q} instruction {i} rate {rate}"
            );
        }
    }
}

/// How many instructions the entries of these tests tell of: fewer than those of the rows, and more.
const REACHES: [u32; 3] = [0, 1, 10000];

// The same as `drawn`, from the quantum's entry.
fn drawn_by_entry(
    alloc: Global,
    settings: &Settings,
    q: u64,
    i: u32,
    reach: u32,
) -> Result<Drawn, OutOfMemory> {
    let entry = TapeEntry::of(alloc, settings, q, reach)?;
    let mut draws = Draws::of_entry(settings, q, reach, entry);
    Ok(asked(&mut draws, i))
}

#[test]
fn an_entry_says_what_the_stream_says(rt: HostRuntime) {
    for (seed, q, i, rate, back, flaw, copy_bit) in rows() {
        for reach in REACHES {
            assert_eq!(rt;
                drawn_by_entry(rt.alloc(), &settings(seed, rate), q, i, reach),
                Ok((back, flaw, copy_bit)),
                "quantum {q} instruction {i} rate {rate} reach {reach}"
            );
        }
    }
}

// The entries of the quantum before q and of the seven after that one, for 25 instructions. At the rates of the rows
// several things happen in each quantum.
fn block_at(alloc: Global, settings: &Settings, q: u64) -> Result<TapeBlock, OutOfMemory> {
    TapeBlock::write(alloc, settings, q.saturating_sub(1).min(1 << 40), 8, 25)
}

fn drawn_off_block(
    alloc: Global,
    settings: &Settings,
    q: u64,
    i: u32,
) -> Result<Option<Drawn>, OutOfMemory> {
    let mut block = block_at(alloc, settings, q)?;
    Ok(
        block
            .draws(settings, q)
            .map(|mut draws| asked(&mut draws, i)),
    )
}

#[test]
fn a_block_has_the_draws_of_its_quanta(rt: HostRuntime) {
    for (seed, q, i, rate, back, flaw, copy_bit) in rows() {
        assert_eq!(rt;
            drawn_off_block(rt.alloc(), &settings(seed, rate), q, i),
            Ok(Some((back, flaw, copy_bit))),
            "quantum {q} instruction {i} rate {rate}"
        );
    }
}

// Asks a block of the entries of quanta 5 to 12 for some quanta, one after another. If it has the last of them, the
// first quantum whose entry is then left, and the one after the last entry.
fn left_after(alloc: Global, asked_for: &[u64]) -> Result<Option<(u64, u64)>, OutOfMemory> {
    let settings = settings(Rising, 2);
    let mut block = block_at(alloc, &settings, 6)?;
    let mut left = None;
    for q in asked_for {
        let is_there = block.draws(&settings, *q).is_some();
        left = is_there.then_some((block.first(), block.end()));
    }
    Ok(left)
}

#[test]
fn a_block_has_each_entry_once(rt: HostRuntime) {
    let rows: [(&[u64], Option<(u64, u64)>); 7] = [
        (&[4], None),
        (&[5], Some((6, 13))),
        (&[5, 5], None),
        (&[8], Some((9, 13))),
        (&[8, 7], None),
        (&[5, 8, 12], Some((13, 13))),
        (&[13], None),
    ];
    for (asked_for, left) in rows {
        assert_eq!(rt;
            left_after(rt.alloc(), asked_for),
            Ok(left),
            "quanta {asked_for:?}"
        );
    }
}

fn is_of(alloc: Global, settings: &Settings, other: &Settings) -> Result<bool, OutOfMemory> {
    let mut block = block_at(alloc, settings, 6)?;
    Ok(block.draws(other, 6).is_some())
}

#[test]
fn a_block_is_of_one_seed_and_of_its_rates(rt: HostRuntime) {
    let ours = settings(Rising, 2);
    assert_eq!(rt; is_of(rt.alloc(), &ours, &ours), Ok(true));
    assert_eq!(rt; is_of(rt.alloc(), &ours, &settings(Zeros, 2)), Ok(false));
    assert_eq!(rt; is_of(rt.alloc(), &ours, &settings(Rising, 3)), Ok(false));
}

// Draws off a tape, as a run asks for them.
fn drawn_off_tape<T: Tape>(tape: &mut T, settings: &Settings, q: u64, i: u32) -> Drawn {
    asked(&mut tape.draws(settings, q), i)
}

#[test]
fn no_tape_gives_the_draws_of_the_stream(rt: HostRuntime) {
    for (seed, q, i, rate, back, flaw, copy_bit) in rows() {
        assert_eq!(rt;
            drawn_off_tape(&mut NoTape, &settings(seed, rate), q, i),
            (back, flaw, copy_bit),
            "quantum {q} instruction {i} rate {rate}"
        );
    }
}
