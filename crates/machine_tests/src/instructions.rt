//! Small programs, with what they leave worked out by hand.

use crate::running::{NONE, STILL, copy_once, newborn, registers, run};
use cpu_core::{Act, divide_done, mal_done};
use std::alloc::{AllocError, Global};
use std::process::Abort;
use std::test::Fail;
use tierra_model::{Block, Creature};

type Registers = (i32, i32, i32, i32);

// The act of one code, and what it leaves in the registers 5, 7, 3 and 0.
fn left_by(
    rt: &impl Abort,
    alloc: Global,
    code: u8,
    draws: (u32, u32, u32),
) -> Result<(Act, Registers), AllocError> {
    let mut creature = Creature {
        ax: 5,
        bx: 7,
        cx: 3,
        ..newborn()
    };
    let act = run(rt, alloc, &mut creature, &[code], NONE, draws, 1)?;
    Ok((act, registers(&creature)))
}

#[test]
fn computes(rt: HostRuntime) -> Result<(), Fail> {
    let alloc = rt.alloc();
    // the code; the registers without a flaw, with the flaw 1 and with the flaw -1
    let rows = [
        (0x00, (5, 7, 3, 0), (5, 7, 3, 0), (5, 7, 3, 0)),
        (0x01, (5, 7, 3, 0), (5, 7, 3, 0), (5, 7, 3, 0)),
        (0x02, (5, 7, 2, 0), (5, 7, 1, 0), (5, 7, 3, 0)),
        (0x03, (5, 7, 6, 0), (5, 7, 12, 0), (5, 7, 3, 0)),
        (0x04, (5, 7, 0, 0), (5, 7, 1, 0), (5, 7, -1, 0)),
        (0x05, (5, 7, 3, 0), (5, 7, 3, 0), (5, 7, 3, 0)),
        (0x06, (5, 7, -2, 0), (5, 7, -1, 0), (5, 7, -3, 0)),
        (0x07, (2, 7, 3, 0), (3, 7, 3, 0), (1, 7, 3, 0)),
        (0x08, (6, 7, 3, 0), (7, 7, 3, 0), (5, 7, 3, 0)),
        (0x09, (5, 8, 3, 0), (5, 9, 3, 0), (5, 7, 3, 0)),
        (0x0a, (5, 7, 2, 0), (5, 7, 3, 0), (5, 7, 1, 0)),
        (0x0b, (5, 7, 4, 0), (5, 7, 5, 0), (5, 7, 3, 0)),
        (0x0c, (5, 7, 3, 0), (5, 7, 3, 0), (5, 7, 3, 0)),
        (0x10, (0, 7, 3, 0), (0, 7, 3, 0), (0, 7, 3, 0)),
        (0x11, (5, 0, 3, 0), (5, 0, 3, 0), (5, 0, 3, 0)),
        (0x12, (5, 7, 0, 0), (5, 7, 0, 0), (5, 7, 0, 0)),
        (0x17, (5, 7, 3, 0), (5, 7, 3, 0), (5, 7, 3, 0)),
        (0x18, (5, 7, 3, 3), (5, 7, 3, 4), (5, 7, 3, 2)),
        (0x19, (5, 5, 3, 0), (5, 6, 3, 0), (5, 4, 3, 0)),
    ];
    // the flaws of this seed in quantum 1 begin 1, -1
    for (code, plain, up, down) in rows {
        for (rate, i, want) in [(0, 0, plain), (1, 0, up), (1, 1, down)] {
            let left = left_by(&rt, alloc, code, (rate, 0, i))?;
            assert_eq!(rt;
                left,
                (Act::Plain, want),
                "code {code}, rate {rate}, instruction {i}"
            );
        }
    }
    Ok(())
}

#[test]
fn wraps(rt: HostRuntime) -> Result<(), Fail> {
    let alloc = rt.alloc();
    let most = 2147483647;
    let least = -2147483648;
    // the code, the registers before and after; the first instruction has the flaw 1 if the rate is 1
    let rows = [
        (0x08, 0, (most, 0, 0, 0), (least, 0, 0, 0)),
        (0x0a, 0, (0, 0, least, 0), (0, 0, most, 0)),
        (0x03, 0, (0, 0, 1073741824, 0), (0, 0, least, 0)),
        (0x03, 1, (0, 0, 1073741824, 0), (0, 0, 0, 0)),
        (0x06, 0, (least, 1, 0, 0), (least, 1, most, 0)),
        (0x18, 1, (0, 0, most, 0), (0, 0, most, least)),
    ];
    for (code, rate, (ax, bx, cx, dx), want) in rows {
        let mut creature = Creature {
            ax,
            bx,
            cx,
            dx,
            ..newborn()
        };
        let _ = run(&rt, alloc, &mut creature, &[code], NONE, (rate, 0, 0), 1)?;
        assert_eq!(rt; registers(&creature), want, "code {code}, rate {rate}");
    }
    Ok(())
}

#[test]
fn turns_the_stack(rt: HostRuntime) -> Result<(), Fail> {
    let alloc = rt.alloc();
    // eleven pushes of 1 to 11, and pops into bx, cx and dx
    let eleven = [
        8, 12, 8, 12, 8, 12, 8, 12, 8, 12, 8, 12, 8, 12, 8, 12, 8, 12, 8, 12, 8, 12, 17, 18, 19,
    ];
    let mut creature = newborn();
    let _ = run(&rt, alloc, &mut creature, &eleven, NONE, STILL, 25)?;
    assert_eq!(rt; registers(&creature), (11, 11, 10, 9));
    assert_eq!(rt; (creature.sp, creature.ip, creature.ran), (8, 25, 25));
    Ok(())
}

#[test]
fn pops_go_round_the_stack(rt: HostRuntime) -> Result<(), Fail> {
    let alloc = rt.alloc();
    // eleven pops of a full stack give its top twice
    let pops = [17; 11];
    for (count, want) in [(1, 11), (2, 10), (10, 2), (11, 11)] {
        let stack = [10, 11, 2, 3, 4, 5, 6, 7, 8, 9];
        let mut popping = Creature {
            stack,
            sp: 1,
            ..newborn()
        };
        let _ = run(&rt, alloc, &mut popping, &pops, NONE, STILL, count)?;
        assert_eq!(rt; popping.bx, want, "after {count} pops");
    }
    Ok(())
}

#[test]
fn pushes_each_register(rt: HostRuntime) -> Result<(), Fail> {
    let alloc = rt.alloc();
    let mut pushing = Creature {
        ax: 1,
        bx: 2,
        cx: 3,
        dx: 4,
        sp: 7,
        ..newborn()
    };
    let _ = run(&rt, alloc, &mut pushing, &[12, 13, 14, 15], NONE, STILL, 4)?;
    assert_eq!(rt; pushing.stack, [3, 4, 0, 0, 0, 0, 0, 0, 1, 2]);
    assert_eq!(rt; pushing.sp, 1);
    Ok(())
}

// Where an if_cz leads.
fn after_if_cz(rt: &impl Abort, alloc: Global, ip: u32, cx: i32) -> Result<u32, AllocError> {
    let mut creature = Creature {
        ip,
        cx,
        ..newborn()
    };
    let _ = run(rt, alloc, &mut creature, &[5], NONE, STILL, 1)?;
    Ok(creature.ip)
}

// Where a ret leads with this word all over the stack, and the place on the stack after it.
fn after_ret(rt: &impl Abort, alloc: Global, word: i32) -> Result<(u32, u32), AllocError> {
    let mut creature = Creature {
        stack: [word; 10],
        ..newborn()
    };
    let _ = run(rt, alloc, &mut creature, &[0x17], NONE, STILL, 1)?;
    Ok((creature.ip, creature.sp))
}

#[test]
fn goes_on(rt: HostRuntime) -> Result<(), Fail> {
    let alloc = rt.alloc();
    // if_cz: where it stands, cx, and where it goes
    for (ip, cx, want) in [
        (0, 0, 1),
        (0, 1, 2),
        (0, -1, 2),
        (99, 0, 0),
        (98, 1, 0),
        (99, 1, 1),
    ] {
        assert_eq!(rt;
            after_if_cz(&rt, alloc, ip, cx)?,
            want,
            "if_cz at {ip}, cx {cx}"
        );
    }
    // ret: the word on the stack, and where it goes
    for (word, want) in [(7, 7), (99, 99), (100, 0), (250, 50), (-1, 99), (-100, 0)] {
        assert_eq!(rt; after_ret(&rt, alloc, word)?, (want, 9), "ret to {word}");
    }
    Ok(())
}

#[test]
fn jumps(rt: HostRuntime) -> Result<(), Fail> {
    let alloc = rt.alloc();
    // jmp nop_0 inc_a nop_1 inc_b goes to the cell after nop_1
    let mut creature = newborn();
    let _ = run(
        &rt,
        alloc,
        &mut creature,
        &[0x14, 0, 8, 1, 9],
        NONE,
        STILL,
        25,
    )?;
    assert_eq!(rt; registers(&creature), (0, 1, 0, 0));
    assert_eq!(rt; (creature.ip, creature.flag, creature.errors), (28, 0, 0));
    Ok(())
}

#[test]
fn jumps_back_across_cell_0(rt: HostRuntime) -> Result<(), Fail> {
    let alloc = rt.alloc();
    let mut back = newborn();
    let _ = run(&rt, alloc, &mut back, &[0x15, 0, 8, 1], (97, 1), STILL, 1)?;
    assert_eq!(rt; back.ip, 98);
    Ok(())
}

#[test]
fn calls_and_comes_back(rt: HostRuntime) -> Result<(), Fail> {
    let alloc = rt.alloc();
    // call pushes the next cell, and ret comes back
    let mut calling = newborn();
    let _ = run(
        &rt,
        alloc,
        &mut calling,
        &[0x16, 0, 8, 1, 0x17],
        NONE,
        STILL,
        1,
    )?;
    assert_eq!(rt; (calling.ip, calling.sp, calling.stack[1]), (4, 1, 1));
    let _ = run(&rt, alloc, &mut calling, &[0x17], NONE, STILL, 1)?;
    assert_eq!(rt; (calling.ip, calling.sp), (1, 0));
    Ok(())
}

#[test]
fn the_cell_after_the_last_is_cell_0(rt: HostRuntime) -> Result<(), Fail> {
    let alloc = rt.alloc();
    let mut last = Creature {
        ip: 99,
        stack: [5; 10],
        ..newborn()
    };
    let _ = run(&rt, alloc, &mut last, &[0x16, 0, 8, 1], NONE, STILL, 1)?;
    assert_eq!(rt; (last.ip, last.sp, last.stack[1]), (3, 1, 0));
    Ok(())
}

// The act of a search for an address, and what it leaves in the registers, the ip, the flag and the errors.
fn found_by(
    rt: &impl Abort,
    alloc: Global,
    code: u8,
    at: usize,
    draws: (u32, u32, u32),
) -> Result<(Act, Registers, (u32, u8, u64)), AllocError> {
    let mut creature = Creature { cx: 3, ..newborn() };
    let act = run(rt, alloc, &mut creature, &[code, 0, 8], (at, 1), draws, 1)?;
    let rest = (creature.ip, creature.flag, creature.errors);
    Ok((act, registers(&creature), rest))
}

#[test]
fn finds_addresses(rt: HostRuntime) -> Result<(), Fail> {
    let alloc = rt.alloc();
    // the code, the cell of nop_1, the flaw's rate and the instruction; ax after it
    let rows = [
        (0x1b, 3, 0, 0, 4),
        (0x1b, 97, 0, 0, 98),
        (0x1c, 97, 0, 0, 98),
        (0x1d, 3, 0, 0, 4),
        (0x1b, 3, 1, 0, 5),
        (0x1c, 97, 1, 1, 97),
        (0x1d, 3, 1, 1, 3),
    ];
    for (code, at, rate, i, want) in rows {
        assert_eq!(rt;
            found_by(&rt, alloc, code, at, (rate, 0, i))?,
            (Act::Plain, (want, 0, 3, 0), (1, 0, 0)),
            "code {code}, nop_1 at {at}, rate {rate}"
        );
    }
    Ok(())
}

#[test]
fn errs(rt: HostRuntime) -> Result<(), Fail> {
    let alloc = rt.alloc();
    // no template; a template with no complement; forward and backward with one on the other side
    let rows: [(&[u8], (usize, u8)); 9] = [
        (&[0x14, 8], (3, 1)),
        (&[0x15, 8], (97, 1)),
        (&[0x16, 8], (3, 1)),
        (&[0x1b, 8], (3, 1)),
        (&[0x14, 0, 8], NONE),
        (&[0x16, 0, 8], NONE),
        (&[0x1c, 0, 8], (3, 1)),
        (&[0x1d, 0, 8], (97, 1)),
        (&[0x1f, 8], NONE),
    ];
    for (codes, other) in rows {
        let start = Creature {
            ax: 5,
            bx: 7,
            cx: 3,
            dx: 1,
            errors: 2,
            ..newborn()
        };
        let mut creature = start;
        let act = run(&rt, alloc, &mut creature, codes, other, (1, 1, 0), 1)?;
        assert_eq!(rt; act, Act::Erred);
        assert_eq!(rt;
            creature,
            Creature {
                ip: 1,
                flag: 1,
                errors: 3,
                ran: 1,
                ..start
            }
        );
    }
    Ok(())
}

#[test]
fn the_next_instruction_clears_the_flag(rt: HostRuntime) -> Result<(), Fail> {
    let alloc = rt.alloc();
    let mut creature = newborn();
    let _ = run(&rt, alloc, &mut creature, &[0x14, 8], NONE, STILL, 2)?;
    assert_eq!(rt; (creature.ax, creature.flag, creature.errors), (1, 0, 1));
    Ok(())
}

#[test]
fn copies(rt: HostRuntime) -> Result<(), Fail> {
    let alloc = rt.alloc();
    let daughter = Some(Block { at: 50, size: 10 });
    // ax; whether it copies; and moved afterwards, if it was 3 before
    let rows = [
        (50, true, 4),
        (59, true, 4),
        (60, false, 3),
        (49, false, 3),
        (5, true, 3),
        (9, true, 3),
        (10, false, 3),
        (-50, true, 4),
        (-1, false, 3),
        (150, true, 4),
    ];
    for (ax, copies, moved) in rows {
        let mut creature = Creature {
            ax,
            bx: -100,
            daughter,
            moved: 3,
            ..newborn()
        };
        let (act, cell) = copy_once(&rt, alloc, &mut creature, STILL, (ax + 200) as usize)?;
        let wrote = matches!(act, Act::Wrote { value: 0x1a, .. });
        assert_eq!(rt;
            (wrote, act == Act::Erred, cell == 0x1a, creature.moved),
            (copies, !copies, copies, moved),
            "ax {ax}"
        );
        assert_eq!(rt; (creature.ip, creature.ax, creature.bx), (1, ax, -100));
    }
    Ok(())
}

#[test]
fn copies_nothing_without_a_daughter_block(rt: HostRuntime) -> Result<(), Fail> {
    let mut alone = Creature {
        ax: 50,
        ..newborn()
    };
    let act = run(&rt, rt.alloc(), &mut alone, &[0x1a], NONE, STILL, 1)?;
    assert_eq!(rt; act, Act::Erred);
    Ok(())
}

#[test]
fn counts_a_cell_copied_twice(rt: HostRuntime) -> Result<(), Fail> {
    let alloc = rt.alloc();
    let mut twice = Creature {
        ax: 50,
        daughter: Some(Block { at: 50, size: 10 }),
        ..newborn()
    };
    let _ = run(&rt, alloc, &mut twice, &[0x1a, 0x1a], NONE, STILL, 2)?;
    assert_eq!(rt; twice.moved, 2);
    Ok(())
}

#[test]
fn flips_a_bit_of_a_copy(rt: HostRuntime) -> Result<(), Fail> {
    let alloc = rt.alloc();
    // the rate, the number of the instruction and the copy of 0x1a; the bits that copies of this seed flip in quantum 1
    // begin 4, 1, 4, 4, 3, 0, and that of instruction 13 is 2; at rate 2 only instruction 4 is due
    let rows = [
        (1, 0, 0x0a),
        (1, 1, 0x18),
        (1, 4, 0x12),
        (1, 5, 0x1b),
        (1, 13, 0x1e),
        (2, 0, 0x1a),
        (2, 4, 0x12),
        (2, 13, 0x1a),
    ];
    for (rate, i, value) in rows {
        let mut creature = Creature {
            ax: 55,
            daughter: Some(Block { at: 50, size: 10 }),
            ..newborn()
        };
        let copied = copy_once(&rt, alloc, &mut creature, (0, rate, i), 55)?;
        assert_eq!(rt; copied, (Act::Wrote { at: 55, value }, value));
    }
    Ok(())
}

#[test]
fn asks_for_a_daughter_block(rt: HostRuntime) -> Result<(), Fail> {
    let alloc = rt.alloc();
    // the creature's size, cx, and the size asked for, if it is granted
    for (size, cx, want) in [
        (10, 12, Some(12)),
        (10, 11, None),
        (10, -12, None),
        (10, 25, Some(25)),
        (10, 26, None),
        (5, 15, Some(15)),
        (5, 16, None),
    ] {
        let start = Creature {
            own: Block { at: 0, size },
            cx,
            ..newborn()
        };
        let mut creature = start;
        let act = run(&rt, alloc, &mut creature, &[0x1e], NONE, STILL, 1)?;
        let (want, flag) = match want {
            Some(size) => (Act::Mal { size }, 0),
            None => (Act::Erred, 1),
        };
        assert_eq!(rt; act, want, "size {size}, cx {cx}");
        assert_eq!(rt;
            creature,
            Creature {
                ip: 1,
                ran: 1,
                flag,
                errors: u64::from(flag),
                ..start
            }
        );
    }
    Ok(())
}

#[test]
fn divides(rt: HostRuntime) -> Result<(), Fail> {
    let alloc = rt.alloc();
    let held = Some(Block { at: 50, size: 10 });
    // the daughter block, what was moved, and whether it succeeds
    for (daughter, moved, succeeds) in [(held, 6, false), (held, 7, true), (None, 7, false)] {
        let mut creature = Creature {
            daughter,
            moved,
            ..newborn()
        };
        let act = run(&rt, alloc, &mut creature, &[0x1f], NONE, STILL, 1)?;
        let want = if succeeds { Act::Divide } else { Act::Erred };
        assert_eq!(rt; act, want, "moved {moved}");
        assert_eq!(rt; creature.errors == 0, succeeds, "moved {moved}");
    }
    Ok(())
}

#[test]
fn ends_mal_and_divide(rt: HostRuntime) {
    let mother = Creature {
        daughter: Some(Block { at: 50, size: 10 }),
        moved: 7,
        ax: 5,
        ran: 100,
        bred: 2,
        ..newborn()
    };
    let got = Some(Block { at: 40, size: 12 });
    let mut creature = mother;
    mal_done(&mut creature, got);
    let want = Creature {
        daughter: got,
        moved: 0,
        ax: 40,
        ..mother
    };
    assert_eq!(rt; creature, want);
    let mut creature = mother;
    mal_done(&mut creature, None);
    let want = Creature {
        daughter: None,
        moved: 0,
        flag: 1,
        errors: 1,
        ..mother
    };
    assert_eq!(rt; creature, want);
    let mut creature = mother;
    divide_done(&mut creature);
    let want = Creature {
        daughter: None,
        moved: 0,
        ran: 0,
        bred: 3,
        ..mother
    };
    assert_eq!(rt; creature, want);
}
