//! Runs of a few instructions.

ghost use Rattle.std.specs.Prelude.{◌≡◌, ◌<◌, ◌+◌};
ghost use Rattle.cpu_core.specs.Executing.{CanExecute};

use crate::soup::Flat;
use cpu_core::{Act, step};
use mutation_streams::Draws;
use std::alloc::{AllocError, Global};
use std::marker::Brand;
use std::process::Abort;
use std::sync::ledger::{Blank, Ledger};
use step_count::Steps;
use tierra_model::{Block, Creature, Settings, View, defaults};

/// No other code: the soup holds nop_0 there already.
pub const NONE: (usize, u8) = (50, 0);

/// No draws.
pub const STILL: (u32, u32, u32) = (0, 0, 0);

/// Its registers, ax to dx.
pub fn registers(creature: &Creature) -> (i32, i32, i32, i32) {
    (creature.ax, creature.bx, creature.cx, creature.dx)
}

/// A newborn creature of ten cells.
pub fn newborn() -> Creature
    ensures { result.errors ≡ 0 }
{
    Creature {
        id: 1,
        own: Block { at: 0, size: 10 },
        daughter: None,
        moved: 0,
        ax: 0,
        bx: 0,
        cx: 0,
        dx: 0,
        ip: 0,
        stack: [0; 10],
        sp: 0,
        flag: 0,
        errors: 0,
        genotype: 0,
        ran: 0,
        bred: 0,
    }
}

fn settings(flaw_rate: u32, copy_rate: u32) -> Settings
    ensures { result.soup_size ≡ 100 }
{
    let mut settings = defaults();
    settings.soup_size = 100;
    settings.search_limit = 50;
    settings.max_cell = 25;
    settings.copy_rate = copy_rate;
    settings.flaw_rate = flaw_rate;
    settings
}

/// Lays the codes from the creature's `ip` on and one code at another place, and executes this many instructions. The
/// draws are the rates of flaws and of flips in copies, and the number of the first instruction. Gives the last act.
pub fn run(
    rt: &impl Abort,
    alloc: Global,
    creature: &mut Creature,
    codes: &[u8],
    other: (usize, u8),
    draws: (u32, u32, u32),
    count: u32,
) -> Result<Act, AllocError> {
    let (act, _) = run_in_soup(rt, alloc, creature, codes, other, draws, count)?;
    Ok(act)
}

/// Executes one mov_iab. Gives the act, and what the cell at `at` holds afterwards.
pub fn copy_once(
    rt: &impl Abort,
    alloc: Global,
    creature: &mut Creature,
    draws: (u32, u32, u32),
    at: usize,
) -> Result<(Act, u8), AllocError> {
    let (act, soup) = run_in_soup(rt, alloc, creature, &[0x1a], NONE, draws, 1)?;
    Ok((act, soup.cell(at)))
}

/// That, with the soup.
fn run_in_soup(
    rt: &impl Abort,
    alloc: Global,
    creature: &mut Creature,
    codes: &[u8],
    other: (usize, u8),
    draws: (u32, u32, u32),
    count: u32,
) -> Result<(Act, Flat), AllocError> {
    let (flaw_rate, copy_rate, first) = draws;
    let settings = settings(flaw_rate, copy_rate);
    let mut soup = Flat::new(alloc, creature)?;
    soup.lay(creature.ip as usize, codes);
    soup.lay(other.0, &[other.1]);
    assert!(rt; soup.is_code() && settings.soup_size == 100);
    assert!(rt; creature.ip < 100 && creature.sp < 10);
    assert!(rt; creature.moved < 1000 && creature.errors < 1000 && creature.ran < 1000);
    assert!(rt; first < 1000 && count < 1000);
    let act = run_over::<Flat, Brand>(creature, &mut soup, &settings, first, count, Blank::new(1));
    Ok((act, soup))
}

fn run_over<V: View, L: Ledger>(
    creature: &mut Creature,
    soup: &mut V,
    settings: &Settings,
    first: u32,
    count: u32,
    blank: Blank,
) -> Act
    requires name { blank.name ≡ L.name }
    requires parts { blank.parts ≡ L.parts }
    requires some { 0 < L.parts }
    requires ready { CanExecute V.size V.cells V.writable settings.now creature.old soup.old }
    requires moved { creature.old.moved < 1000 }
    requires errors { creature.old.errors < 1000 }
    requires ran { creature.old.ran < 1000 }
    requires few { first + count < 2000 }
{
    let mut steps = Steps::<L>::start(blank);
    let mut draws = Draws::new(settings, 1);
    let mut act = Act::Plain;
    for i in first..first + count {
        act = step(creature, soup, &mut draws, i, settings, &mut steps);
    }
    act
}
