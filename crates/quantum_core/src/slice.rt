//! A slice of instructions, and what comes before it.

ghost use Rattle.std.specs.Prelude.{◌≡◌, ◌+◌, ◌*◌, ◌≤◌, ℕ, IsSome, OnErr, OnOk};
ghost use Rattle.tierra_model.specs.declared.events.Act.TheVariants as act;
ghost use Rattle.tierra_model.specs.Draw.{back_flip, word};
ghost use Rattle.tierra_model.specs.Quantum.{Machine, disturb, flip, instruction, is_disturbed, perform, reap_times, run};
ghost use Rattle.mutation_streams.specs.Draws.{draws_of};

use crate::ground::Ground;
use crate::mal::mal;
use mutation_streams::{Draws, Tape};
use std::sync::ledger::Ledger;
use step_count::Steps;
use tierra_model::{Act, OutOfMemory, Settings};

/// The background flip, the disturbance, and the instructions of quantum `quantum`, with draws off the tape.
pub fn run_slice<G: Ground, T: Tape, L: Ledger>(
    ground: &mut G,
    tape: &mut T,
    settings: &Settings,
    quantum: u64,
    slice: u32,
    steps: &mut Steps<L>,
) -> Result<(), OutOfMemory>
    requires ready { G.Ready ground.old (4 * slice + 1) }
    requires settings { settings.now ≡ (G.frame ground.old).settings }
    requires quantum { quantum ≡ (G.frame ground.old).quantum }
    ensures state { OnOk result (G.state ground.new ≡ run G.machine settings.now quantum slice (G.state ground.old)) }
    ensures frame { OnOk result (G.frame ground.new ≡ G.frame ground.old) }
    ensures ready { OnOk result (G.Ready ground.new 0) }
    ensures ticks { OnOk result (steps.new ≡ steps.old + slice) }
    ensures err { OnErr result G.Refusal }
{
    let mut draws = tape.draws(settings, quantum);
    flip(ground, &mut draws);
    disturb(ground, settings, quantum)?;
    for i in 0..slice {
        instruction(ground, &mut draws, i, settings, steps)?;
    }
    Ok(())
}

// The background flip, where one is due.
fn flip<G: Ground>(ground: &mut G, draws: &mut Draws)
    requires ready { G.Ready ground.old 1 }
    requires draws { draws.old ≡ draws_of (G.frame ground.old).settings (G.frame ground.old).quantum }
    ensures state { let settings = (G.frame ground.old).settings in
        let draw = word settings.seed (G.frame ground.old).quantum in
        let due = back_flip settings.back_rate draw settings.soup_size in
        G.state ground.new ≡ flip G.machine settings due (G.state ground.old) }
    ensures draws { draws.new ≡ draws.old }
    ensures frame { G.frame ground.new ≡ G.frame ground.old }
    ensures ready { (n : ℕ) → G.Ready ground.old (n + 1) → G.Ready ground.new n }
{
    if let Some((at, bit)) = draws.back() {
        ground.flip(at, bit);
    }
}

// If the disturbance is due, `dist_percent` percent of the living die, but never the creature that runs.
fn disturb<G: Ground>(ground: &mut G, settings: &Settings, quantum: u64) -> Result<(), OutOfMemory>
    requires ready { G.Ready ground.old 0 }
    requires settings { settings.now ≡ (G.frame ground.old).settings }
    ensures state { let due = is_disturbed settings.now.dist_every quantum in
        OnOk result (G.state ground.new ≡ disturb G.machine settings.now due (G.state ground.old)) }
    ensures frame { OnOk result (G.frame ground.new ≡ G.frame ground.old) }
    ensures ready { OnOk result ((n : ℕ) → G.Ready ground.old n → G.Ready ground.new n) }
    ensures err { OnErr result G.Refusal }
{
    if is_disturbed(settings.dist_every, quantum) {
        ground.ask_reaper();
        let dying = u64::from(ground.reaper_len()) * u64::from(settings.dist_percent) / 100;
        return reap_times(ground, dying);
    }
    Ok(())
}

// Whether the disturbance is due in the quantum.
fn is_disturbed(every: u32, quantum: u64) -> bool
    ensures { result ≡ is_disturbed every quantum }
{
    every > 0 && quantum % u64::from(every) == 0
}

// The first creature of the reaper queue other than the one that runs dies, up to `times` times, while there is one.
fn reap_times<G: Ground>(ground: &mut G, times: u64) -> Result<(), OutOfMemory>
    requires { G.Ready ground.old 0 }
    ensures state { OnOk result (G.state ground.new
        ≡ reap_times G.machine (G.frame ground.old).settings times (G.state ground.old)) }
    ensures frame { OnOk result (G.frame ground.new ≡ G.frame ground.old) }
    ensures ready { OnOk result ((n : ℕ) → G.Ready ground.old n → G.Ready ground.new n) }
    ensures err { OnErr result G.Refusal }
{
    for _dead in 0..times {
        match ground.victim() {
            Some(place) => ground.reap(place)?,
            None => return Ok(()),
        }
    }
    Ok(())
}

// One instruction.
#[inline(always)]
fn instruction<G: Ground, L: Ledger>(
    ground: &mut G,
    draws: &mut Draws,
    i: u32,
    settings: &Settings,
    steps: &mut Steps<L>,
) -> Result<(), OutOfMemory>
    requires ready { G.Ready ground.old 4 }
    requires settings { settings.now ≡ (G.frame ground.old).settings }
    requires draws { draws.old ≡ draws_of settings.now (G.frame ground.old).quantum }
    ensures state { let draw = word settings.now.seed (G.frame ground.old).quantum in
        OnOk result (G.state ground.new ≡ instruction G.machine settings.now draw i (G.state ground.old)) }
    ensures draws { draws.new ≡ draws.old }
    ensures frame { OnOk result (G.frame ground.new ≡ G.frame ground.old) }
    ensures ready { OnOk result ((n : ℕ) → G.Ready ground.old (n + 4) → G.Ready ground.new n) }
    ensures ticks { OnOk result (steps.new ≡ steps.old + 1) }
    ensures err { OnErr result G.Refusal }
{
    match ground.step(draws, i, settings, steps) {
        Act::Plain | Act::Wrote { .. } | Act::Erred => Ok(()),
        Act::Mal { size } => mal(ground, size),
        Act::Divide => divide(ground),
    }
}

// The mother makes her good move, and her daughter is born.
fn divide<G: Ground>(ground: &mut G) -> Result<(), OutOfMemory>
    requires ready { G.Ready ground.old 3 }
    requires held { IsSome (Machine.front G.machine (G.state ground.old)).daughter }
    requires ran { 1 ≤ (Machine.front G.machine (G.state ground.old)).ran }
    ensures state { OnOk result (G.state ground.new
        ≡ perform G.machine (G.frame ground.old).settings act.Divide (G.state ground.old)) }
    ensures frame { OnOk result (G.frame ground.new ≡ G.frame ground.old) }
    ensures ready { OnOk result ((n : ℕ) → G.Ready ground.old (n + 3) → G.Ready ground.new n) }
    ensures err { OnErr result G.Refusal }
{
    ground.good();
    ground.bear()
}
