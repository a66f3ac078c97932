//! One instruction of one creature, on its record and in a view of the soup.
#![tactic(auto)]

mod arithmetic;
mod birth;
mod copying;
mod draws;
mod jumps;
mod stack;

ghost use Rattle.std.specs.Prelude.{◌≡◌, ◌<◌, ◌+◌};
ghost use Rattle.tierra_model.specs.declared.limits.TheConstants.{COUNT_END};
ghost use Rattle.tierra_model.specs.Draw.{word};
ghost use Rattle.tierra_model.specs.Step.{execute, step};
ghost use Rattle.tierra_model.specs.Table.{op_of};
ghost use Rattle.cpu_core.specs.Draws.{copy_bit_of, flaw_of, with_rates_of};
ghost use Rattle.cpu_core.specs.Executing.{Executes, IsAfterStep, CanExecute, start_record};

use crate::arithmetic::{
    dec_c, inc_a, inc_b, inc_c, mov_ab, mov_cd, or1, shl, sub_ab, sub_ac, zero,
};
use crate::birth::{divide, mal};
pub use crate::birth::{divide_done, mal_done};
use crate::copying::mov_iab;
use crate::draws::flaw;
use crate::jumps::{call, find_address, if_cz, jump, next_cell, ret};
use crate::stack::Register;
use mutation_streams::Draws;
use soup_ops::op_of;
use std::sync::ledger::Ledger;
use step_count::Steps;
use template_search::Way;
pub use tierra_model::Act;
use tierra_model::{Creature, Op, Settings, View};

/// Executes the instruction at the creature's `ip`, as instruction `i` of the quantum that has these draws.
///
/// A write or an error is done here. At `Mal` and `Divide` the caller does the rest, and then calls `mal_done` or
/// `divide_done`.
#[inline(always)]
pub fn step<V: View, L: Ledger>(
    creature: &mut Creature,
    view: &mut V,
    draws: &mut Draws,
    i: u32,
    settings: &Settings,
    steps: &mut Steps<L>,
) -> Act
    requires ready { CanExecute V.size V.cells V.writable settings.now creature.old view.old }
    requires moved { creature.old.moved < COUNT_END }
    requires errors { creature.old.errors < COUNT_END }
    requires ran { creature.old.ran < COUNT_END }
    ensures executes { Executes V.cells V.looked V.written (step (with_rates_of draws.old settings.now)
        (word draws.old.seed draws.old.quantum) i creature.old) view.old view.new creature.new result }
    ensures draws { draws.new ≡ draws.old }
    ensures ready { CanExecute V.size V.cells V.writable settings.now creature.new view.new }
    ensures after { IsAfterStep creature.old creature.new }
    ensures ticks { steps.new ≡ steps.old + 1 }
{
    steps.tick();
    let ip = creature.ip;
    let op = decode(view.get(ip));
    begin(creature, settings);
    execute(creature, view, op, ip, draws, i, settings)
}

// Goes on to the next cell, and counts the instruction.
fn begin(creature: &mut Creature, settings: &Settings)
    requires ip { creature.old.ip < settings.now.soup_size }
    requires ran { creature.old.ran < COUNT_END }
    ensures { creature.new ≡ start_record settings.now creature.old }
{
    creature.ip = next_cell(creature.ip, settings);
    creature.flag = 0;
    creature.ran += 1;
}

// The instruction that a cell holds.
fn decode(code: u8) -> Op
    requires { code < 32 }
    ensures { result ≡ op_of code }
{
    op_of(code).unwrap()
}

// Executes the instruction at `ip`; the record's `ip` is at the next cell already.
#[inline(always)]
fn execute<V: View>(
    creature: &mut Creature,
    view: &mut V,
    op: Op,
    ip: u32,
    draws: &mut Draws,
    i: u32,
    settings: &Settings,
) -> Act
    requires ready { CanExecute V.size V.cells V.writable settings.now creature.old view.old }
    requires ip { ip < settings.now.soup_size }
    requires errors { creature.old.errors < COUNT_END }
    requires moved { creature.old.moved < COUNT_END }
    ensures executes { Executes V.cells V.looked V.written (execute settings.now (flaw_of draws.old i)
        (copy_bit_of draws.old i) ip creature.old op) view.old view.new creature.new result }
    ensures draws { draws.new ≡ draws.old }
{
    match op {
        Op::Nop0 | Op::Nop1 => Act::Plain,
        Op::Or1 => or1(creature, flaw(draws, i)),
        Op::Shl => shl(creature, flaw(draws, i)),
        Op::Zero => zero(creature, flaw(draws, i)),
        Op::IfCz => if_cz(creature, settings),
        Op::SubAb => sub_ab(creature, flaw(draws, i)),
        Op::SubAc => sub_ac(creature, flaw(draws, i)),
        Op::IncA => inc_a(creature, flaw(draws, i)),
        Op::IncB => inc_b(creature, flaw(draws, i)),
        Op::DecC => dec_c(creature, flaw(draws, i)),
        Op::IncC => inc_c(creature, flaw(draws, i)),
        Op::PushAx => Register::Ax.push(creature),
        Op::PushBx => Register::Bx.push(creature),
        Op::PushCx => Register::Cx.push(creature),
        Op::PushDx => Register::Dx.push(creature),
        Op::PopAx => Register::Ax.pop(creature),
        Op::PopBx => Register::Bx.pop(creature),
        Op::PopCx => Register::Cx.pop(creature),
        Op::PopDx => Register::Dx.pop(creature),
        Op::Jmp => jump(creature, view, ip, Way::Outward, settings),
        Op::JmpB => jump(creature, view, ip, Way::Backward, settings),
        Op::Call => call(creature, view, ip, settings),
        Op::Ret => ret(creature, settings),
        Op::MovCd => mov_cd(creature, flaw(draws, i)),
        Op::MovAb => mov_ab(creature, flaw(draws, i)),
        Op::MovIab => mov_iab(creature, view, draws, i, settings),
        Op::Adr => find_address(creature, view, ip, Way::Outward, draws, i, settings),
        Op::AdrB => find_address(creature, view, ip, Way::Backward, draws, i, settings),
        Op::AdrF => find_address(creature, view, ip, Way::Forward, draws, i, settings),
        Op::Mal => mal(creature, settings),
        Op::Divide => divide(creature, settings),
    }
}
