//! Copying a cell.

ghost use Rattle.std.specs.Prelude.{◌≡◌, ◌<◌, ◌+◌, ◌^◌, IfSome};
ghost use Rattle.tierra_model.specs.declared.limits.TheConstants.{COUNT_END};
ghost use Rattle.tierra_model.specs.Blocks.{is_in_daughter};
ghost use Rattle.tierra_model.specs.Ring.{address};
ghost use Rattle.tierra_model.specs.Step.{copy, flip_bit};
ghost use Rattle.cpu_core.specs.Draws.{copy_bit_of};
ghost use Rattle.cpu_core.specs.Executing.{Executes, CanExecute};

use crate::birth::fail;
use crate::draws::copy_bit;
use mutation_streams::Draws;
use ring_math::addr;
use tierra_model::{Act, Creature, Settings, View};

fn is_in_daughter(creature: &Creature, at: u32) -> bool
    ensures { result ≡ is_in_daughter creature.now.daughter at }
{
    match creature.daughter {
        Some(block) => block.contains(at),
        None => false,
    }
}

// The value with the bit flipped, if there is one.
fn flip_bit(value: u8, bit: Option<u8>) -> u8
    requires value { value < 32 }
    requires bit { IfSome bit (λ b. b < 5) }
    ensures flip { result ≡ flip_bit value bit }
    ensures below { result < 32 }
{
    match bit {
        Some(bit) => value ^ (1 << bit),
        None => value,
    }
}

/// Copies the cell at bx to the cell at ax, which must be in the creature's block or its daughter block.
pub fn mov_iab<V: View>(
    creature: &mut Creature,
    view: &mut V,
    draws: &mut Draws,
    i: u32,
    settings: &Settings,
) -> Act
    requires ready { CanExecute V.size V.cells V.writable settings.now creature.old view.old }
    requires moved { creature.old.moved < COUNT_END }
    requires errors { creature.old.errors < COUNT_END }
    ensures executes { Executes V.cells V.looked V.written (copy creature.old
        (address creature.old.bx settings.now.soup_size) (address creature.old.ax settings.now.soup_size)
        (copy_bit_of draws.old i)) view.old view.new creature.new result }
    ensures draws { draws.new ≡ draws.old }
{
    let to = addr(creature.ax, settings.soup_size);
    let to_daughter = is_in_daughter(creature, to);
    if !to_daughter && !creature.own.contains(to) {
        return fail(creature);
    }
    let from = addr(creature.bx, settings.soup_size);
    let value = flip_bit(view.get(from), copy_bit(draws, i));
    view.set(to, value);
    if to_daughter {
        creature.moved += 1;
    }
    Act::Wrote { at: to, value }
}
