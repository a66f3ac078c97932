//! Instructions that compute with registers. The flaw of an instruction is 1 or -1, or 0 if it has none. It is
//! added to what the instruction writes, except for or1 and shl.

ghost use Rattle.std.specs.Prelude.{◌≡◌, ◌+ℤ◌, ◌^◌, pos, unsigned_abs};
ghost use Rattle.tierra_model.specs.Ring.{minus, plus, times, xor};
ghost use Rattle.cpu_core.specs.Draws.{IsFlaw};

use ring_math::{add_wrap, shl_wrap, sub_wrap};
use tierra_model::{Act, Creature};

/// Flips the lowest bit of cx; flawed, the next higher one or none.
pub fn or1(creature: &mut Creature, flaw: i32) -> Act
    requires { IsFlaw flaw }
    ensures creature { creature.new ≡ record creature.old { cx = xor creature.old.cx (pos 1 +ℤ flaw) } }
    ensures act { result ≡ Act.Plain }
{
    creature.cx ^= 1 + flaw;
    Act::Plain
}

/// Shifts cx by one bit; flawed, by two or none.
pub fn shl(creature: &mut Creature, flaw: i32) -> Act
    requires { IsFlaw flaw }
    ensures creature { creature.new
        ≡ record creature.old { cx = times creature.old.cx (pos (2 ^ unsigned_abs (pos 1 +ℤ flaw))) } }
    ensures act { result ≡ Act.Plain }
{
    creature.cx = match flaw {
        0 => shl_wrap(creature.cx),
        1 => shl_wrap(shl_wrap(creature.cx)),
        _ => creature.cx,
    };
    Act::Plain
}

/// Clears cx.
pub fn zero(creature: &mut Creature, flaw: i32) -> Act
    ensures creature { creature.new ≡ record creature.old { cx = plus (pos 0) flaw } }
    ensures act { result ≡ Act.Plain }
{
    creature.cx = add_wrap(0, flaw);
    Act::Plain
}

/// Puts the difference of ax and bx into cx.
pub fn sub_ab(creature: &mut Creature, flaw: i32) -> Act
    ensures creature { creature.new ≡ record creature.old { cx = plus (minus creature.old.ax creature.old.bx) flaw } }
    ensures act { result ≡ Act.Plain }
{
    creature.cx = add_wrap(sub_wrap(creature.ax, creature.bx), flaw);
    Act::Plain
}

/// Takes cx from ax.
pub fn sub_ac(creature: &mut Creature, flaw: i32) -> Act
    ensures creature { creature.new ≡ record creature.old { ax = plus (minus creature.old.ax creature.old.cx) flaw } }
    ensures act { result ≡ Act.Plain }
{
    creature.ax = add_wrap(sub_wrap(creature.ax, creature.cx), flaw);
    Act::Plain
}

/// Adds one to ax.
pub fn inc_a(creature: &mut Creature, flaw: i32) -> Act
    ensures creature { creature.new ≡ record creature.old { ax = plus (plus creature.old.ax (pos 1)) flaw } }
    ensures act { result ≡ Act.Plain }
{
    creature.ax = add_wrap(add_wrap(creature.ax, 1), flaw);
    Act::Plain
}

/// Adds one to bx.
pub fn inc_b(creature: &mut Creature, flaw: i32) -> Act
    ensures creature { creature.new ≡ record creature.old { bx = plus (plus creature.old.bx (pos 1)) flaw } }
    ensures act { result ≡ Act.Plain }
{
    creature.bx = add_wrap(add_wrap(creature.bx, 1), flaw);
    Act::Plain
}

/// Takes one from cx.
pub fn dec_c(creature: &mut Creature, flaw: i32) -> Act
    ensures creature { creature.new ≡ record creature.old { cx = plus (minus creature.old.cx (pos 1)) flaw } }
    ensures act { result ≡ Act.Plain }
{
    creature.cx = add_wrap(sub_wrap(creature.cx, 1), flaw);
    Act::Plain
}

/// Adds one to cx.
pub fn inc_c(creature: &mut Creature, flaw: i32) -> Act
    ensures creature { creature.new ≡ record creature.old { cx = plus (plus creature.old.cx (pos 1)) flaw } }
    ensures act { result ≡ Act.Plain }
{
    creature.cx = add_wrap(add_wrap(creature.cx, 1), flaw);
    Act::Plain
}

/// Copies cx into dx.
pub fn mov_cd(creature: &mut Creature, flaw: i32) -> Act
    ensures creature { creature.new ≡ record creature.old { dx = plus creature.old.cx flaw } }
    ensures act { result ≡ Act.Plain }
{
    creature.dx = add_wrap(creature.cx, flaw);
    Act::Plain
}

/// Copies ax into bx.
pub fn mov_ab(creature: &mut Creature, flaw: i32) -> Act
    ensures creature { creature.new ≡ record creature.old { bx = plus creature.old.ax flaw } }
    ensures act { result ≡ Act.Plain }
{
    creature.bx = add_wrap(creature.ax, flaw);
    Act::Plain
}
