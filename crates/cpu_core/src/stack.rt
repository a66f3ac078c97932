//! The stack of ten words. Its pointer goes round the ten.

ghost use Rattle.std.specs.Prelude.{◌≡◌, ◌<◌};
ghost use Rattle.tierra_model.specs.Step.{pop, push, top_of};

use tierra_model::{Act, Creature};

/// A register that can be pushed and popped.
#[derive(Clone, Copy, Drop)]
pub enum Register {
    Ax,
    Bx,
    Cx,
    Dx,
}

impl Register {
    ghost use Rattle.cpu_core.specs.Registers.{value_in, with_value_in};

    /// Pushes the register.
    pub fn push(self, creature: &mut Creature) -> Act
        requires { creature.old.sp < 10 }
        ensures creature { creature.new ≡ push creature.old (value_in self creature.old) }
        ensures act { result ≡ Act.Plain }
    {
        let value = match self {
            Register::Ax => creature.ax,
            Register::Bx => creature.bx,
            Register::Cx => creature.cx,
            Register::Dx => creature.dx,
        };
        push_value(creature, value);
        Act::Plain
    }

    /// Pops into the register.
    pub fn pop(self, creature: &mut Creature) -> Act
        requires { creature.old.sp < 10 }
        ensures creature { creature.new ≡ pop (with_value_in self (top_of creature.old) creature.old) }
        ensures act { result ≡ Act.Plain }
    {
        let value = pop_value(creature);
        match self {
            Register::Ax => creature.ax = value,
            Register::Bx => creature.bx = value,
            Register::Cx => creature.cx = value,
            Register::Dx => creature.dx = value,
        }
        Act::Plain
    }
}

/// Moves the pointer up, and stores the value there.
pub fn push_value(creature: &mut Creature, value: i32)
    requires { creature.old.sp < 10 }
    ensures { creature.new ≡ push creature.old value }
{
    creature.sp = (creature.sp + 1) % 10;
    creature.stack[creature.sp as usize] = value;
}

/// Reads the value at the pointer, and moves the pointer down.
pub fn pop_value(creature: &mut Creature) -> i32
    requires { creature.old.sp < 10 }
    ensures creature { creature.new ≡ pop creature.old }
    ensures value { result ≡ top_of creature.old }
{
    let value = creature.stack[creature.sp as usize];
    creature.sp = (creature.sp + 9) % 10;
    value
}
