//! Readers and writers that tell their bytes always or never, as each of the system's and of those in memory does.

ghost use Rattle.std.specs.Prelude.{◌≡◌, is_some, refl};

use std::io::{Print, Printer, Read, Stderr, StdinLock, Write};

/// A reader that always tells the bytes still to come, or never.
pub trait SteadyRead: Read {
    ghost steady: { (a b : Self) → is_some (Self.remaining a) ≡ is_some (Self.remaining b) };
}

/// A writer that always tells the bytes that it has taken, or never.
pub trait SteadyWrite: Write {
    ghost steady: { (a b : Self) → is_some (Self.contents a) ≡ is_some (Self.contents b) };
}

impl SteadyRead for StdinLock<'static> {
    ghost steady = { λ a b. refl };
}

impl SteadyRead for &[u8] {
    ghost steady = { λ a b. refl };
}

impl<I: SteadyRead> SteadyRead for &mut I {
    ghost steady = { λ a b. I.steady a.now b.now };
}

impl<P: Print> SteadyWrite for Printer<'_, P> {
    ghost steady = { λ a b. refl };
}

impl SteadyWrite for Stderr {
    ghost steady = { λ a b. refl };
}

impl SteadyWrite for Vec<u8> {
    ghost steady = { λ a b. refl };
}

impl<W: SteadyWrite> SteadyWrite for &mut W {
    ghost steady = { λ a b. W.steady a.now b.now };
}
