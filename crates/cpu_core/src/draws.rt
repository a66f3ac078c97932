//! What an instruction draws.

ghost use Rattle.std.specs.Prelude.{◌≡◌, ◌<◌, IfSome};
ghost use Rattle.cpu_core.specs.Draws.{IsFlaw, flaw_of, copy_bit_of};

use mutation_streams::Draws;

/// The flaw of instruction `i`.
#[inline(always)]
#[tactic(auto, unfolding(crate::specs::Draws::flaw_of))]
pub fn flaw(draws: &mut Draws, i: u32) -> i32
    ensures value { result ≡ flaw_of draws.old i }
    ensures range { IsFlaw result }
    ensures draws { draws.new ≡ draws.old }
{
    draws.flaw(i)
}

/// The bit that the copy of instruction `i` flips, if any.
#[inline(always)]
#[tactic(auto, unfolding(crate::specs::Draws::copy_bit_of))]
pub fn copy_bit(draws: &mut Draws, i: u32) -> Option<u8>
    ensures value { result ≡ copy_bit_of draws.old i }
    ensures range { IfSome result (λ bit. bit < 5) }
    ensures draws { draws.new ≡ draws.old }
{
    draws.copy_bit(i)
}
