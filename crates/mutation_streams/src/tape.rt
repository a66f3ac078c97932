//! Whoever gives the draws of a quantum.

ghost use Rattle.std.specs.Prelude.{◌≡◌};
ghost use Rattle.mutation_streams.specs.Draws.{draws_of};

use crate::Draws;
use tierra_model::Settings;

/// Whoever gives the draws of a quantum.
pub trait Tape {
    fn draws(&mut self, settings: &Settings, q: u64) -> Draws
        ensures { result ≡ draws_of settings.now q };
}

/// Draws that are computed when they are asked for.
#[derive(Clone, Copy, Debug, Drop)]
pub struct NoTape;

impl Tape for NoTape {
    #[inline]
    fn draws(&mut self, settings: &Settings, q: u64) -> Draws {
        Draws::new(settings, q)
    }
}
