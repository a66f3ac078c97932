//! The seeds of isles.

ghost use Rattle.std.specs.Prelude.{◌≡◌};
ghost use Rattle.soup_isles.specs.Isles.{isle_seed, with_seed};

use sha2::{Digest, Sha256};
use tierra_model::Settings;

/// The seed of an isle in an epoch, under the seed of the file.
#[tactic(auto, unfolding(crate::specs::Isles::isle_seed))]
pub(crate) fn isle_seed(seed: &[u8; 32], epoch: u64, isle: u64) -> [u8; 32]
    ensures { result ≡ isle_seed seed.now epoch isle }
{
    let mut hasher = Sha256::new();
    hasher.update(seed);
    hasher.update(&epoch.to_be_bytes());
    hasher.update(&isle.to_be_bytes());
    hasher.finalize()
}

/// The same settings, with another seed.
pub(crate) fn with_seed(settings: &Settings, seed: [u8; 32]) -> Settings
    ensures { result ≡ with_seed seed settings.now }
{
    let mut settings = *settings;
    settings.seed = seed;
    settings
}
