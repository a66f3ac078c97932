//! The bytes of a world, reading them back, and whether what they spell is a sound world.
#![tactic(auto)]

mod checks;
mod copying;
mod draft;
mod entering;
mod fields;
mod saving;
mod soundness;
mod writing;

pub use byte_fields::Stop;
pub use checks::blocks_in;
pub use copying::copied;
pub use draft::{Draft, draft_of};
pub use entering::genotypes_from;
pub use fields::StoredGenotype;
pub use saving::Saving;
pub use writing::{push_creature, push_each_genotype, push_each_saving};
