//! What a world keeps of a saved genotype.

use tierra_model::Effort;

/// A saved genotype: its number, the quantum in which it was saved, and the efforts that it had then.
#[derive(Clone, Copy, Drop, Debug)]
pub struct Saving {
    pub genotype: u64,
    pub quantum: u64,
    pub first_effort: Option<Effort>,
    pub second_effort: Option<Effort>,
}
