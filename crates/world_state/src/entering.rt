//! Enters genotypes again as they were read.

ghost use Rattle.std.specs.Prelude.{◌≡◌, ◌<◌, ◌++◌, ◌∷◌, [], All, IfNone, IfOk, IfSome, None, length};
ghost use Rattle.tierra_model.specs.Individuals.{genotype_number};
ghost use Rattle.tierra_model.specs.Ranges.{IsCode};
ghost use Rattle.world_state.specs.Checks.{noted};
ghost use Rattle.world_state.specs.Reading.{genotype_of, genotypes_of};
ghost use Rattle.world_state.specs.Soundness.{AreCodedOnce};

use crate::copying::copied;
use crate::fields::StoredGenotype;
use genotyper::Genotypes;
use std::alloc::Global;
use tierra_model::{Code, Effort, OutOfMemory};

/// The genotypes that were read, no two of which have the same code.
pub fn genotypes_from(
    alloc: Global,
    stored: &[StoredGenotype],
) -> Result<Option<Genotypes>, OutOfMemory>
    requires { All (λ f. IsCode f.code) stored.now }
    ensures some { IfOk result (λ o. IfSome o (λ g. g.genotypes ≡ genotypes_of stored.now)) }
    ensures once { IfOk result (λ o. IfSome o (λ g. AreCodedOnce (genotypes_of stored.now))) }
    ensures none { IfOk result (λ o. IfNone o (AreCodedOnce (genotypes_of stored.now) → ⊥)) }
{
    let mut genotypes = Genotypes::new(alloc);
    for found in stored {
        let code = copied(alloc, &found.code)?;
        if let Some(_) = genotypes.number_of(&code) {
            return Ok(None);
        }
        genotypes.reserve(1)?;
        enter(&mut genotypes, code, found);
    }
    Ok(Some(genotypes))
}

// Appends a genotype with the counts and efforts that were read.
fn enter(genotypes: &mut Genotypes, code: Code, found: &StoredGenotype)
    requires room { 0 < genotypes.old.spare }
    requires code { code ≡ found.now.code }
    requires written { IsCode code }
    requires new { genotype_number code genotypes.old.genotypes ≡ None }
    ensures { genotypes.new.genotypes ≡ genotypes.old.genotypes ++ genotype_of found.now ∷ [] }
{
    let number = genotypes.enter_with(code, found.parent, found.first_quantum, found.total);
    note(genotypes, number, 1, found.first_effort);
    note(genotypes, number, 2, found.second_effort);
}

fn note(genotypes: &mut Genotypes, number: u64, bred: u64, effort: Option<Effort>)
    requires { number < length genotypes.old.genotypes }
    ensures { genotypes.new.genotypes ≡ noted number bred effort genotypes.old.genotypes }
{
    if let Some(effort) = effort {
        genotypes.note_effort(number, bred, effort);
    }
}
