//! The genotypes and their savings.

ghost use Rattle.std.specs.Prelude.{◌≡◌, ◌+◌, ◌<◌, ◌≤◌, [], All, OnOk, length};
ghost use Rattle.tierra_model.specs.declared.limits.TheConstants.{COUNT_END};
ghost use Rattle.tierra_model.specs.Individuals.{savings_after, with_effort_of, with_individual};
ghost use Rattle.tierra_model.specs.Ranges.{IsCode};
ghost use Rattle.world_state.specs.Savings.{savings_of};

use genotyper::Genotypes;
use std::alloc::Global;
use std::marker::Model;
use tierra_model::{Code, Effort, OutOfMemory};
use world_state::Saving;

/// The genotypes in the order of first birth, and the saved ones in the order of saving.
#[derive(Drop)]
pub(crate) struct Genes {
    genotypes: Genotypes,
    saved: Vec<Saving>,
}

impl Model for Genes {
    ghost use Rattle.std.specs.Prelude.{◌-◌, min, vec_capacity, vec_len};
    ghost use Rattle.world_core.specs.Savings.{GenesFields};
    ghost use Rattle.world_state.specs.Savings.{savings_of};

    ghost Value = { GenesFields };

    ghost view = { λ g. record {
      genotypes = g.genotypes.genotypes;
      saved = savings_of g.saved.items;
      spare = min g.genotypes.spare (vec_capacity g.saved - vec_len g.saved);
    } };
}

impl Genes {
    /// No genotypes and no savings yet. It takes no memory.
    pub(crate) fn new(alloc: Global) -> Genes
        ensures genotypes { result.genotypes ≡ [] }
        ensures saved { result.saved ≡ [] }
    {
        Genes {
            genotypes: Genotypes::new(alloc),
            saved: Vec::new(alloc),
        }
    }

    /// These genotypes and their savings.
    pub(crate) fn of(genotypes: Genotypes, saved: Vec<Saving>) -> Genes
        ensures genotypes { result.genotypes ≡ genotypes.genotypes }
        ensures saved { result.saved ≡ savings_of saved.items }
    {
        Genes { genotypes, saved }
    }

    /// Takes the memory that `more` births may need.
    pub(crate) fn reserve(&mut self, more: u32) -> Result<(), OutOfMemory>
        ensures genotypes { self.new.genotypes ≡ self.old.genotypes }
        ensures saved { self.new.saved ≡ self.old.saved }
        ensures ok { OnOk result (more ≤ self.new.spare) }
        ensures room { self.old.spare ≤ self.new.spare }
    {
        self.genotypes.reserve(more)?;
        self.saved.reserve(more as usize)
    }

    pub(crate) fn genotypes(&self) -> &Genotypes
        ensures { result.now.genotypes ≡ self.now.genotypes }
    {
        &self.genotypes
    }

    pub(crate) fn savings(&self) -> &[Saving]
        ensures { savings_of result.now ≡ self.now.saved }
    {
        &self.saved
    }

    /// How many genotypes were saved.
    pub(crate) fn kept(&self) -> u64
        ensures { result ≡ length self.now.saved }
    {
        self.saved.len() as u64
    }

    /// Notes what daughter number `bred` cost a mother of the genotype.
    pub(crate) fn note_effort(&mut self, genotype: u64, bred: u64, effort: Effort)
        requires { genotype < length self.old.genotypes }
        ensures genotypes { self.new.genotypes ≡ with_effort_of genotype bred effort self.old.genotypes }
        ensures saved { self.new.saved ≡ self.old.saved }
        ensures room { self.new.spare ≡ self.old.spare }
    {
        self.genotypes.note_effort(genotype, bred, effort);
    }

    /// Counts a creature, born or inoculated in quantum `q`, and saves its genotype when the count reaches `save_at`. It
    /// returns the number of the genotype.
    pub(crate) fn note_birth(
        &mut self,
        code: Code,
        parent: Option<u64>,
        q: u64,
        save_at: u64,
    ) -> u64
        requires room { 0 < self.old.spare }
        requires code { IsCode code }
        requires counts { All (λ g. g.total < COUNT_END) self.old.genotypes }
        ensures genotypes { self.new.genotypes ≡ (with_individual self.old.genotypes code parent q).0 }
        ensures number { result ≡ (with_individual self.old.genotypes code parent q).1 }
        ensures saved { self.new.saved
            ≡ savings_after save_at (with_individual self.old.genotypes code parent q).0 result q self.old.saved }
        ensures room { self.old.spare ≤ self.new.spare + 1 }
    {
        let genotype = self.genotypes.note_birth(code, parent, q);
        if self.genotypes.total(genotype) == save_at {
            self.saved.push_reserved(Saving {
                genotype,
                quantum: q,
                first_effort: self.genotypes.first_effort(genotype),
                second_effort: self.genotypes.second_effort(genotype),
            });
        }
        genotype
    }
}
