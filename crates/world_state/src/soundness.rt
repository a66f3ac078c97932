//! Whether the world read from bytes is sound.

ghost use Rattle.std.specs.Prelude.{◌≡◌, ◌≤◌, ◌<◌, ◌↔◌, All, IfOk, IsTrue, length};
ghost use Rattle.tierra_model.specs.Living.{ids_of};
ghost use Rattle.tierra_model.specs.Ranges.{IsCode};
ghost use Rattle.tierra_model.specs.Sound.{IsSound, Ordered, count_limit, numbers_of};
ghost use Rattle.world_state.specs.Checks.{are_found, are_living, are_saved};
ghost use Rattle.world_state.specs.Reading.{genotypes_of};
ghost use Rattle.world_state.specs.Savings.{savings_of};
ghost use Rattle.world_state.specs.Soundness.{AreCodedOnce, AreDue, AreSame, HasCounts, HasParts, HasSizes, IsMatched};

use crate::checks::{
    are_apart, are_code_numbers, are_genotypes, are_numbered, are_placed, are_rising, are_same,
    are_savings, have_counts, have_genotypes, have_parents, have_places, have_sizes,
    numbers_reaching,
};
use crate::draft::{Draft, numbers_of};
use crate::entering::genotypes_from;
use crate::fields::StoredGenotype;
use crate::saving::Saving;
use std::alloc::Global;
use tierra_model::{Creature, MOST_QUANTA, MOST_SLICE, OutOfMemory};

impl Draft {
    /// Whether the world is sound.
    pub fn is_sound(&self, alloc: Global) -> Result<bool, OutOfMemory>
        ensures { IfOk result (λ sound. IsTrue sound ↔ IsSound self.now) }
    {
        if !self.has_counts() {
            return Ok(false);
        }
        if !self.has_parts() {
            return Ok(false);
        }
        let matched = self.is_matched(alloc)?;
        if !matched {
            return Ok(false);
        }
        Ok(self.has_sizes())
    }

    // Whether the counts are not too great, and fit together.
    fn has_counts(&self) -> bool
        ensures { IsTrue result ↔ HasCounts self.now }
    {
        self.quanta <= MOST_QUANTA
            && self.next_birth <= limit_of(self.quanta)
            && !self.living.is_empty()
            && self.births < self.next_birth
            && (self.stored.len() as u64) < self.next_birth
            && self.deaths < self.next_birth
            && self.living.len() as u64 + self.deaths + 1 == self.next_birth
    }

    // Whether each list is as it should be by itself.
    fn has_parts(&self) -> bool
        requires { HasCounts self.now }
        ensures { IsTrue result ↔ HasParts self.now }
    {
        let size = self.settings.soup_size;
        let count = self.stored.len() as u64;
        let limit = limit_of(self.quanta);
        if !are_cells(size, &self.cells) {
            return false;
        }
        if !are_living(size, count, self.next_birth, limit, &self.living) {
            return false;
        }
        if !are_found(limit, &self.stored) {
            return false;
        }
        are_saved(self.quanta, &self.saved)
    }

    // Whether the lists fit each other.
    fn is_matched(&self, alloc: Global) -> Result<bool, OutOfMemory>
        requires { HasParts self.now }
        ensures { IfOk result (λ matched. IsTrue matched ↔ IsMatched self.now) }
    {
        let queue = is_queue_of(alloc, &self.reaper, &self.living)?;
        if !queue {
            return Ok(false);
        }
        let apart = are_apart(alloc, self.settings.soup_size, &self.living)?;
        if !apart {
            return Ok(false);
        }
        let once = are_coded_once(alloc, &self.stored)?;
        if !once {
            return Ok(false);
        }
        let due = are_due(alloc, self.settings.save_at, &self.stored, &self.saved)?;
        Ok(due)
    }

    // Whether the savings of no quantum are too large.
    fn has_sizes(&self) -> bool
        requires parts { HasParts self.now }
        requires matched { IsMatched self.now }
        ensures { IsTrue result ↔ HasSizes self.now }
    {
        have_sizes(&self.stored, &self.saved)
    }
}

// The limit of the counts after this many quanta.
fn limit_of(quanta: u64) -> u64
    requires { quanta ≤ MOST_QUANTA }
    ensures { result ≡ count_limit quanta }
{
    (1 << 40) + u64::from(MOST_SLICE) * quanta
}

fn are_cells(size: u32, cells: &[u8]) -> bool
    ensures { IsTrue result ↔ ((length cells.now ≡ size) × All (λ v. v < 32) cells.now) }
{
    if cells.len() != size as usize {
        return false;
    }
    are_code_numbers(cells)
}

fn are_living(size: u32, count: u64, next_birth: u64, limit: u64, living: &[Creature]) -> bool
    ensures { result ≡ are_living size count next_birth limit living.now }
{
    are_numbered(next_birth, living)
        && are_placed(size, living)
        && have_places(size, living)
        && have_genotypes(count, living)
        && have_counts(limit, living)
}

fn are_found(limit: u64, stored: &[StoredGenotype]) -> bool
    ensures { result ≡ are_found limit stored.now }
{
    are_genotypes(limit, stored) && have_parents(stored)
}

fn are_saved(quanta: u64, saved: &[Saving]) -> bool
    ensures { result ≡ are_saved quanta saved.now }
{
    are_savings(quanta, saved) && are_rising(saved)
}

// Whether the numbers are those of the living.
fn is_queue_of(alloc: Global, numbers: &[u64], living: &[Creature]) -> Result<bool, OutOfMemory>
    requires { Ordered 1 (ids_of living.now) }
    ensures { IfOk result (λ same. IsTrue same ↔ AreSame numbers.now (ids_of living.now)) }
{
    let ids = numbers_of(alloc, living)?;
    are_same(alloc, numbers, &ids)
}

// Whether no two genotypes have the same code.
fn are_coded_once(alloc: Global, stored: &[StoredGenotype]) -> Result<bool, OutOfMemory>
    requires { All (λ f. IsCode f.code) stored.now }
    ensures { IfOk result (λ once. IsTrue once ↔ AreCodedOnce (genotypes_of stored.now)) }
{
    match genotypes_from(alloc, stored)? {
        Some(_) => Ok(true),
        None => Ok(false),
    }
}

// Whether the genotypes that ever had `save_at` creatures or more are saved once each, and no others.
fn are_due(
    alloc: Global,
    save_at: u32,
    stored: &[StoredGenotype],
    saved: &[Saving],
) -> Result<bool, OutOfMemory>
    requires { 1 ≤ save_at }
    ensures { IfOk result (λ due. IsTrue due ↔ AreDue save_at (genotypes_of stored.now) (savings_of saved.now)) }
{
    let least = u64::from(save_at);
    let reaching = numbers_reaching(alloc, stored, least)?;
    let numbers = numbers_saved(alloc, saved)?;
    let due = are_same(alloc, &numbers, &reaching)?;
    Ok(due)
}

// The numbers of the genotypes that were saved.
fn numbers_saved(alloc: Global, saved: &[Saving]) -> Result<Vec<u64>, OutOfMemory>
    ensures { IfOk result (λ numbers. numbers.items ≡ numbers_of (savings_of saved.now)) }
{
    let mut numbers = Vec::with_capacity(alloc, saved.len())?;
    for saving in saved {
        numbers.push(saving.genotype)?;
    }
    Ok(numbers)
}
