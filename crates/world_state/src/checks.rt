//! Whether the parts of a world are sound.

ghost use Rattle.std.specs.Prelude.{◌≡◌, ◌≤◌, ◌<◌, ◌^◌, ◌↔◌, ℕ, All, ◌++◌, IfOk, IsTrue, OnOk, length, nat_lt};
ghost use Rattle.std.specs.List.{list_all};
ghost use Rattle.std.specs.List.Sorted.{IsNonDecreasingBy, IsPermutation};
ghost use Rattle.tierra_model.specs.Counting.{one_if, times_in};
ghost use Rattle.tierra_model.specs.declared.creatures.Block.{Block};
ghost use Rattle.tierra_model.specs.Ranges.{IsBlock};
ghost use Rattle.tierra_model.specs.Sound.{IsPlaced, Ordered, owners};
ghost use Rattle.world_state.specs.Soundness.{AreSame};
ghost use Rattle.world_state.specs.Checks.{apart_step, blocks_in, blocks_of, counted, has_counts, has_places, is_block_in, is_code, is_code_number, is_daughter_in, is_effort, is_genotype, is_parent, is_placed, is_saving, number_step, parent_step, passes, reaches, rising_step, saving_size, size_step};

use crate::fields::StoredGenotype;
use crate::saving::Saving;
use std::alloc::Global;
use tierra_model::{Block, Code, Creature, Effort, MOST_SIZE, OutOfMemory};

/// The savings of a quantum have less than this size.
const MOST: u64 = 1 << 30;

// ---- cells and codes

/// Whether each cell is the number of an instruction.
pub fn are_code_numbers(cells: &[u8]) -> bool
    ensures { result ≡ list_all is_code_number cells.now }
{
    cells.iter().all(|cell| *cell < 32)
}

fn is_code(code: &Code) -> bool
    ensures { result ≡ is_code code.now }
{
    let cells = code.items.as_slice();
    !cells.is_empty() && cells.len() <= MOST_SIZE as usize && are_code_numbers(cells)
}

// ---- creatures

fn is_block_in(size: u32, block: Block) -> bool
    ensures { result ≡ is_block_in size block }
{
    let end = u64::from(block.at) + u64::from(block.size);
    block.size >= 1 && block.size <= MOST_SIZE && end <= u64::from(size)
}

fn is_daughter_in(size: u32, daughter: Option<Block>) -> bool
    ensures { result ≡ is_daughter_in size daughter }
{
    match daughter {
        Some(block) => is_block_in(size, block),
        None => true,
    }
}

fn is_placed(size: u32, creature: &Creature) -> bool
    ensures { result ≡ is_placed size creature.now }
{
    is_block_in(size, creature.own) && is_daughter_in(size, creature.daughter)
}

fn has_places(size: u32, creature: &Creature) -> bool
    ensures { result ≡ has_places size creature.now }
{
    creature.ip < size && creature.sp < 10
}

fn has_counts(limit: u64, creature: &Creature) -> bool
    ensures { result ≡ has_counts limit creature.now }
{
    creature.errors <= limit
        && creature.moved <= limit
        && creature.ran <= limit
        && creature.bred <= limit
}

/// Whether the blocks of each creature lie in a soup of this size.
pub fn are_placed(size: u32, living: &[Creature]) -> bool
    ensures { result ≡ list_all (is_placed size) living.now }
{
    living.iter().all(|creature| is_placed(size, creature))
}

/// Whether each creature's instruction pointer is in a soup of this size, and its stack pointer on the stack.
pub fn have_places(size: u32, living: &[Creature]) -> bool
    ensures { result ≡ list_all (has_places size) living.now }
{
    living.iter().all(|creature| has_places(size, creature))
}

/// Whether no count of a creature is above the limit.
pub fn have_counts(limit: u64, living: &[Creature]) -> bool
    ensures { result ≡ list_all (has_counts limit) living.now }
{
    living.iter().all(|creature| has_counts(limit, creature))
}

/// Whether each creature's genotype is one of `count`.
pub fn have_genotypes(count: u64, living: &[Creature]) -> bool
    ensures { result ≡ list_all (λ c. nat_lt c.genotype count) living.now }
{
    living.iter().all(|creature| creature.genotype < count)
}

/// Whether the birth numbers rise, start at 1 or more, and are below the next birth number.
pub fn are_numbered(next_birth: u64, living: &[Creature]) -> bool
    ensures { result ≡ passes (number_step next_birth) 1 living.now }
{
    let mut low = 1;
    for creature in living {
        if creature.id < low || creature.id >= next_birth {
            return false;
        }
        low = creature.id + 1;
    }
    true
}

// ---- genotypes and savings

fn is_effort(effort: Option<Effort>) -> bool
    ensures { result ≡ is_effort effort }
{
    match effort {
        Some(effort) => effort.ran >= 1,
        None => true,
    }
}

fn is_genotype(limit: u64, found: &StoredGenotype) -> bool
    ensures { result ≡ is_genotype limit found.now }
{
    is_code(&found.code)
        && found.total <= limit
        && is_effort(found.first_effort)
        && is_effort(found.second_effort)
}

/// Whether each genotype has a code and counts that a world with this limit allows.
pub fn are_genotypes(limit: u64, stored: &[StoredGenotype]) -> bool
    ensures { result ≡ list_all (is_genotype limit) stored.now }
{
    stored.iter().all(|found| is_genotype(limit, found))
}

fn is_parent(number: u64, parent: Option<u64>) -> bool
    ensures { result ≡ is_parent number parent }
{
    match parent {
        Some(parent) => parent < number,
        None => true,
    }
}

/// Whether each parent is before its genotype.
pub fn have_parents(stored: &[StoredGenotype]) -> bool
    ensures { result ≡ passes parent_step 0 stored.now }
{
    let mut number = 0;
    for found in stored {
        if !is_parent(number, found.parent) {
            return false;
        }
        number += 1;
    }
    true
}

fn is_saving(quanta: u64, saving: Saving) -> bool
    ensures { result ≡ is_saving quanta saving }
{
    saving.quantum <= quanta && is_effort(saving.first_effort) && is_effort(saving.second_effort)
}

/// Whether each saving is of a quantum that has passed, and each of its efforts ran at least one instruction.
pub fn are_savings(quanta: u64, saved: &[Saving]) -> bool
    ensures { result ≡ list_all (is_saving quanta) saved.now }
{
    saved.iter().all(|saving| is_saving(quanta, *saving))
}

/// Whether the quanta of the savings never fall.
pub fn are_rising(saved: &[Saving]) -> bool
    ensures { result ≡ passes rising_step 0 saved.now }
{
    let mut quantum = 0;
    for saving in saved {
        if saving.quantum < quantum {
            return false;
        }
        quantum = saving.quantum;
    }
    true
}

/// Whether the savings of each quantum stay below 2^30 in total, each counted as the length of its code plus 100.
pub fn have_sizes(stored: &[StoredGenotype], saved: &[Saving]) -> bool
    requires few { All (λ f. length f.code ≤ MOST_SIZE) stored.now }
    requires known { All (λ s. s.genotype < length stored.now) saved.now }
    ensures { result ≡ passes (size_step stored.now) (0, 0) saved.now }
{
    let mut quantum = 0;
    let mut sum = 0;
    for saving in saved {
        sum = counted(stored, quantum, sum, *saving);
        if sum >= MOST {
            return false;
        }
        quantum = saving.quantum;
    }
    true
}

// The size of the saving's quantum up to and with it, where the saving before is of `quantum`, with `sum` so far.
fn counted(stored: &[StoredGenotype], quantum: u64, sum: u64, saving: Saving) -> u64
    requires few { All (λ f. length f.code ≤ MOST_SIZE) stored.now }
    requires known { saving.genotype < length stored.now }
    requires small { sum < 2 ^ 30 }
    ensures { result ≡ counted stored.now (quantum, sum) saving }
{
    let before = if saving.quantum == quantum { sum } else { 0 };
    before + saving_size(stored, saving)
}

fn saving_size(stored: &[StoredGenotype], saving: Saving) -> u64
    requires few { All (λ f. length f.code ≤ MOST_SIZE) stored.now }
    requires known { saving.genotype < length stored.now }
    ensures size { result ≡ saving_size stored.now saving }
    ensures small { result ≤ 20100 }
{
    let found = &stored[saving.genotype as usize];
    found.code.items.len() as u64 + 100
}

// ---- numbers that are the same

/// Whether the numbers are those of a sorted list, each as often.
pub fn are_same(alloc: Global, numbers: &[u64], ordered: &[u64]) -> Result<bool, OutOfMemory>
    requires { Ordered 0 ordered.now }
    ensures { IfOk result (λ same. IsTrue same ↔ AreSame numbers.now ordered.now) }
{
    let sorted = sorted_numbers(alloc, numbers)?;
    Ok(are_equal(&sorted, ordered))
}

fn sorted_numbers(alloc: Global, numbers: &[u64]) -> Result<Vec<u64>, OutOfMemory>
    ensures same { IfOk result (λ sorted. IsPermutation numbers.now sorted.items) }
    ensures order { IfOk result (λ sorted. IsNonDecreasingBy (λ n. n) sorted.items) }
{
    let mut sorted = numbers.to_vec(alloc)?;
    sorted.sort()?;
    Ok(sorted)
}

fn are_equal(left: &[u64], right: &[u64]) -> bool
    ensures { IsTrue result ↔ (left.now ≡ right.now) }
{
    left == right
}

/// The numbers of the genotypes that ever had this many creatures or more, in order.
pub fn numbers_reaching(
    alloc: Global,
    stored: &[StoredGenotype],
    total: u64,
) -> Result<Vec<u64>, OutOfMemory>
    requires { 1 ≤ total }
    ensures order { IfOk result (λ numbers. Ordered 0 numbers.items) }
    ensures each { IfOk result (λ numbers. (k : ℕ) → times_in numbers.items k ≡ one_if (reaches total stored.now k)) }
{
    let mut numbers = Vec::new(alloc);
    for number in 0..stored.len() as u64 {
        if stored[number as usize].total >= total {
            numbers.push(number)?;
        }
    }
    Ok(numbers)
}

// ---- blocks

/// Whether no two blocks share a cell.
pub fn are_apart(alloc: Global, size: u32, living: &[Creature]) -> Result<bool, OutOfMemory>
    requires { All (IsPlaced size) living.now }
    ensures { IfOk result (λ apart. IsTrue apart ↔ ((p : ℕ) → owners living.now p ≤ 1)) }
{
    let blocks = sorted_blocks(blocks_in(alloc, living)?)?;
    Ok(follow(size, &blocks))
}

/// The blocks of the creatures, in their order.
pub fn blocks_in(alloc: Global, living: &[Creature]) -> Result<Vec<Block>, OutOfMemory>
    ensures { IfOk result (λ blocks. blocks.items ≡ blocks_in living.now) }
{
    let mut blocks = Vec::new(alloc);
    for creature in living {
        push_blocks(&mut blocks, creature)?;
    }
    Ok(blocks)
}

fn push_blocks(blocks: &mut Vec<Block>, creature: &Creature) -> Result<(), OutOfMemory>
    ensures { OnOk result (blocks.new.items ≡ blocks.old.items ++ blocks_of creature.now) }
{
    blocks.push(creature.own)?;
    if let Some(daughter) = creature.daughter {
        blocks.push(daughter)?;
    }
    Ok(())
}

fn sorted_blocks(blocks: Vec<Block>) -> Result<Vec<Block>, OutOfMemory>
    ensures same { IfOk result (λ sorted. IsPermutation blocks.items sorted.items) }
    ensures order { IfOk result (λ sorted. IsNonDecreasingBy (λ (b : Block). b.at) sorted.items) }
{
    let mut sorted = blocks;
    sorted.sort_by_key(|block| block.at)?;
    Ok(sorted)
}

// Whether no block begins before those before it have ended.
fn follow(size: u32, blocks: &[Block]) -> bool
    requires { All (IsBlock size) blocks.now }
    ensures { result ≡ passes apart_step 0 blocks.now }
{
    let mut end = 0;
    for block in blocks {
        if block.at < end {
            return false;
        }
        end = block.at + block.size;
    }
    true
}
