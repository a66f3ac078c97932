//! The parts of a world, appended to bytes.

ghost use Rattle.std.specs.Prelude.{◌≡◌, ◌++◌, ◌<◌, ◌^◌, All, IfSome, OnOk, length};
ghost use Rattle.std.specs.List.{flat_map};
ghost use Rattle.tierra_model.specs.declared.limits.TheConstants.{COUNT_END};
ghost use Rattle.tierra_model.specs.Ranges.{IsCode};
ghost use Rattle.tierra_model.specs.Sound.{ParentsBelow};
ghost use Rattle.tierra_model.specs.World.{genotype_at};
ghost use Rattle.world_state.specs.Savings.{saving_of, savings_of};
ghost use Rattle.world_state.specs.StateBytes.{block_bytes, body_bytes, count_bytes, creature_bytes, daughter_bytes, genotype_bytes, parent_bytes, processor_bytes, register_bytes, registers_bytes, saving_bytes, stack_bytes};

use crate::saving::Saving;
use byte_fields::{
    push_effort, push_efforts, push_eight, push_eights, push_four, push_fours, push_sized,
};
use genotyper::Genotypes;
use tierra_model::{Block, Creature, OutOfMemory};

/// A creature.
#[tactic(auto, unfolding(crate::specs::StateBytes::creature_bytes))]
pub fn push_creature(out: &mut Vec<u8>, creature: &Creature) -> Result<(), OutOfMemory>
    ensures { OnOk result (out.new.items ≡ out.old.items ++ creature_bytes creature.now) }
{
    push_body(out, creature)?;
    push_processor(out, creature)?;
    push_creature_counts(out, creature)
}

#[tactic(auto, unfolding(crate::specs::StateBytes::body_bytes))]
fn push_body(out: &mut Vec<u8>, creature: &Creature) -> Result<(), OutOfMemory>
    ensures { OnOk result (out.new.items ≡ out.old.items ++ body_bytes creature.now) }
{
    push_eight(out, creature.id)?;
    push_block(out, creature.own)?;
    push_daughter(out, creature.daughter)?;
    push_eight(out, creature.moved)
}

#[tactic(auto, unfolding(crate::specs::StateBytes::processor_bytes))]
fn push_processor(out: &mut Vec<u8>, creature: &Creature) -> Result<(), OutOfMemory>
    ensures { OnOk result (out.new.items ≡ out.old.items ++ processor_bytes creature.now) }
{
    push_registers(out, creature)?;
    push_four(out, creature.ip)?;
    push_stack(out, creature)
}

#[tactic(auto, unfolding(crate::specs::StateBytes::registers_bytes))]
fn push_registers(out: &mut Vec<u8>, creature: &Creature) -> Result<(), OutOfMemory>
    ensures { OnOk result (out.new.items ≡ out.old.items ++ registers_bytes creature.now) }
{
    push_two_registers(out, creature.ax, creature.bx)?;
    push_two_registers(out, creature.cx, creature.dx)
}

#[tactic(auto, unfolding(crate::specs::StateBytes::stack_bytes))]
fn push_stack(out: &mut Vec<u8>, creature: &Creature) -> Result<(), OutOfMemory>
    ensures { OnOk result (out.new.items ≡ out.old.items ++ stack_bytes creature.now) }
{
    push_words(out, &creature.stack)?;
    push_four(out, creature.sp)?;
    out.push(creature.flag)?;
    Ok(())
}

#[tactic(auto, unfolding(crate::specs::StateBytes::count_bytes))]
fn push_creature_counts(out: &mut Vec<u8>, creature: &Creature) -> Result<(), OutOfMemory>
    ensures { OnOk result (out.new.items ≡ out.old.items ++ count_bytes creature.now) }
{
    push_eights(out, creature.errors, creature.genotype)?;
    push_eights(out, creature.ran, creature.bred)
}

fn push_words(out: &mut Vec<u8>, words: &[i32]) -> Result<(), OutOfMemory>
    ensures { OnOk result (out.new.items ≡ out.old.items ++ flat_map register_bytes words.now) }
{
    for word in words {
        push_register(out, *word)?;
    }
    Ok(())
}

#[tactic(auto, unfolding(crate::specs::StateBytes::block_bytes))]
fn push_block(out: &mut Vec<u8>, block: Block) -> Result<(), OutOfMemory>
    ensures { OnOk result (out.new.items ≡ out.old.items ++ block_bytes block) }
{
    push_four(out, block.at)?;
    push_four(out, block.size)
}

#[tactic(auto, unfolding(crate::specs::StateBytes::daughter_bytes))]
fn push_daughter(out: &mut Vec<u8>, daughter: Option<Block>) -> Result<(), OutOfMemory>
    ensures { OnOk result (out.new.items ≡ out.old.items ++ daughter_bytes daughter) }
{
    match daughter {
        Some(block) => push_fours(out, block.at, block.size),
        None => push_fours(out, 0, 0),
    }
}

// ---- genotypes and savings

/// Genotypes, one after another.
pub fn push_each_genotype(out: &mut Vec<u8>, genotypes: &Genotypes) -> Result<(), OutOfMemory>
    requires written { All (λ g. IsCode g.code) genotypes.now.genotypes }
    requires parents { ParentsBelow 0 genotypes.now.genotypes }
    requires few { length genotypes.now.genotypes < COUNT_END }
    ensures { OnOk result (out.new.items ≡ out.old.items ++ flat_map genotype_bytes genotypes.now.genotypes) }
{
    for number in 0..genotypes.len() {
        push_genotype(out, genotypes, number)?;
    }
    Ok(())
}

#[tactic(auto, unfolding(crate::specs::StateBytes::genotype_bytes))]
fn push_genotype(out: &mut Vec<u8>, genotypes: &Genotypes, number: u64) -> Result<(), OutOfMemory>
    requires known { number < length genotypes.now.genotypes }
    requires short { length (genotype_at genotypes.now.genotypes number).code < 2 ^ 32 }
    requires parent { IfSome (genotype_at genotypes.now.genotypes number).parent (λ p. p < COUNT_END) }
    ensures { OnOk result (out.new.items
        ≡ out.old.items ++ genotype_bytes (genotype_at genotypes.now.genotypes number)) }
{
    push_sized(out, &genotypes.code_of(number).items)?;
    push_parent(out, genotypes.parent_of(number))?;
    push_eight(out, genotypes.first_quantum(number))?;
    push_eight(out, genotypes.total(number))?;
    push_effort(out, genotypes.first_effort(number))?;
    push_effort(out, genotypes.second_effort(number))
}

#[tactic(auto, unfolding(crate::specs::StateBytes::parent_bytes))]
fn push_parent(out: &mut Vec<u8>, parent: Option<u64>) -> Result<(), OutOfMemory>
    requires { IfSome parent (λ p. p < COUNT_END) }
    ensures { OnOk result (out.new.items ≡ out.old.items ++ parent_bytes parent) }
{
    match parent {
        Some(parent) => push_eight(out, parent + 1),
        None => push_eight(out, 0),
    }
}

/// What was saved, one after another.
pub fn push_each_saving(out: &mut Vec<u8>, saved: &[Saving]) -> Result<(), OutOfMemory>
    ensures { OnOk result (out.new.items ≡ out.old.items ++ flat_map saving_bytes (savings_of saved.now)) }
{
    for saving in saved {
        push_saving(out, *saving)?;
    }
    Ok(())
}

#[tactic(auto, unfolding(crate::specs::StateBytes::saving_bytes))]
fn push_saving(out: &mut Vec<u8>, saving: Saving) -> Result<(), OutOfMemory>
    ensures { OnOk result (out.new.items ≡ out.old.items ++ saving_bytes (saving_of saving)) }
{
    push_eights(out, saving.genotype, saving.quantum)?;
    push_efforts(out, saving.first_effort, saving.second_effort)
}

// ---- registers

#[tactic(auto, unfolding(crate::specs::StateBytes::register_bytes))]
fn push_register(out: &mut Vec<u8>, value: i32) -> Result<(), OutOfMemory>
    ensures { OnOk result (out.new.items ≡ out.old.items ++ register_bytes value) }
{
    out.extend_from_slice(&value.to_be_bytes())
}

fn push_two_registers(out: &mut Vec<u8>, first: i32, second: i32) -> Result<(), OutOfMemory>
    ensures { OnOk result (out.new.items ≡ out.old.items ++ (register_bytes first ++ register_bytes second)) }
{
    push_register(out, first)?;
    push_register(out, second)
}
