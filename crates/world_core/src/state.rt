//! Everything of a world but its settings, as bytes.

ghost use Rattle.std.specs.Prelude.{◌≡◌, ◌++◌, IfOk, OnOk, length, map};
ghost use Rattle.std.specs.List.{flat_map};
ghost use Rattle.tierra_model.specs.Living.{one_of};
ghost use Rattle.tierra_model.specs.Sound.{IsSound};
ghost use Rattle.byte_fields.specs.Writing.{eight};
ghost use Rattle.world_state.specs.Restoring.{AreBytesOf};
ghost use Rattle.world_state.specs.StateBytes.{counts_bytes, creature_bytes, genotypes_bytes, living_bytes, reaper_bytes, savings_bytes, soup_bytes, state_bytes};

use crate::fitting::world_fits;
use crate::running::Running;
use crate::world::World;
use byte_fields::{push_eight, push_eights, push_four};
use std::alloc::Global;
use tierra_model::{Code, OutOfMemory};
use world_state::{push_creature, push_each_genotype, push_each_saving};

impl World {
    /// Everything of the world but its settings, as bytes.
    pub fn state_bytes(&self, alloc: Global) -> Result<Code, OutOfMemory>
        ensures bytes { IfOk result (λ code. code ≡ state_bytes self.now.world) }
        ensures world { IfOk result (λ code. AreBytesOf self.now.world.settings code self.now.world) }
    {
        let mut items = Vec::new(alloc);
        push_state(&mut items, &self.running)?;
        world_fits(&self.running);
        Ok(Code { items })
    }
}

#[tactic(auto, unfolding(world_state::specs::StateBytes::state_bytes))]
fn push_state(out: &mut Vec<u8>, running: &Running) -> Result<(), OutOfMemory>
    requires { IsSound running.now.world }
    ensures { OnOk result (out.new.items ≡ out.old.items ++ state_bytes running.now.world) }
{
    push_soup(out, running)?;
    push_counts(out, running)?;
    push_living(out, running)?;
    push_reaper(out, running)?;
    push_genotypes(out, running)?;
    push_savings(out, running)
}

// ---- the soup and the counts

#[tactic(auto, unfolding(world_state::specs::StateBytes::soup_bytes))]
fn push_soup(out: &mut Vec<u8>, running: &Running) -> Result<(), OutOfMemory>
    requires { length running.now.world.soup ≡ running.now.world.settings.soup_size }
    ensures { OnOk result (out.new.items ≡ out.old.items ++ soup_bytes running.now.world) }
{
    let size = running.settings().soup_size;
    push_four(out, size)?;
    push_cells(out, running, size)
}

fn push_cells(out: &mut Vec<u8>, running: &Running, size: u32) -> Result<(), OutOfMemory>
    requires { length running.now.world.soup ≡ size }
    ensures { OnOk result (out.new.items ≡ out.old.items ++ running.now.world.soup) }
{
    for at in 0..size {
        out.push(running.cell(at))?;
    }
    Ok(())
}

#[tactic(auto, unfolding(world_state::specs::StateBytes::counts_bytes))]
fn push_counts(out: &mut Vec<u8>, running: &Running) -> Result<(), OutOfMemory>
    ensures { OnOk result (out.new.items ≡ out.old.items ++ counts_bytes running.now.world) }
{
    push_two_pairs(
        out,
        running.quanta(),
        running.births(),
        running.deaths(),
        running.next_birth(),
    )
}

fn push_two_pairs(out: &mut Vec<u8>, a: u64, b: u64, c: u64, d: u64) -> Result<(), OutOfMemory>
    ensures { OnOk result (out.new.items ≡ out.old.items ++ ((eight a ++ eight b) ++ (eight c ++ eight d))) }
{
    push_eights(out, a, b)?;
    push_eights(out, c, d)
}

// ---- the living

#[tactic(auto, unfolding(world_state::specs::StateBytes::living_bytes))]
fn push_living(out: &mut Vec<u8>, running: &Running) -> Result<(), OutOfMemory>
    requires { IsSound running.now.world }
    ensures { OnOk result (out.new.items ≡ out.old.items ++ living_bytes running.now.world) }
{
    let count = running.reaper_len();
    push_four(out, count)?;
    push_creatures(out, running, count)
}

fn push_creatures(out: &mut Vec<u8>, running: &Running, count: u32) -> Result<(), OutOfMemory>
    requires sound { IsSound running.now.world }
    requires count { length running.now.world.slicer ≡ count }
    ensures { OnOk result (out.new.items
        ≡ out.old.items ++ flat_map creature_bytes (map (one_of running.now.world.living) running.now.world.slicer)) }
{
    for k in 0..count {
        match running.place(k) {
            Some(creature) => push_creature(out, creature)?,
            None => unreachable!(),
        }
    }
    Ok(())
}

#[tactic(auto, unfolding(world_state::specs::StateBytes::reaper_bytes))]
fn push_reaper(out: &mut Vec<u8>, running: &Running) -> Result<(), OutOfMemory>
    requires { IsSound running.now.world }
    ensures { OnOk result (out.new.items ≡ out.old.items ++ reaper_bytes running.now.world) }
{
    for place in 0..running.reaper_len() {
        push_eight(out, running.reaper_at(place))?;
    }
    Ok(())
}

// ---- the genotypes and the savings

#[tactic(auto, unfolding(world_state::specs::StateBytes::genotypes_bytes))]
fn push_genotypes(out: &mut Vec<u8>, running: &Running) -> Result<(), OutOfMemory>
    requires { IsSound running.now.world }
    ensures { OnOk result (out.new.items ≡ out.old.items ++ genotypes_bytes running.now.world) }
{
    let genotypes = running.genotypes();
    push_eight(out, genotypes.len())?;
    push_each_genotype(out, genotypes)
}

#[tactic(auto, unfolding(world_state::specs::StateBytes::savings_bytes))]
fn push_savings(out: &mut Vec<u8>, running: &Running) -> Result<(), OutOfMemory>
    ensures { OnOk result (out.new.items ≡ out.old.items ++ savings_bytes running.now.world) }
{
    push_eight(out, running.kept())?;
    push_each_saving(out, running.genes().savings())
}
