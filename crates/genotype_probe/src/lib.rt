//! What the daughters of saved genotypes cost, each genotype alone in a fresh soup.
#![tactic(auto)]

mod dealing;
mod text;

ghost use Rattle.std.specs.Prelude.{◌≡◌, ◌++◌, ◌<◌, ◌≤◌, All, IfOk, OnOk};
ghost use Rattle.tierra_model.specs.declared.limits.TheConstants.{MOST_QUANTA, MOST_WORKERS};
ghost use Rattle.tierra_model.specs.Ranges.{IsCode};
ghost use Rattle.tierra_model.specs.World.{genotype_at};
ghost use Rattle.genotype_probe.specs.Probes.{HasCode, efforts_of, probe, probe_all, saved_of};

use crate::dealing::probe_dealt;
use serial_slicer::run_serial;
use std::alloc::Global;
use std::marker::Model;
use std::thread::Threads;
pub use text::probe_text;
use tierra_model::{Code, Effort, Group, Groups, OutOfMemory, Saved, grow_setup};
use world_core::World;

/// What the earliest first and second daughter of a mother with a genotype cost her, if there were any.
#[derive(Clone, Copy, Debug, Drop, PartialEq, Eq)]
pub struct Efforts {
    pub first: Option<Effort>,
    pub second: Option<Effort>,
}

/// Efforts, in order.
#[derive(Debug, Drop)]
pub struct EffortList {
    pub items: Vec<Efforts>,
}

impl Model for EffortList {
    ghost use Rattle.std.specs.Prelude.{List};
    ghost use Rattle.genotype_probe.specs.declared.Efforts.{Efforts};

    ghost Value = { List Efforts };

    ghost view = { λ e. e.items.items };
}

#[tactic(auto, unfolding(crate::specs::Probes::probe))]
/// Runs the code alone in a fresh soup with the default settings for `n` quanta.
pub fn probe(alloc: Global, code: &Code, n: u64) -> Result<Efforts, OutOfMemory>
    requires code { IsCode code.now }
    requires quanta { (1 ≤ n) × (n ≤ MOST_QUANTA) }
    ensures { IfOk result (λ e. e ≡ probe code.now n) }
{
    let items = code.items.clone()?;
    let setup = grow_setup(alloc, Code { items })?;
    let world = run_serial(alloc, &setup, n)?;
    Ok(efforts_of(&world))
}

// The efforts of the first genotype.
fn efforts_of(world: &World) -> Efforts
    ensures { result ≡ efforts_of (genotype_at world.now.world.genotypes 0) }
{
    if world.genotypes().len() == 0 {
        return Efforts {
            first: None,
            second: None,
        };
    }
    Efforts {
        first: world.first(0),
        second: world.second(0),
    }
}

/// Probes the saved genotypes of the groups, dealt into as many parts as there are workers, each part on a thread.
pub fn probe_all<R: Threads + Sync>(
    rt: &R,
    alloc: Global,
    groups: &Groups,
    n: u64,
    workers: u32,
) -> Result<EffortList, OutOfMemory>
    requires quanta { (1 ≤ n) × (n ≤ MOST_QUANTA) }
    requires workers { (1 ≤ workers) × (workers ≤ MOST_WORKERS) }
    ensures { IfOk result (λ e. e ≡ probe_all groups.now n) }
{
    let saved = saved_of(alloc, groups)?;
    let items = probe_dealt(rt, alloc, &saved, n, workers)?;
    Ok(EffortList { items })
}

/// The saved genotypes of all groups, in order.
pub(crate) fn saved_of(alloc: Global, groups: &Groups) -> Result<Vec<Saved>, OutOfMemory>
    ensures saved { IfOk result (λ v. v.items ≡ saved_of groups.now) }
    ensures codes { IfOk result (λ v. All HasCode v.items) }
{
    let mut all = Vec::new(alloc);
    for group in groups.items.iter() {
        add_group(&mut all, group)?;
    }
    Ok(all)
}

fn add_group(all: &mut Vec<Saved>, group: &Group) -> Result<(), OutOfMemory>
    requires codes { All HasCode all.old.items }
    ensures saved { OnOk result (all.new.items ≡ all.old.items ++ group.now.saved) }
    ensures codes { OnOk result (All HasCode all.new.items) }
{
    for saved in group.saved.items.iter() {
        all.push(copy_of(saved)?)?;
    }
    Ok(())
}

fn copy_of(saved: &Saved) -> Result<Saved, OutOfMemory>
    ensures { IfOk result (λ s. s ≡ saved.now) }
{
    let items = saved.code.items.clone()?;
    Ok(Saved {
        name: saved.name,
        parent: saved.parent,
        first: saved.first,
        second: saved.second,
        code: Code { items },
    })
}
