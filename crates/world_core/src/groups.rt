//! The groups of the genebank, read off the savings of a world.

ghost use Rattle.std.specs.Prelude.{◌≡◌, ◌++◌, ◌∷◌, ◌<◌, ◌≤◌, All, IfOk, List, OnOk, drop, length, option_map};
ghost use Rattle.tierra_model.specs.Genebank.{groups_from, name_of, saved_of};
ghost use Rattle.tierra_model.specs.Groups.{GroupFields, IsGroup};
ghost use Rattle.tierra_model.specs.Sound.{ParentsBelow};
ghost use Rattle.tierra_model.specs.World.{genotype_at};
ghost use Rattle.world_core.specs.Groups.{group_of, grouped};
ghost use Rattle.world_core.specs.Savings.{AreOf, BeginsAnew, quantum_of};
ghost use Rattle.world_state.specs.Savings.{saving_of, savings_of};

use crate::genes::Genes;
use crate::running::Running;
use crate::world::World;
use genotyper::Genotypes;
use std::alloc::Global;
use tierra_model::{Form, Group, Groups, Name, OutOfMemory, Saved, SavedList};
use world_state::{Saving, copied};

impl World {
    /// The groups of the genebank from place `k` on, as this world has them.
    pub fn groups_from(&self, alloc: Global, k: u64) -> Result<Groups, OutOfMemory>
        ensures { IfOk result (λ g. g ≡ groups_from self.now.world k) }
    {
        self.running.groups_from(alloc, k)
    }
}

impl Running {
    pub(crate) fn groups_from(&self, alloc: Global, k: u64) -> Result<Groups, OutOfMemory>
        requires known { All (λ s. s.genotype < length self.now.world.genotypes) self.now.world.saved }
        requires parents { ParentsBelow 0 self.now.world.genotypes }
        requires ranges { All IsGroup (grouped self.now.world.genotypes self.now.world.saved) }
        ensures { IfOk result (λ g. g ≡ drop k (grouped self.now.world.genotypes self.now.world.saved)) }
    {
        self.genes().groups_from(alloc, k)
    }
}

impl Genes {
    pub(crate) fn groups_from(&self, alloc: Global, k: u64) -> Result<Groups, OutOfMemory>
        requires known { All (λ s. s.genotype < length self.now.genotypes) self.now.saved }
        requires parents { ParentsBelow 0 self.now.genotypes }
        requires ranges { All IsGroup (grouped self.now.genotypes self.now.saved) }
        ensures { IfOk result (λ g. g ≡ drop k (grouped self.now.genotypes self.now.saved)) }
    {
        all_groups(alloc, self.genotypes(), self.savings(), k)
    }
}

fn all_groups(
    alloc: Global,
    genotypes: &Genotypes,
    saved: &[Saving],
    k: u64,
) -> Result<Groups, OutOfMemory>
    requires known { All (λ s. s.genotype < length genotypes.now.genotypes) (savings_of saved.now) }
    requires parents { ParentsBelow 0 genotypes.now.genotypes }
    requires ranges { All IsGroup (grouped genotypes.now.genotypes (savings_of saved.now)) }
    ensures { IfOk result (λ g. g ≡ drop k (grouped genotypes.now.genotypes (savings_of saved.now))) }
{
    let mut items = Vec::new(alloc);
    let mut skip = k;
    let mut at = 0;
    while at < saved.len() {
        let end = run_end(saved, at);
        take_group(alloc, genotypes, &saved[at..end], &mut skip, &mut items)?;
        at = end;
    }
    Ok(Groups { items })
}

// The end of the run of savings that starts at the place and has one quantum.
fn run_end(saved: &[Saving], at: usize) -> usize
    requires { at < length saved.now }
    ensures within { at < result }
    ensures end { result ≤ length saved.now }
    ensures same { AreOf saved.now at result }
    ensures other { BeginsAnew saved.now at result }
{
    let quantum = saved[at].quantum;
    let mut end = at + 1;
    while end < saved.len() && saved[end].quantum == quantum {
        end += 1;
    }
    end
}

// Appends the group of the savings, unless it is still to be skipped.
fn take_group(
    alloc: Global,
    genotypes: &Genotypes,
    savings: &[Saving],
    skip: &mut u64,
    groups: &mut Vec<Group>,
) -> Result<(), OutOfMemory>
    requires some { 0 < length savings.now }
    requires known { All (λ s. s.genotype < length genotypes.now.genotypes) (savings_of savings.now) }
    requires parents { ParentsBelow 0 genotypes.now.genotypes }
    requires range { IsGroup (group_of genotypes.now.genotypes (quantum_of savings.now) (savings_of savings.now)) }
    ensures { OnOk result ((rest : List GroupFields)
        → groups.new.items ++ drop skip.new rest
        ≡ groups.old.items ++ drop skip.old
        (group_of genotypes.now.genotypes (quantum_of savings.now) (savings_of savings.now) ∷ rest)) }
{
    if *skip > 0 {
        *skip -= 1;
        return Ok(());
    }
    groups.push(group(alloc, genotypes, savings)?)?;
    Ok(())
}

fn group(alloc: Global, genotypes: &Genotypes, savings: &[Saving]) -> Result<Group, OutOfMemory>
    requires some { 0 < length savings.now }
    requires known { All (λ s. s.genotype < length genotypes.now.genotypes) (savings_of savings.now) }
    requires parents { ParentsBelow 0 genotypes.now.genotypes }
    requires range { IsGroup (group_of genotypes.now.genotypes (quantum_of savings.now) (savings_of savings.now)) }
    ensures { IfOk result
        (λ g. g ≡ group_of genotypes.now.genotypes (quantum_of savings.now) (savings_of savings.now)) }
{
    let quantum = savings[0].quantum;
    let mut items = Vec::with_capacity(alloc, savings.len())?;
    for saving in savings {
        items.push(saved(alloc, genotypes, saving)?)?;
    }
    Ok(Group {
        quantum,
        form: Form::Two,
        saved: SavedList { items },
    })
}

fn saved(alloc: Global, genotypes: &Genotypes, saving: &Saving) -> Result<Saved, OutOfMemory>
    requires known { saving.now.genotype < length genotypes.now.genotypes }
    requires parents { ParentsBelow 0 genotypes.now.genotypes }
    ensures { IfOk result (λ s. s ≡ saved_of genotypes.now.genotypes (saving_of saving.now)) }
{
    let code = copied(alloc, genotypes.code_of(saving.genotype))?;
    Ok(Saved {
        name: genotypes.name_of(saving.genotype),
        parent: parent_name(genotypes, saving.genotype),
        first: saving.first_effort,
        second: saving.second_effort,
        code,
    })
}

fn parent_name(genotypes: &Genotypes, number: u64) -> Option<Name>
    requires known { number < length genotypes.now.genotypes }
    requires parents { ParentsBelow 0 genotypes.now.genotypes }
    ensures { result ≡ option_map (name_of genotypes.now.genotypes)
        (genotype_at genotypes.now.genotypes number).parent }
{
    match genotypes.parent_of(number) {
        Some(parent) => Some(genotypes.name_of(parent)),
        None => None,
    }
}
