//! The text of probes.

ghost use Rattle.std.specs.Prelude.{◌≡◌, ◌≤◌, ◌++◌, IfOk, OnOk};
ghost use Rattle.genotype_probe.specs.Text.{effort_text, probe_line, probe_text};
ghost use Rattle.tierra_model.specs.declared.limits.TheConstants.{MOST_QUANTA, MOST_WORKERS};

use crate::dealing::probe_dealt;
use crate::{Efforts, saved_of};
use genotyper::name_text;
use std::alloc::Global;
use std::thread::Threads;
use tierra_model::{Effort, Groups, Name, OutOfMemory, Text};

/// A line for each saved genotype of the groups: its name, and what its first and second daughter cost it alone.
pub fn probe_text<R: Threads + Sync>(
    rt: &R,
    alloc: Global,
    groups: &Groups,
    n: u64,
    workers: u32,
) -> Result<Text, OutOfMemory>
    requires quanta { (1 ≤ n) × (n ≤ MOST_QUANTA) }
    requires workers { (1 ≤ workers) × (workers ≤ MOST_WORKERS) }
    ensures { IfOk result (λ text. text ≡ probe_text groups.now n) }
{
    let saved = saved_of(alloc, groups)?;
    let efforts = probe_dealt(rt, alloc, &saved, n, workers)?;
    let mut items = Vec::new(alloc);
    for (place, genotype) in saved.iter().enumerate() {
        add_line(alloc, &mut items, &genotype.name, &efforts[place])?;
    }
    Ok(Text { items })
}

fn add_line(
    alloc: Global,
    text: &mut Vec<u8>,
    name: &Name,
    efforts: &Efforts,
) -> Result<(), OutOfMemory>
    ensures { OnOk result (text.new.items ≡ text.old.items ++ probe_line name.now efforts.now) }
{
    text.extend_from_slice(&name_text(alloc, name)?.items)?;
    text.extend_from_slice(b" first ")?;
    add_effort(alloc, text, &efforts.first)?;
    text.extend_from_slice(b" second ")?;
    add_effort(alloc, text, &efforts.second)?;
    text.push(b'\n')?;
    Ok(())
}

fn add_effort(alloc: Global, text: &mut Vec<u8>, effort: &Option<Effort>) -> Result<(), OutOfMemory>
    ensures { OnOk result (text.new.items ≡ text.old.items ++ effort_text effort.now) }
{
    let numbers = match effort {
        Some(effort) => format!(in alloc; "{} {}", effort.ran, effort.moved)?,
        None => format!(in alloc; "none")?,
    };
    text.extend_from_slice(numbers.as_bytes())
}
