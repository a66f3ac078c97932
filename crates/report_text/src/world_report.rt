//! The report of a run.

ghost use Rattle.std.specs.Prelude.{◌≡◌, ◌++◌, ◌<◌, IfOk, OnOk, length, string_bytes};
ghost use Rattle.std.specs.Fmt.{decimal, signed_decimal};
ghost use Rattle.std.specs.List.{flat_map, range_with_len};
ghost use Rattle.tierra_model.specs.Report.{counts_text, front_text, processor_text, report_head};
ghost use Rattle.genotyper.specs.Names.{name_text};
ghost use Rattle.report_text.specs.Report.{genotype_line, line_of, report};

use crate::bank::add_name;
use std::alloc::Global;
use std::fmt::Write;
use tierra_model::{Creature, Name, Now, OutOfMemory, Text};
use world_core::World;

/// What a report counts of a world.
#[derive(Clone, Copy)]
struct Counts {
    quanta: u64,
    births: u64,
    deaths: u64,
    living: u32,
    filled: u32,
}

/// What a run tells of its world when it ends: the counts, the creature at the front, and the genotypes that live.
pub fn report(alloc: Global, world: &World) -> Result<Text, OutOfMemory>
    ensures { IfOk result (λ text. text ≡ report world.now.world) }
{
    let mut text = String::new(alloc);
    add_head(&mut text, world)?;
    add_count(&mut text, "genotypes ", world.genotypes().len())?;
    add_count(&mut text, "\nkept ", world.kept())?;
    text.push_str("\n")?;
    let mut items = text.into_bytes();
    add_genotypes(alloc, &mut items, world)?;
    Ok(Text { items })
}

fn add_head(text: &mut String, world: &World) -> Result<(), OutOfMemory>
    ensures { OnOk result (string_bytes text.new ≡ string_bytes text.old ++ report_head world.now.world) }
{
    let counts = Counts {
        quanta: world.quanta(),
        births: world.births(),
        deaths: world.deaths(),
        living: world.living(),
        filled: world.filled(),
    };
    add_counts(text, counts)?;
    add_front(text, world.front())
}

pub(crate) fn add_count(text: &mut String, label: &str, count: u64) -> Result<(), OutOfMemory>
    ensures { OnOk result (string_bytes text.new ≡ string_bytes text.old ++ (label.now ++ decimal count)) }
{
    write!(text, "{label}{count}")
}

fn add_register(text: &mut String, label: &str, value: &i32) -> Result<(), OutOfMemory>
    ensures { OnOk result (string_bytes text.new ≡ string_bytes text.old ++ (label.now ++ signed_decimal value.now)) }
{
    write!(text, "{label}{value}")
}

// A line for each count.
fn add_counts(text: &mut String, counts: Counts) -> Result<(), OutOfMemory>
    ensures { OnOk result (string_bytes text.new
        ≡ string_bytes text.old ++ counts_text counts.quanta counts.births counts.deaths counts.living counts.filled) }
{
    add_count(text, "quanta ", counts.quanta)?;
    add_count(text, "\nbirths ", counts.births)?;
    add_count(text, "\ndeaths ", counts.deaths)?;
    add_count(text, "\nliving ", u64::from(counts.living))?;
    add_count(text, "\nfilled ", u64::from(counts.filled))?;
    text.push_str("\n")
}

pub(crate) fn add_processor(text: &mut String, creature: &Creature) -> Result<(), OutOfMemory>
    ensures { OnOk result (string_bytes text.new ≡ string_bytes text.old ++ processor_text creature.now) }
{
    add_count(text, "ip ", u64::from(creature.ip))?;
    add_register(text, " ax ", &creature.ax)?;
    add_register(text, " bx ", &creature.bx)?;
    add_register(text, " cx ", &creature.cx)?;
    add_register(text, " dx ", &creature.dx)?;
    Ok(())
}

// The line of the creature at the front.
fn add_front(text: &mut String, creature: &Creature) -> Result<(), OutOfMemory>
    ensures { OnOk result (string_bytes text.new ≡ string_bytes text.old ++ front_text creature.now) }
{
    write!(text, "front {} ", creature.id)?;
    add_processor(text, creature)?;
    write!(text, " flag {} errors {}\n", creature.flag, creature.errors)
}

fn add_genotypes(alloc: Global, text: &mut Vec<u8>, world: &World) -> Result<(), OutOfMemory>
    ensures { OnOk result (text.new.items
        ≡ text.old.items ++ flat_map (line_of world.now.world) (range_with_len 0 (length world.now.world.genotypes))) }
{
    for number in 0..world.genotypes().len() {
        add_genotype(alloc, text, world, number)?;
    }
    Ok(())
}

fn add_genotype(
    alloc: Global,
    text: &mut Vec<u8>,
    world: &World,
    number: u64,
) -> Result<(), OutOfMemory>
    requires { number < length world.now.world.genotypes }
    ensures { OnOk result (text.new.items ≡ text.old.items ++ line_of world.now.world number) }
{
    let name = world.genotypes().name_of(number);
    let total = world.genotypes().total(number);
    let living = world.census().living(number);
    add_line(alloc, text, &name, living, total)
}

// The line of a genotype, if some of its creatures live.
fn add_line(
    alloc: Global,
    text: &mut Vec<u8>,
    name: &Name,
    living: u64,
    total: u64,
) -> Result<(), OutOfMemory>
    ensures { OnOk result (text.new.items ≡ text.old.items ++ genotype_line (name_text name.now) living total) }
{
    if living == 0 {
        return Ok(());
    }
    add_name(alloc, text, name)?;
    text.extend_from_slice(format!(in alloc; " {living} {total}\n")?.as_bytes())
}
