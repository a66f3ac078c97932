//! The dump of a world.

ghost use Rattle.std.specs.Prelude.{◌≡◌, ◌==◌, ◌++◌, ◌<◌, IfOk, OnOk, drop, length, slice_index, string_bytes, take};
ghost use Rattle.std.specs.List.{flat_map, list_all};
ghost use Rattle.tierra_model.specs.Living.{one_of};
ghost use Rattle.tierra_model.specs.Sound.{IsSound};
ghost use Rattle.report_text.specs.Dump.{body_text, cell_text, creature_line, creature_lines, daughter_text, dump, id_text, place_text, reaper_line, registers_text, row_line, row_lines, state_line};

use crate::bank::{add_hex, add_name};
use crate::world_report::{add_count, add_processor, report};
use genotyper::Genotypes;
use sha2::{Digest, Sha256};
use std::alloc::Global;
use std::fmt::Write;
use tierra_model::{Block, Creature, Now, OutOfMemory, Text};
use world_core::World;

/// How many cells a row has.
const ROW: u32 = 32;

/// Everything in a world: its report, the living in the order of their turns, the reaper queue from its top, each row
/// of the soup that is not all 0, and the digest of the world's bytes.
pub fn dump(alloc: Global, world: &World) -> Result<Text, OutOfMemory>
    ensures { IfOk result (λ text. text ≡ dump world.now.world) }
{
    let size = world.settings().soup_size;
    let mut items = report(alloc, world)?.items;
    add_creatures(alloc, &mut items, world)?;
    add_reaper(alloc, &mut items, world)?;
    add_rows(alloc, &mut items, world, size)?;
    items.extend_from_slice(&state_line(alloc, world)?.items)?;
    Ok(Text { items })
}

// ---- the living

fn add_creatures(alloc: Global, text: &mut Vec<u8>, world: &World) -> Result<(), OutOfMemory>
    requires { IsSound world.now.world }
    ensures { OnOk result (text.new.items ≡ text.old.items ++ creature_lines world.now.world) }
{
    for k in 0..world.living() {
        add_creature(alloc, text, world.genotypes(), creature_at(world, k))?;
    }
    Ok(())
}

// The creature at a place of the slicer queue.
fn creature_at(world: &World, k: u32) -> &Creature
    requires sound { IsSound world.now.world }
    requires within { k < length world.now.world.slicer }
    ensures creature { result.now ≡ one_of world.now.world.living (slice_index world.now.world.slicer k) }
    ensures genotype { result.now.genotype < length world.now.world.genotypes }
{
    match world.place(k) {
        Some(creature) => creature,
        None => unreachable!(),
    }
}

fn add_creature(
    alloc: Global,
    text: &mut Vec<u8>,
    genotypes: &Genotypes,
    creature: &Creature,
) -> Result<(), OutOfMemory>
    requires { creature.now.genotype < length genotypes.now.genotypes }
    ensures { OnOk result (text.new.items ≡ text.old.items ++ creature_line genotypes.now.genotypes creature.now) }
{
    let mut line = String::new(alloc);
    add_body(&mut line, creature)?;
    add_registers(&mut line, creature)?;
    text.extend_from_slice(line.as_bytes())?;
    add_name(alloc, text, &genotypes.name_of(creature.genotype))?;
    text.push(b'\n')?;
    Ok(())
}

// The blocks of a creature, and how many cells of its daughter it has moved.
fn add_body(line: &mut String, creature: &Creature) -> Result<(), OutOfMemory>
    ensures { OnOk result (string_bytes line.new ≡ string_bytes line.old ++ body_text creature.now) }
{
    add_count(line, "creature ", creature.id)?;
    add_count(line, " at ", u64::from(creature.own.at))?;
    add_count(line, " size ", u64::from(creature.own.size))?;
    line.push_str(" daughter ")?;
    add_daughter(line, creature.daughter)?;
    add_count(line, " moved ", creature.moved)?;
    line.push_str(" ")
}

fn add_daughter(line: &mut String, daughter: Option<Block>) -> Result<(), OutOfMemory>
    ensures { OnOk result (string_bytes line.new ≡ string_bytes line.old ++ daughter_text daughter) }
{
    match daughter {
        Some(block) => write!(line, "{}+{}", block.at, block.size),
        None => line.push_str("none"),
    }
}

// The processor of a creature.
fn add_registers(line: &mut String, creature: &Creature) -> Result<(), OutOfMemory>
    ensures { OnOk result (string_bytes line.new ≡ string_bytes line.old ++ registers_text creature.now) }
{
    add_processor(line, creature)?;
    add_count(line, " sp ", u64::from(creature.sp))?;
    add_count(line, " flag ", u64::from(creature.flag))?;
    add_count(line, " errors ", creature.errors)?;
    line.push_str(" ")
}

// ---- the reaper queue

fn add_reaper(alloc: Global, text: &mut Vec<u8>, world: &World) -> Result<(), OutOfMemory>
    requires { IsSound world.now.world }
    ensures { OnOk result (text.new.items ≡ text.old.items ++ reaper_line world.now.world.reaper) }
{
    let mut line = String::new(alloc);
    line.push_str("reaper")?;
    add_ids(&mut line, world)?;
    line.push_str("\n")?;
    text.extend_from_slice(line.as_bytes())
}

// The birth numbers from the top of the reaper queue.
fn add_ids(line: &mut String, world: &World) -> Result<(), OutOfMemory>
    requires { IsSound world.now.world }
    ensures { OnOk result (string_bytes line.new ≡ string_bytes line.old ++ flat_map id_text world.now.world.reaper) }
{
    for place in 0..world.yard_len() {
        add_count(line, " ", reaper_at(world, place))?;
    }
    Ok(())
}

// The birth number at a place of the reaper queue.
fn reaper_at(world: &World, place: u32) -> u64
    requires sound { IsSound world.now.world }
    requires within { place < length world.now.world.reaper }
    ensures { result ≡ slice_index world.now.world.reaper place }
{
    world.standing(place).id
}

// ---- the soup

fn add_rows(alloc: Global, text: &mut Vec<u8>, world: &World, size: u32) -> Result<(), OutOfMemory>
    requires { length world.now.world.soup ≡ size }
    ensures { OnOk result (text.new.items ≡ text.old.items ++ row_lines world.now.world.soup) }
{
    for number in 0..size.div_ceil(ROW) {
        let first = ROW * number;
        let cells = cells_from(alloc, world, first, size)?;
        add_row(alloc, text, first, &cells)?;
    }
    Ok(())
}

// The cells of the row that begins there: 32, or fewer at the end of the soup.
fn cells_from(alloc: Global, world: &World, first: u32, size: u32) -> Result<Vec<u8>, OutOfMemory>
    requires size { length world.now.world.soup ≡ size }
    requires within { first < size }
    ensures { IfOk result (λ cells. cells.items ≡ take 32 (drop first world.now.world.soup)) }
{
    let count = ROW.min(size - first);
    let mut cells = Vec::with_capacity(alloc, count as usize)?;
    for at in first..first + count {
        cells.push(world.cell(at))?;
    }
    Ok(cells)
}

// The line of a row, if some of its cells are not 0.
fn add_row(alloc: Global, text: &mut Vec<u8>, first: u32, cells: &[u8]) -> Result<(), OutOfMemory>
    ensures { OnOk result (text.new.items ≡ text.old.items ++ row_line first cells.now) }
{
    if are_zeros(cells) {
        return Ok(());
    }
    let mut line = String::new(alloc);
    add_place(&mut line, first)?;
    line.push_str(":")?;
    add_cells(&mut line, cells)?;
    line.push_str("\n")?;
    text.extend_from_slice(line.as_bytes())
}

fn are_zeros(cells: &[u8]) -> bool
    ensures { result ≡ list_all (λ v. v == 0) cells.now }
{
    cells.iter().all(|cell| *cell == 0)
}

#[tactic(auto, using(crate::proofs::Written::place_is_written))]
fn add_place(line: &mut String, at: u32) -> Result<(), OutOfMemory>
    ensures { OnOk result (string_bytes line.new ≡ string_bytes line.old ++ place_text at) }
{
    write!(line, "{at:07}")
}

fn add_cells(line: &mut String, cells: &[u8]) -> Result<(), OutOfMemory>
    ensures { OnOk result (string_bytes line.new ≡ string_bytes line.old ++ flat_map cell_text cells.now) }
{
    for cell in cells {
        add_cell(line, *cell)?;
    }
    Ok(())
}

#[tactic(auto, using(crate::proofs::Written::cell_is_written))]
fn add_cell(line: &mut String, cell: u8) -> Result<(), OutOfMemory>
    ensures { OnOk result (string_bytes line.new ≡ string_bytes line.old ++ cell_text cell) }
{
    write!(line, " {cell:02x}")
}

// ---- the state

/// The digest line of a world: `state` and the SHA-256 of its state bytes, in lower-case hexadecimal digits.
pub fn state_line(alloc: Global, world: &World) -> Result<Text, OutOfMemory>
    ensures { IfOk result (λ text. text ≡ state_line world.now.world) }
{
    let bytes = world.state_bytes(alloc)?;
    let digest = Sha256::digest(bytes.items.as_slice());
    let mut items = Vec::new(alloc);
    items.extend_from_slice(b"state ")?;
    add_hex(alloc, &mut items, &digest)?;
    items.push(b'\n')?;
    Ok(Text { items })
}
