//! The creatures of a soup file.

ghost use Rattle.std.specs.Prelude.{◌≡◌, ◌⊎◌, ◌+◌, ◌<◌, ◌≤◌, ◌∷◌, ◌++◌, [], IfErr, IfOk, None, OnOk, Err, Ok, Some, length, map, position};
ghost use Rattle.toml.specs.View.{array_view, table_view};
ghost use Rattle.tierra_model.specs.declared.limits.TheConstants.{MOST_CELLS};
ghost use Rattle.tierra_model.specs.Ranges.{IsCode};
ghost use Rattle.soup_file.specs.Keys.{file_fault, first_fault};
ghost use Rattle.soup_file.specs.Creatures.{LieApart, all_creature_checks, code_of, creature_checks, creature_tables, inocula_of, inoculum_of, own_checks, place_of, share_a_cell, tables_of};

use crate::fault::FileFault;
use crate::key::{Key, KeyFault};
use crate::value::{check_keys, look_up, required_number_at, text_at};
use std::alloc::Global;
use tierra_asm::{AsmFault, assemble};
use tierra_model::{Code, Inoculum, SeedList};
use toml::Table;
use toml::value::Array;

/// The tables of the creatures, at least one.
#[tactic(auto, using(crate::proofs::Tables::some_tables_are), unfolding(crate::specs::Creatures::creature_tables, crate::specs::Keys::read_at))]
pub(crate) fn creature_tables<'a>(
    alloc: Global,
    document: &'a Table,
) -> Result<Vec<&'a Table>, FileFault>
    ensures tables { IfOk result (λ tables. creature_tables (table_view document.now)
        ≡ Ok (map (λ t. table_view t.now) tables.items)) }
    ensures fault { IfErr result (λ fault. (fault ≡ FileFault.OutOfMemory)
        ⊎ (creature_tables (table_view document.now) ≡ Err fault)) }
{
    let Some(value) = look_up(document, Key::Creature) else {
        return Err(FileFault::NoCreature);
    };
    let Some(items) = value.as_array() else {
        return Err(KeyFault::WrongKind(Key::Creature).in_file(alloc));
    };
    let tables = tables_of(alloc, items)?;
    if tables.is_empty() {
        return Err(FileFault::NoCreature);
    }
    Ok(tables)
}

fn tables_of<'a>(alloc: Global, items: &'a Array) -> Result<Vec<&'a Table>, FileFault>
    ensures tables { IfOk result (λ tables. tables_of (array_view items.now)
        ≡ Some (map (λ t. table_view t.now) tables.items)) }
    ensures fault { IfErr result (λ fault. (fault ≡ FileFault.OutOfMemory)
        ⊎ ((tables_of (array_view items.now) ≡ None) × (fault ≡ file_fault (KeyFault.WrongKind Key.Creature)))) }
{
    let mut tables = Vec::with_capacity(alloc, items.len())?;
    for item in items {
        let Some(table) = item.as_table() else {
            return Err(KeyFault::WrongKind(Key::Creature).in_file(alloc));
        };
        tables.push(table)?;
    }
    Ok(tables)
}

/// The creatures that the tables spell.
pub(crate) fn read_creatures(
    alloc: Global,
    tables: &[&Table],
    soup_size: u32,
) -> Result<SeedList, FileFault>
    requires { (1 ≤ soup_size) × (soup_size ≤ MOST_CELLS) }
    ensures creatures { IfOk result (λ creatures. map Some creatures
        ≡ inocula_of soup_size (map (λ t. table_view t.now) tables.now)) }
    ensures passed { IfOk result (λ creatures.
        first_fault (all_creature_checks soup_size (map (λ t. table_view t.now) tables.now)) ≡ None) }
    ensures apart { IfOk result (LieApart soup_size) }
    ensures fault { IfErr result (λ fault. (fault ≡ FileFault.OutOfMemory)
        ⊎ (first_fault (all_creature_checks soup_size (map (λ t. table_view t.now) tables.now)) ≡ Some fault)) }
{
    let mut items = Vec::with_capacity(alloc, tables.len())?;
    for table in tables {
        add_creature(alloc, &mut items, table, soup_size)?;
    }
    Ok(SeedList { items })
}

// Reads the next creature, which must share no cell with those before.
fn add_creature(
    alloc: Global,
    creatures: &mut Vec<Inoculum>,
    table: &Table,
    soup_size: u32,
) -> Result<(), FileFault>
    requires size { (1 ≤ soup_size) × (soup_size ≤ MOST_CELLS) }
    requires apart { LieApart soup_size creatures.old.items }
    ensures added { OnOk result ((c : Inoculum) × (creatures.new.items ≡ creatures.old.items ++ c ∷ [])
        × (inoculum_of soup_size (length creatures.old.items + 1, table_view table.now) ≡ Some c)) }
    ensures apart { OnOk result (LieApart soup_size creatures.new.items) }
    ensures passed { OnOk result (first_fault (creature_checks soup_size (map Some creatures.old.items)
        (length creatures.old.items + 1, table_view table.now)) ≡ None) }
    ensures fault { IfErr result (λ fault. (fault ≡ FileFault.OutOfMemory)
        ⊎ (first_fault (creature_checks soup_size (map Some creatures.old.items)
        (length creatures.old.items + 1, table_view table.now)) ≡ Some fault)) }
{
    let number = creatures.len() as u32 + 1;
    let creature = read_creature(alloc, number, table, soup_size)?;
    if let Some(place) = first_sharing(creatures.as_slice(), &creature) {
        return Err(FileFault::Overlap {
            first: place as u32 + 1,
            second: number,
        });
    }
    creatures.push(creature)?;
    Ok(())
}

// The creature of a table, which must lie in the soup.
#[tactic(auto, unfolding(crate::specs::Creatures::own_checks, crate::specs::Creatures::inoculum_of))]
fn read_creature(
    alloc: Global,
    number: u32,
    table: &Table,
    soup_size: u32,
) -> Result<Inoculum, FileFault>
    requires { 1 ≤ soup_size }
    ensures creature { IfOk result (λ c. inoculum_of soup_size (number, table_view table.now) ≡ Some c) }
    ensures code { IfOk result (λ c. IsCode c.code) }
    ensures placed { IfOk result (λ c. c.at + length c.code ≤ soup_size) }
    ensures passed { IfOk result (λ c. first_fault (own_checks soup_size (number, table_view table.now)) ≡ None) }
    ensures fault { IfErr result (λ fault. (fault ≡ FileFault.OutOfMemory)
        ⊎ (first_fault (own_checks soup_size (number, table_view table.now)) ≡ Some fault)) }
{
    check_keys(alloc, table, "creature.", &[Key::At, Key::Code])?;
    let at = read_place(alloc, table, soup_size)?;
    let code = read_code(alloc, number, table)?;
    if at as usize + code.items.len() > soup_size as usize {
        return Err(KeyFault::OutOfRange(Key::At).in_file(alloc));
    }
    Ok(Inoculum { at, code })
}

#[tactic(auto, unfolding(crate::specs::Creatures::place_of))]
fn read_place(alloc: Global, table: &Table, soup_size: u32) -> Result<u32, FileFault>
    requires { 1 ≤ soup_size }
    ensures place { IfOk result (λ at. place_of soup_size (table_view table.now) ≡ Ok at) }
    ensures fault { IfErr result (λ fault. (fault ≡ FileFault.OutOfMemory)
        ⊎ ((f : KeyFault) × (place_of soup_size (table_view table.now) ≡ Err f) × (fault ≡ file_fault f))) }
{
    match required_number_at(table, Key::At, 0, soup_size - 1) {
        Ok(at) => Ok(at),
        Err(fault) => Err(fault.in_file(alloc)),
    }
}

#[tactic(auto, unfolding(crate::specs::Creatures::code_of, crate::specs::Creatures::text_of))]
fn read_code(alloc: Global, number: u32, table: &Table) -> Result<Code, FileFault>
    ensures code { IfOk result (λ code. code_of number (table_view table.now) ≡ Ok code) }
    ensures range { IfOk result IsCode }
    ensures fault { IfErr result (λ fault. (fault ≡ FileFault.OutOfMemory)
        ⊎ (code_of number (table_view table.now) ≡ Err fault)) }
{
    let text = match text_at(table, Key::Code) {
        Ok(text) => text,
        Err(fault) => return Err(fault.in_file(alloc)),
    };
    match assemble(alloc, text) {
        Ok(code) => Ok(code),
        Err(AsmFault::OutOfMemory) => Err(FileFault::OutOfMemory),
        Err(fault) => Err(FileFault::Listing {
            creature: number,
            fault,
        }),
    }
}

// The place in the list of the first creature that shares a cell with this one.
fn first_sharing(creatures: &[Inoculum], creature: &Inoculum) -> Option<usize>
    ensures { result ≡ position (λ other. share_a_cell other creature.now) creatures.now }
{
    creatures
        .iter()
        .position(|other| share_a_cell(other, creature))
}

fn share_a_cell(one: &Inoculum, other: &Inoculum) -> bool
    ensures { result ≡ share_a_cell one.now other.now }
{
    (one.at as usize) < end_of(other) && (other.at as usize) < end_of(one)
}

fn end_of(creature: &Inoculum) -> usize
    ensures { result ≡ creature.now.at + length creature.now.code }
{
    creature.at as usize + creature.code.items.len()
}
