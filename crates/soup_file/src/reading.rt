//! Reading soup files.

ghost use Rattle.std.specs.Prelude.{◌≡◌, ◌⊎◌, IfErr, IfOk, IsUtf8, Some};
ghost use Rattle.toml.specs.Parse.{parse_document};
ghost use Rattle.toml.specs.View.{table_view};
ghost use Rattle.soup_file.specs.Keys.{first_fault};
ghost use Rattle.soup_file.specs.SoupFile.{IsDocument, IsFaultOf, IsSetupOf, IsSoupFile, checks_of};

use crate::creatures::{creature_tables, read_creatures};
use crate::fault::FileFault;
use crate::key::Key;
use crate::settings::read_settings;
use crate::value::check_keys;
use std::alloc::Global;
use tierra_model::Setup;
use toml::Table;

const KEYS: [Key; 20] = [
    Key::SoupSize,
    Key::SliceSize,
    Key::SliceBySize,
    Key::SliceNum,
    Key::SliceDen,
    Key::SearchLimit,
    Key::MinTemplate,
    Key::MinCell,
    Key::MaxCell,
    Key::MalMult,
    Key::FillPercent,
    Key::MovePercent,
    Key::SaveAt,
    Key::BackRate,
    Key::CopyRate,
    Key::FlawRate,
    Key::Seed,
    Key::DistEvery,
    Key::DistPercent,
    Key::Creature,
];

/// The setup of a soup file, or the fault of the first check that fails.
///
/// A soup file is a TOML document with settings, which have defaults where they are left out, and an array of tables
/// `creature`, each with the place `at` and the listing `code`. The checks are made in this order: the document, its
/// keys, the settings in their order, `max_cell` against `min_cell`, the array, and then each creature in turn: its
/// keys, its place, its listing, its end, and the creatures before it.
pub fn read_setup(alloc: Global, bytes: &[u8]) -> Result<Setup, FileFault>
    ensures setup { IfOk result (λ setup. IsSoupFile bytes.now setup) }
    ensures fault { IfErr result (λ fault. (fault ≡ FileFault.OutOfMemory) ⊎ IsFaultOf bytes.now fault) }
{
    let document = read_document(alloc, bytes)?;
    setup_of(alloc, &document)
}

fn read_document(alloc: Global, bytes: &[u8]) -> Result<Table, FileFault>
    ensures document { IfOk result (λ t. IsDocument bytes.now (table_view t)) }
    ensures fault { IfErr result (λ fault. (fault ≡ FileFault.OutOfMemory)
        ⊎ ((fault ≡ FileFault.NotToml) × (IsUtf8 bytes.now → parse_document bytes.now ≡ None))) }
{
    match toml::table_from_slice(alloc, bytes) {
        Ok(document) => Ok(document),
        Err(error) => {
            if error.is_memory() {
                Err(FileFault::OutOfMemory)
            } else {
                Err(FileFault::NotToml)
            }
        }
    }
}

#[tactic(auto, unfolding(crate::specs::SoupFile::checks_of))]
fn setup_of(alloc: Global, document: &Table) -> Result<Setup, FileFault>
    ensures setup { IfOk result (λ setup. IsSetupOf (table_view document.now) setup) }
    ensures fault { IfErr result (λ fault. (fault ≡ FileFault.OutOfMemory)
        ⊎ (first_fault (checks_of (table_view document.now)) ≡ Some fault)) }
{
    check_keys(alloc, document, "", &KEYS)?;
    let settings = match read_settings(document) {
        Ok(settings) => settings,
        Err(fault) => return Err(fault.in_file(alloc)),
    };
    let tables = creature_tables(alloc, document)?;
    let creatures = read_creatures(alloc, tables.as_slice(), settings.soup_size)?;
    Ok(Setup {
        settings,
        creatures,
    })
}
