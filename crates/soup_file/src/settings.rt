//! The settings of a soup file.

ghost use Rattle.std.specs.Prelude.{◌≡◌, IfErr, IfOk, None, Some};
ghost use Rattle.toml.specs.View.{table_view};
ghost use Rattle.soup_file.specs.Keys.{first_fault};
ghost use Rattle.soup_file.specs.Settings.{AreSettingsOf, setting_checks};

use crate::key::{Key, KeyFault};
use crate::value::{bytes_at, flag_at, number_at};
use tierra_model::{
    BACK_RATE, COPY_RATE, DIST_EVERY, DIST_PERCENT, FILL_PERCENT, FLAW_RATE, MAL_MULT, MAX_CELL,
    MIN_CELL, MIN_TEMPLATE, MOVE_PERCENT, SAVE_AT, SEARCH_LIMIT, SEED, SLICE_BY_SIZE, SLICE_DEN,
    SLICE_NUM, SLICE_SIZE, SOUP_SIZE, Settings,
};
use toml::Table;

/// The settings of a document: the values at its keys, or their defaults.
#[tactic(auto, unfolding(crate::specs::Settings::setting_checks))]
pub(crate) fn read_settings(document: &Table) -> Result<Settings, KeyFault>
    ensures settings { IfOk result (λ settings. AreSettingsOf (table_view document.now) settings) }
    ensures passed { IfOk result (λ settings. first_fault (setting_checks (table_view document.now)) ≡ None) }
    ensures fault { IfErr result (λ fault. first_fault (setting_checks (table_view document.now)) ≡ Some fault) }
{
    let soup_size = number_at(document, Key::SoupSize, SOUP_SIZE)?;
    let slice_size = number_at(document, Key::SliceSize, SLICE_SIZE)?;
    let slice_by_size = flag_at(document, Key::SliceBySize, SLICE_BY_SIZE)?;
    let slice_num = number_at(document, Key::SliceNum, SLICE_NUM)?;
    let slice_den = number_at(document, Key::SliceDen, SLICE_DEN)?;
    let search_limit = number_at(document, Key::SearchLimit, SEARCH_LIMIT)?;
    let min_template = number_at(document, Key::MinTemplate, MIN_TEMPLATE)?;
    let min_cell = number_at(document, Key::MinCell, MIN_CELL)?;
    let max_cell = number_at(document, Key::MaxCell, MAX_CELL)?;
    let mal_mult = number_at(document, Key::MalMult, MAL_MULT)?;
    let fill_percent = number_at(document, Key::FillPercent, FILL_PERCENT)?;
    let move_percent = number_at(document, Key::MovePercent, MOVE_PERCENT)?;
    let save_at = number_at(document, Key::SaveAt, SAVE_AT)?;
    let back_rate = number_at(document, Key::BackRate, BACK_RATE)?;
    let copy_rate = number_at(document, Key::CopyRate, COPY_RATE)?;
    let flaw_rate = number_at(document, Key::FlawRate, FLAW_RATE)?;
    let seed = bytes_at(document, Key::Seed, SEED)?;
    let dist_every = number_at(document, Key::DistEvery, DIST_EVERY)?;
    let dist_percent = number_at(document, Key::DistPercent, DIST_PERCENT)?;
    if max_cell < min_cell {
        return Err(KeyFault::OutOfRange(Key::MaxCell));
    }
    Ok(Settings {
        soup_size,
        slice_size,
        slice_by_size,
        slice_num,
        slice_den,
        search_limit,
        min_template,
        min_cell,
        max_cell,
        mal_mult,
        fill_percent,
        move_percent,
        save_at,
        back_rate,
        copy_rate,
        flaw_rate,
        seed,
        dist_every,
        dist_percent,
    })
}
