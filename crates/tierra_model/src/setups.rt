//! What a world begins with.

ghost use Rattle.std.specs.Prelude.{◌≡◌, IfOk};
ghost use Rattle.tierra_model.specs.Ranges.{IsCode};
ghost use Rattle.tierra_model.specs.Setups.{setup_for, default_settings};

use crate::OutOfMemory;
use crate::keys::{
    BACK_RATE, COPY_RATE, DIST_EVERY, DIST_PERCENT, FILL_PERCENT, FLAW_RATE, MAL_MULT, MAX_CELL,
    MIN_CELL, MIN_TEMPLATE, MOVE_PERCENT, SAVE_AT, SEARCH_LIMIT, SEED, SLICE_BY_SIZE, SLICE_DEN,
    SLICE_NUM, SLICE_SIZE, SOUP_SIZE,
};
use crate::lists::Code;
use crate::parameters::Settings;
use std::alloc::Global;
use std::marker::Model;

/// A creature that is put into the soup at the start.
#[derive(Debug, Drop)]
pub struct Inoculum {
    pub at: u32,
    pub code: Code,
}

/// The creatures of a start, in the order of their birth numbers.
#[derive(Debug, Drop)]
pub struct SeedList {
    pub items: Vec<Inoculum>,
}

impl Model for SeedList {
    ghost use Rattle.std.specs.Prelude.{List};
    ghost use Rattle.tierra_model.specs.declared.setups.Inoculum.{Inoculum};

    ghost Value = { List Inoculum };

    ghost view = { λ s. s.items.items };
}

/// Settings, and at least one creature. The type ensures that the codes lie in the soup and share no cell.
#[derive(Debug, Drop)]
pub struct Setup {
    pub settings: Settings,
    pub creatures: SeedList,
}

impl Model for Setup {
    ghost use Rattle.tierra_model.specs.Setups.{SetupFields, IsSetup};

    ghost Value = { SetupFields };

    ghost view = { λ s. record { settings = s.settings; creatures = s.creatures } };

    ghost invariant = { λ s. IsSetup (record { settings = s.settings; creatures = s.creatures }) };
}

impl Inoculum {
    fn copy(&self) -> Result<Inoculum, OutOfMemory>
        ensures { IfOk result (λ i. i ≡ self.now) }
    {
        let items = self.code.items.clone()?;
        Ok(Inoculum {
            at: self.at,
            code: Code { items },
        })
    }
}

impl Setup {
    /// Another setup with the same settings and creatures.
    pub fn copy(&self, alloc: Global) -> Result<Setup, OutOfMemory>
        ensures { IfOk result (λ s. s ≡ self.now) }
    {
        let mut items = Vec::new(alloc);
        for creature in self.creatures.items.iter() {
            items.push(creature.copy()?)?;
        }
        Ok(Setup {
            settings: self.settings,
            creatures: SeedList { items },
        })
    }
}

/// The settings that hold unless others are given.
pub fn defaults() -> Settings
    ensures { result ≡ default_settings }
{
    Settings {
        soup_size: SOUP_SIZE.default,
        slice_size: SLICE_SIZE.default,
        slice_by_size: SLICE_BY_SIZE,
        slice_num: SLICE_NUM.default,
        slice_den: SLICE_DEN.default,
        search_limit: SEARCH_LIMIT.default,
        min_template: MIN_TEMPLATE.default,
        min_cell: MIN_CELL.default,
        max_cell: MAX_CELL.default,
        mal_mult: MAL_MULT.default,
        fill_percent: FILL_PERCENT.default,
        move_percent: MOVE_PERCENT.default,
        save_at: SAVE_AT.default,
        back_rate: BACK_RATE.default,
        copy_rate: COPY_RATE.default,
        flaw_rate: FLAW_RATE.default,
        seed: SEED,
        dist_every: DIST_EVERY.default,
        dist_percent: DIST_PERCENT.default,
    }
}

/// The setup of a listing's code: the default settings, and the code at cell 0.
pub fn grow_setup(alloc: Global, code: Code) -> Result<Setup, OutOfMemory>
    requires { IsCode code }
    ensures { IfOk result (λ setup. setup ≡ setup_for code) }
{
    let mut items = Vec::new(alloc);
    items.push(Inoculum { at: 0, code })?;
    Ok(Setup {
        settings: defaults(),
        creatures: SeedList { items },
    })
}
