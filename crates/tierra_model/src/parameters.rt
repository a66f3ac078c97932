//! What can be set for a world.

ghost use Rattle.std.specs.Prelude.{◌≤◌};
ghost use Rattle.tierra_model.specs.declared.keys.TheConstants.{SOUP_SIZE, SLICE_SIZE, SLICE_NUM, SLICE_DEN, SEARCH_LIMIT, MIN_TEMPLATE, MIN_CELL, MAX_CELL, MAL_MULT, FILL_PERCENT, MOVE_PERCENT, SAVE_AT, DIST_EVERY, DIST_PERCENT};

/// The settings of a world. The type ensures that each is in its range (`keys`).
#[derive(Clone, Copy, Drop, PartialEq, Eq, Debug)]
pub struct Settings {
    /// The number of cells.
    pub soup_size: u32,
    /// How many instructions a quantum has, unless that goes by size.
    pub slice_size: u32,
    /// Whether a creature's slice goes by its size, `size * slice_num / slice_den`.
    pub slice_by_size: bool,
    pub slice_num: u32,
    pub slice_den: u32,
    /// The greatest distance that a search tries.
    pub search_limit: u32,
    /// The least length of a template.
    pub min_template: u32,
    /// The least and the greatest number of cells that `mal` gives.
    pub min_cell: u32,
    pub max_cell: u32,
    /// How many times its own size a creature may ask for.
    pub mal_mult: u32,
    /// How full `mal` may make the soup, in percent.
    pub fill_percent: u32,
    /// The part of a daughter block that must have been copied before it divides, in percent.
    pub move_percent: u32,
    /// How many individuals a genotype needs before it is saved.
    pub save_at: u32,
    /// On the average one quantum in `back_rate` flips a bit of the soup; none if it is 0.
    pub back_rate: u32,
    /// On the average one copy in `copy_rate` flips a bit; none if it is 0.
    pub copy_rate: u32,
    /// On the average one instruction in `flaw_rate` is flawed; none if it is 0.
    pub flaw_rate: u32,
    /// The seed of all draws.
    pub seed: [u8; 32],
    /// Each quantum whose number it divides is disturbed; none if it is 0.
    pub dist_every: u32,
    /// The part of the living that a disturbance kills, in percent, rounded down; never the creature that runs.
    pub dist_percent: u32,
    pub ghost soup: { (SOUP_SIZE.least ≤ soup_size) × (soup_size ≤ SOUP_SIZE.greatest) },
    pub ghost slice: { (SLICE_SIZE.least ≤ slice_size) × (slice_size ≤ SLICE_SIZE.greatest) },
    pub ghost by_size: { (SLICE_NUM.least ≤ slice_num) × (slice_num ≤ SLICE_NUM.greatest)
        × (SLICE_DEN.least ≤ slice_den) × (slice_den ≤ SLICE_DEN.greatest) },
    pub ghost search: { (SEARCH_LIMIT.least ≤ search_limit) × (search_limit ≤ SEARCH_LIMIT.greatest) },
    pub ghost template: { (MIN_TEMPLATE.least ≤ min_template) × (min_template ≤ MIN_TEMPLATE.greatest) },
    pub ghost cells: { (MIN_CELL.least ≤ min_cell) × (min_cell ≤ max_cell) × (max_cell ≤ MAX_CELL.greatest) },
    pub ghost mult: { (MAL_MULT.least ≤ mal_mult) × (mal_mult ≤ MAL_MULT.greatest) },
    pub ghost fill: { (FILL_PERCENT.least ≤ fill_percent) × (fill_percent ≤ FILL_PERCENT.greatest) },
    pub ghost moving: { move_percent ≤ MOVE_PERCENT.greatest },
    pub ghost saving: { (SAVE_AT.least ≤ save_at) × (save_at ≤ SAVE_AT.greatest) },
    pub ghost disturbing: { (dist_every ≤ DIST_EVERY.greatest) × (dist_percent ≤ DIST_PERCENT.greatest) },
}
