//! The model of a Tierra soup: the plain types that every crate speaks of, and in `specs/` the definitions that
//! contracts cite. `docs/RULES.md` tells each rule in words, beside the name of its definition.
#![tactic(auto)]

mod creatures;
mod events;
mod genebank;
mod history;
mod keys;
mod laws;
mod limits;
mod lists;
mod ops;
mod parameters;
mod searching;
mod setups;
mod views;

pub use creatures::{Block, Creature, Effort, Standing};
pub use events::{Act, Event};
pub use genebank::{Form, Group, Groups, Name, Saved, SavedList};
pub use history::{Entry, How, Stale};
pub use keys::{
    BACK_RATE, COPY_RATE, DIST_EVERY, DIST_PERCENT, FILL_PERCENT, FLAW_RATE, MAL_MULT, MAX_CELL,
    MIN_CELL, MIN_TEMPLATE, MOVE_PERCENT, Number, SAVE_AT, SEARCH_LIMIT, SEED, SLICE_BY_SIZE,
    SLICE_DEN, SLICE_NUM, SLICE_SIZE, SOUP_SIZE,
};
pub use laws::{
    ahead_is_sound, bank_in_range, bank_is_groups, difference_tells, disturbance_counts_living,
    finding_stands, first_fit_is_least, law_of_findings, least_place, nearest_is_found,
    quantum_is_sound, scene_alone, serial_is_sound, yards_are_safe,
};
pub use limits::{
    COUNT_END, MOST_CELLS, MOST_EPOCHS, MOST_ISLES, MOST_LOOKS, MOST_QUANTA, MOST_SIZE, MOST_SLICE,
    MOST_WORKERS,
};
pub use lists::{Code, EventList, FreeList, Text, Yard};
pub use ops::Op;
pub use parameters::Settings;
pub use searching::{Found, Way};
pub use setups::{Inoculum, SeedList, Setup, defaults, grow_setup};
pub use views::{Now, View};

/// No memory was left.
pub type OutOfMemory = std::alloc::AllocError;
