//! The fields of files: numbers, pieces, lists and efforts as bytes, how they are written and how they are read.
#![tactic(auto)]

mod lists;
mod reading;
mod stop;
mod writing;

pub use lists::{Field, counted_by_eight, counted_by_four, list_of};
pub use reading::{
    byte_of, efforts_of, eight_of, eights_of, four_of, fours_of, piece_of, sized_of,
};
pub use stop::Stop;
pub use writing::{
    push_effort, push_efforts, push_eight, push_eights, push_four, push_fours, push_sized,
};
