//! The slicer: whose turn it is, and how long the turn is.
#![tactic(auto)]

mod slice;
mod slicer;

pub use slice::slice_of;
pub use slicer::Slicer;
