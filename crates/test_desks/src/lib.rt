//! A source and a desk in memory, for tests. Their calls fail where a list says, and the desk can be crashed at any moment.
#![tactic(auto)]

mod call;
mod listed;
mod mem_desk;
mod mem_source;

pub use call::{Bytes, Call, CallRecord};
pub use mem_desk::{MemDesk, OutOfMemory};
pub use mem_source::MemSource;
