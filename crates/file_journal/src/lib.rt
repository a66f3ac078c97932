//! A file of records, each after a gate: it is made in stages, and gets one record after another. A crash at any moment
//! leaves the records from before a call or those from after it.
#![tactic(auto)]

mod appending;
mod creating;
mod faults;
mod header;
mod opening;
mod reading;
mod room;
mod writes;

pub use appending::append;
pub use faults::FileFault;
pub use header::{HEADER_LEN, Header, is_fresh, is_titled};
pub use opening::open;
pub use reading::read_file;
pub use room::Room;
