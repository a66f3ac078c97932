//! Soup files: the setup of a TOML document.
#![tactic(auto)]

mod creatures;
mod fault;
mod key;
mod laws;
mod reading;
mod settings;
mod value;

pub use fault::FileFault;
pub use laws::{one_creature_is_grown, soup_files_are_clear};
pub use reading::read_setup;
