//! The cells of a soup, and unchanging versions of them, which share pages.
#![tactic(auto)]

mod page;
mod pages;
mod row;
mod soup;
mod version;

pub use page::PAGE;
pub use soup::Soup;
pub use version::Version;
