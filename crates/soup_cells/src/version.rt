//! Versions of a soup.

ghost use Rattle.std.specs.Prelude.{◌≡◌, ◌+◌, ◌*◌, ◌<◌, ℕ, length, min, slice_index, slice_range};
ghost use Rattle.std.specs.Arc.{arc_value};
ghost use Rattle.soup_cells.specs.declared.page.TheConstants.{PAGE};

use crate::pages::Pages;
use std::marker::Model;
use std::sync::Arc;

/// The cells of a soup at one time. They never change.
#[derive(Drop)]
pub struct Version {
    pages: Arc<Pages>,
}

impl Model for Version {
    ghost use Rattle.std.specs.Prelude.{List, ℕ};
    ghost use Rattle.std.specs.Arc.{arc_value};

    ghost Value = { List ℕ };

    ghost view = { λ v. (arc_value v.pages).cells };
}

impl Version {
    pub(crate) fn of(pages: Arc<Pages>) -> Version
        ensures { result ≡ (arc_value pages).cells }
    {
        Version { pages }
    }

    /// The instruction's code in a cell.
    pub fn get(&self, at: u32) -> u8
        requires { at < length self.now }
        ensures value { result ≡ slice_index self.now at }
        ensures code { result < 32 }
    {
        self.pages.get(at)
    }

    /// How many cells there are.
    pub fn size(&self) -> u32
        ensures { result ≡ length self.now }
    {
        self.pages.size()
    }

    /// The cells of a page: `PAGE`, or fewer on the last page.
    pub fn page(&self, number: u32) -> &[u8]
        requires { PAGE * number < length self.now }
        ensures cells { result.now
            ≡ slice_range self.now (PAGE * number) (min (PAGE * number + PAGE) (length self.now)) }
        ensures codes { (p : ℕ) → p < length result.now → slice_index result.now p < 32 }
    {
        self.pages.page(number)
    }
}
