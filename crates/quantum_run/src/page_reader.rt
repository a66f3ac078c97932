//! Looks into a version of the soup, page by page.

ghost use Rattle.std.specs.Prelude.{◌≡◌, ◌<◌, length, slice_index};

use soup_cells::{PAGE, Version};
use std::marker::Model;

/// A version of the soup, with the page that was read last kept at hand, since most looks are near the one before.
#[derive(Drop)]
pub(crate) struct PageReader<'a> {
    version: &'a Version,
    page: &'a [u8],
    // the first cell of the page
    first: u32,
}

impl<'a> Model for PageReader<'a> {
    ghost use Rattle.std.specs.Prelude.{List, ℕ};
    ghost use Rattle.quantum_run.specs.Pages.{HasPage};

    ghost Value = { List ℕ };

    ghost view = { λ r. r.version.now };

    ghost invariant = { λ r. HasPage r.version.now r.first r.page.now };
}

impl<'a> PageReader<'a> {
    /// No page is at hand yet.
    pub(crate) fn of(version: &'a Version) -> PageReader<'a>
        ensures { result ≡ version.now }
    {
        PageReader {
            version,
            page: &[],
            first: 0,
        }
    }

    /// How many cells there are.
    pub(crate) fn size(&self) -> u32
        ensures { result ≡ length self.now }
    {
        self.version.size()
    }

    /// The instruction's code in a cell.
    #[inline(always)]
    pub(crate) fn get(&mut self, at: u32) -> u8
        requires { at < length self.old }
        ensures value { result ≡ slice_index self.old at }
        ensures code { result < 32 }
        ensures same { self.new ≡ self.old }
    {
        if at >= self.first {
            if let Some(value) = self.page.get((at - self.first) as usize) {
                return *value;
            }
        }
        self.turn_to(at)
    }

    // The code in a cell of another page, which is then at hand. It is a function of its own, so that a look into the
    // page at hand is inlined.
    #[cold]
    #[inline(never)]
    fn turn_to(&mut self, at: u32) -> u8
        requires { at < length self.old }
        ensures value { result ≡ slice_index self.old at }
        ensures code { result < 32 }
        ensures same { self.new ≡ self.old }
    {
        let number = at / PAGE;
        self.first = PAGE * number;
        self.page = self.version.page(number);
        self.version.get(at)
    }
}
