//! Cells in pages.

ghost use Rattle.std.specs.Prelude.{◌≡◌, ◌+◌, ◌*◌, ◌<◌, ◌^◌, ℕ, [], All, IfOk, OnOk, length, map, min, slice_index, slice_range, slice_set, true, vec_len};
ghost use Rattle.soup_cells.specs.Soup.{is_ready};
ghost use Rattle.soup_cells.specs.Pages.{page_cells};
ghost use Rattle.soup_cells.specs.declared.page.TheConstants.{PAGE};

use crate::page::{PAGE_LEN, Page};
use std::alloc::Global;
use std::marker::Model;
use tierra_model::OutOfMemory;

/// The cells of a soup, in pages. A cell is made ready before it is set.
#[derive(Drop)]
pub(crate) struct Pages {
    size: u32,
    pages: Vec<Page>,
    // the pages that are not shared. A page that finds no room here stays unshared, so `copy` copies its cells.
    unshared: Vec<usize>,
}

impl Model for Pages {
    ghost use Rattle.std.specs.Prelude.{map};
    ghost use Rattle.soup_cells.specs.Soup.{SoupFields};
    ghost use Rattle.soup_cells.specs.Pages.{AreCells, cells_of, is_own, page_cells};

    ghost Value = { SoupFields };

    ghost view = { λ s. record { cells = cells_of s.pages.items; own = map is_own s.pages.items } };

    ghost invariant = { λ s. AreCells s.size (map page_cells s.pages.items) };
}

impl Pages {
    /// No cells. It takes no memory.
    pub(crate) fn none(alloc: Global) -> Pages
        ensures { result.cells ≡ [] }
    {
        Pages {
            size: 0,
            pages: Vec::new(alloc),
            unshared: Vec::new(alloc),
        }
    }

    pub(crate) fn allocator(&self) -> Global {
        *self.pages.allocator()
    }

    /// The cells, cut into pages.
    pub(crate) fn cut(alloc: Global, cells: &[u8]) -> Result<Pages, OutOfMemory>
        requires small { length cells.now < 2 ^ 32 }
        requires codes { All (λ v. v < 32) cells.now }
        ensures { IfOk result (λ s. s.cells ≡ cells.now) }
    {
        let count = cells.len().div_ceil(PAGE_LEN);
        let mut pages = Vec::with_capacity(alloc, count)?;
        let mut unshared = Vec::with_capacity(alloc, count)?;
        for number in 0..count {
            let start = PAGE_LEN * number;
            let end = cells.len().min(start + PAGE_LEN);
            pages.push(Page::Own(Vec::from_slice(alloc, &cells[start..end])?))?;
            unshared.push(number)?;
        }
        Ok(Pages {
            size: cells.len() as u32,
            pages,
            unshared,
        })
    }

    /// The instruction's code in a cell.
    pub(crate) fn get(&self, at: u32) -> u8
        requires { at < length self.now.cells }
        ensures value { result ≡ slice_index self.now.cells at }
        ensures code { result < 32 }
    {
        let at = at as usize;
        self.pages[at / PAGE_LEN].get(at % PAGE_LEN)
    }

    /// Makes a cell ready, so that it can be set without memory.
    pub(crate) fn ready(&mut self, at: u32) -> Result<(), OutOfMemory>
        requires { at < length self.old.cells }
        ensures cells { self.new.cells ≡ self.old.cells }
        ensures ok { OnOk result (is_ready self.new at ≡ true) }
        ensures kept { (p : ℕ) → is_ready self.old p ≡ true → is_ready self.new p ≡ true }
    {
        note_shared(&mut self.unshared, &self.pages, at as usize / PAGE_LEN);
        self.pages[at as usize / PAGE_LEN].make_own()
    }

    /// Sets a cell that is ready.
    pub(crate) fn set(&mut self, at: u32, value: u8)
        requires within { at < length self.old.cells }
        requires ready { is_ready self.old at ≡ true }
        requires code { value < 32 }
        ensures cells { self.new.cells ≡ slice_set self.old.cells at value }
        ensures ready { (p : ℕ) → is_ready self.new p ≡ is_ready self.old p }
    {
        let at = at as usize;
        self.pages[at / PAGE_LEN].set(at % PAGE_LEN, value);
    }

    /// How many cells there are.
    pub(crate) fn size(&self) -> u32
        ensures { result ≡ length self.now.cells }
    {
        self.size
    }

    /// The cells of a page: `PAGE`, or fewer on the last page.
    pub(crate) fn page(&self, number: u32) -> &[u8]
        requires { PAGE * number < length self.now.cells }
        ensures cells { result.now ≡ slice_range self.now.cells (PAGE * number)
            (min (PAGE * number + PAGE) (length self.now.cells)) }
        ensures codes { (p : ℕ) → p < length result.now → slice_index result.now p < 32 }
    {
        self.pages[number as usize].cells()
    }

    /// Makes the pages in `unshared` shared, so that a copy copies none of their cells.
    pub(crate) fn share(&mut self) -> Result<(), OutOfMemory>
        ensures { self.new.cells ≡ self.old.cells }
    {
        share_some(&mut self.pages, &self.unshared)?;
        self.unshared.clear();
        Ok(())
    }

    /// Pages with the same cells. Those that are shared are not copied.
    pub(crate) fn copy(&self) -> Result<Pages, OutOfMemory>
        ensures { IfOk result (λ p. p.cells ≡ self.now.cells) }
    {
        let pages = copies(&self.pages)?;
        let unshared = self.unshared.clone()?;
        Ok(Pages {
            size: self.size,
            pages,
            unshared,
        })
    }
}

// Notes the number of a page that is shared, before it is made the soup's own.
fn note_shared(unshared: &mut Vec<usize>, pages: &[Page], number: usize) {
    if let Some(Page::Shared(_)) = pages.get(number) {
        let _noted: Result<_, _> = unshared.push(number);
    }
}

// Makes the pages of these numbers shared.
fn share_some(pages: &mut Vec<Page>, numbers: &[usize]) -> Result<(), OutOfMemory>
    ensures { map page_cells pages.new.items ≡ map page_cells pages.old.items }
{
    for number in numbers {
        if *number < pages.len() {
            share_at(pages, *number)?;
        }
    }
    Ok(())
}

fn share_at(pages: &mut Vec<Page>, i: usize) -> Result<(), OutOfMemory>
    requires { i < vec_len pages.old }
    ensures cells { map page_cells pages.new.items ≡ map page_cells pages.old.items }
    ensures len { vec_len pages.new ≡ vec_len pages.old }
{
    pages[i].share()
}

fn copies(pages: &Vec<Page>) -> Result<Vec<Page>, OutOfMemory>
    ensures { IfOk result (λ v. map page_cells v.items ≡ map page_cells pages.now.items) }
{
    let mut copies = Vec::with_capacity(*pages.allocator(), pages.len())?;
    for page in pages {
        copies.push(page.copy()?)?;
    }
    Ok(copies)
}
