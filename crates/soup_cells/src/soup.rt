//! The soup.

ghost use Rattle.std.specs.Prelude.{◌≡◌, ◌<◌, ℕ, IfErr, List, IfOk, OnOk, Some, length, replicate, slice_index, slice_set, true};
ghost use Rattle.std.specs.Arc.{arc_value};
ghost use Rattle.soup_cells.specs.Soup.{is_ready};
ghost use Rattle.soup_cells.specs.Paging.{AreIn, cells_in, has_own, is_cut, soup_of};

use crate::pages::Pages;
use crate::row::Row;
use crate::version::Version;
use std::alloc::{AllocError, Global};
use std::marker::Model;
use std::mem;
use std::sync::Arc;
use tierra_model::OutOfMemory;

/// The cells of a soup. A cell is made ready before it is set; a version that is taken leaves no cell ready.
#[derive(Drop)]
pub struct Soup {
    row: Row,
    paging: Paging,
}

/// The same cells in pages, which versions share. The first version cuts the cells into pages, and from then on each
/// cell is set in the row and in its page. To set a cell, the soup takes the pages back.
#[derive(Drop)]
pub(crate) enum Paging {
    Uncut,
    Own(Pages),
    Shared(Arc<Pages>),
}

impl Model for Soup {
    ghost use Rattle.soup_cells.specs.Soup.{SoupFields};
    ghost use Rattle.soup_cells.specs.Paging.{AreIn, soup_of};

    ghost Value = { SoupFields };

    ghost view = { λ s. soup_of s.row s.paging };

    ghost invariant = { λ s. AreIn s.row s.paging };
}

impl Soup {
    /// A soup of `size` cells, all 0.
    pub fn new(alloc: Global, size: u32) -> Result<Soup, OutOfMemory>
        ensures { IfOk result (λ s. s.cells ≡ replicate size 0) }
    {
        Ok(Soup {
            row: Row::new(alloc, size)?,
            paging: Paging::Uncut,
        })
    }

    /// The instruction's code in a cell.
    #[inline]
    pub fn get(&self, at: u32) -> u8
        requires { at < length self.now.cells }
        ensures value { result ≡ slice_index self.now.cells at }
        ensures code { result < 32 }
    {
        self.row.get(at)
    }

    /// All cells.
    #[inline]
    pub fn row(&self) -> &[u8]
        ensures { result.now ≡ self.now.cells }
    {
        self.row.cells()
    }

    /// Makes a cell ready, so that it can be set without memory.
    pub fn ready(&mut self, at: u32) -> Result<(), OutOfMemory>
        requires { at < length self.old.cells }
        ensures cells { self.new.cells ≡ self.old.cells }
        ensures ok { OnOk result (is_ready self.new at ≡ true) }
        ensures kept { (p : ℕ) → is_ready self.old p ≡ true → is_ready self.new p ≡ true }
    {
        make_own(&mut self.paging)?;
        match &mut self.paging {
            Paging::Uncut => Ok(()),
            Paging::Own(pages) => pages.ready(at),
            Paging::Shared(_) => unreachable!(),
        }
    }

    #[tactic(auto, unfolding(crate::specs::Soup::is_ready))]
    /// Sets a cell that is ready.
    #[inline]
    pub fn set(&mut self, at: u32, value: u8)
        requires within { at < length self.old.cells }
        requires ready { is_ready self.old at ≡ true }
        requires code { value < 32 }
        ensures cells { self.new.cells ≡ slice_set self.old.cells at value }
        ensures ready { (p : ℕ) → is_ready self.new p ≡ is_ready self.old p }
    {
        self.row.set(at, value);
        match &mut self.paging {
            Paging::Uncut => {}
            Paging::Own(pages) => pages.set(at, value),
            Paging::Shared(_) => unreachable!(),
        }
    }

    /// The cells as they are now, which the version keeps for good. No cell need be ready afterwards. Only the first
    /// version copies the cells.
    pub fn version(&mut self) -> Result<Version, OutOfMemory>
        ensures cells { self.new.cells ≡ self.old.cells }
        ensures ok { IfOk result (λ v. v ≡ self.old.cells) }
    {
        let pages = share(&self.row, &mut self.paging)?;
        Ok(Version::of(pages))
    }
}

// Makes the pages of the row shared, and gives one more owner of them.
fn share(row: &Row, paging: &mut Paging) -> Result<Arc<Pages>, OutOfMemory>
    requires { AreIn row.now paging.old }
    ensures cells { AreIn row.now paging.new }
    ensures ok { IfOk result (λ a. (arc_value a).cells ≡ row.now) }
{
    if let Paging::Uncut = paging {
        *paging = Paging::Own(row.cut()?);
    }
    share_pages(paging)
}

// Makes pages that are cut shared, and gives one more owner of them. No cell is copied.
fn share_pages(paging: &mut Paging) -> Result<Arc<Pages>, OutOfMemory>
    requires { is_cut paging.old ≡ true }
    ensures cells { cells_in paging.new ≡ cells_in paging.old }
    ensures ok { IfOk result (λ a. Some (arc_value a).cells ≡ cells_in paging.old) }
{
    match paging {
        Paging::Uncut => unreachable!(),
        Paging::Shared(pages) => Arc::try_clone(pages),
        Paging::Own(pages) => {
            pages.share()?;
            let alloc = pages.allocator();
            let pages = mem::replace(pages, Pages::none(alloc));
            match Arc::new(alloc, pages) {
                Ok(pages) => {
                    let other = Arc::try_clone(&pages);
                    *paging = Paging::Shared(pages);
                    other
                }
                Err(refused) => {
                    *paging = Paging::Own(refused.value);
                    Err(AllocError)
                }
            }
        }
    }
}

#[tactic(auto, unfolding(crate::specs::Soup::is_ready))]
// Takes the pages back. The list of pages is copied only if a version still has it, and cells of shared pages never.
fn make_own(paging: &mut Paging) -> Result<(), OutOfMemory>
    ensures cells { cells_in paging.new ≡ cells_in paging.old }
    ensures ok { OnOk result (has_own paging.new ≡ true) }
    ensures kept { (row : List ℕ) (p : ℕ) → is_ready (soup_of row paging.old) p ≡ true
        → is_ready (soup_of row paging.new) p ≡ true }
{
    if let Paging::Shared(pages) = paging {
        let none = Paging::Own(Pages::none(pages.allocator()));
        if let Paging::Shared(pages) = mem::replace(paging, none) {
            match taken_back(pages) {
                Ok(pages) => *paging = Paging::Own(pages),
                Err(pages) => {
                    *paging = Paging::Shared(pages);
                    return Err(AllocError);
                }
            }
        }
    }
    Ok(())
}

// Pages that were shared, as the soup's own. Without memory they are given back.
fn taken_back(pages: Arc<Pages>) -> Result<Pages, Arc<Pages>>
    ensures ok { IfOk result (λ p. p.cells ≡ (arc_value pages).cells) }
    ensures err { IfErr result (λ a. (arc_value a).cells ≡ (arc_value pages).cells) }
{
    match Arc::try_unwrap(pages) {
        Ok(pages) => Ok(pages),
        Err(pages) => match pages.copy() {
            Ok(pages) => Ok(pages),
            Err(_) => Err(pages),
        },
    }
}
