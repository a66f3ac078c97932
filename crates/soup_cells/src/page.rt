//! Pages of cells.

ghost use Rattle.std.specs.Prelude.{◌≡◌, ◌<◌, true, IfErr, IfOk, OnOk, length, slice_index, slice_set};
ghost use Rattle.soup_cells.specs.Pages.{page_cells, shared_cells, is_own};

use std::alloc::AllocError;
use std::mem;
use std::sync::Arc;
use tierra_model::OutOfMemory;

/// How many cells a page has. The last of a soup may have fewer.
pub const PAGE: u32 = 4096;

/// `PAGE` as an index.
pub(crate) const PAGE_LEN: usize = PAGE as usize;

/// A page of a soup: the soup's own, so that its cells can be set, or one that versions have too.
#[derive(Drop)]
pub(crate) enum Page {
    Own(Vec<u8>),
    Shared(Arc<Vec<u8>>),
}

impl Page {
    pub(crate) fn get(&self, place: usize) -> u8
        requires { place < length (page_cells self.now) }
        ensures { result ≡ slice_index (page_cells self.now) place }
    {
        match self {
            Page::Own(cells) => cells[place],
            Page::Shared(cells) => cells[place],
        }
    }

    pub(crate) fn set(&mut self, place: usize, value: u8)
        requires own { is_own self.old ≡ true }
        requires within { place < length (page_cells self.old) }
        ensures cells { page_cells self.new ≡ slice_set (page_cells self.old) place value }
        ensures own { is_own self.new ≡ true }
    {
        match self {
            Page::Own(cells) => cells[place] = value,
            Page::Shared(_) => unreachable!(),
        }
    }

    /// The cells of the page.
    pub(crate) fn cells(&self) -> &[u8]
        ensures { result.now ≡ page_cells self.now }
    {
        match self {
            Page::Own(cells) => cells.as_slice(),
            Page::Shared(cells) => cells.as_slice(),
        }
    }

    /// The same page once more. Where it is shared, no cell is copied.
    pub(crate) fn copy(&self) -> Result<Page, OutOfMemory>
        ensures { IfOk result (λ p. page_cells p ≡ page_cells self.now) }
    {
        match self {
            Page::Own(cells) => Ok(Page::Own(cells.clone()?)),
            Page::Shared(cells) => Ok(Page::Shared(Arc::try_clone(cells)?)),
        }
    }

    /// Makes the page shared. No cell is copied.
    pub(crate) fn share(&mut self) -> Result<(), OutOfMemory>
        ensures { page_cells self.new ≡ page_cells self.old }
    {
        if let Page::Own(cells) = self {
            let alloc = *cells.allocator();
            let cells = mem::replace(cells, Vec::new(alloc));
            match Arc::new(alloc, cells) {
                Ok(cells) => *self = Page::Shared(cells),
                Err(refused) => {
                    *self = Page::Own(refused.value);
                    return Err(AllocError);
                }
            }
        }
        Ok(())
    }

    /// Makes the page the soup's own. The cells are copied only if a version still has the page.
    pub(crate) fn make_own(&mut self) -> Result<(), OutOfMemory>
        ensures cells { page_cells self.new ≡ page_cells self.old }
        ensures ok { OnOk result (is_own self.new ≡ true) }
        ensures kept { is_own self.old ≡ true → is_own self.new ≡ true }
    {
        if let Page::Shared(cells) = self {
            let none = Page::Own(Vec::new(*cells.allocator()));
            if let Page::Shared(cells) = mem::replace(self, none) {
                match taken_back(cells) {
                    Ok(cells) => *self = Page::Own(cells),
                    Err(cells) => {
                        *self = Page::Shared(cells);
                        return Err(AllocError);
                    }
                }
            }
        }
        Ok(())
    }
}

// The cells of a page that was shared. Without memory the page is given back.
fn taken_back(page: Arc<Vec<u8>>) -> Result<Vec<u8>, Arc<Vec<u8>>>
    ensures ok { IfOk result (λ v. v.items ≡ shared_cells page) }
    ensures err { IfErr result (λ a. shared_cells a ≡ shared_cells page) }
{
    match Arc::try_unwrap(page) {
        Ok(cells) => Ok(cells),
        Err(page) => match page.to_vec(*page.allocator()) {
            Ok(cells) => Ok(cells),
            Err(_) => Err(page),
        },
    }
}
