//! A view of pages in memory.

ghost use Rattle.std.specs.Prelude.{◌≡◌, ◌≤◌, ◌<◌, ◌^◌, ℕ, length, get_or};
ghost use Rattle.jfs_disk.specs.Image.{page_of};
ghost use Rattle.jfs_disk.specs.Pages.{contents};
ghost use Rattle.jfs_ranges.specs.View.{AreWhole, no_device};
ghost use Rattle.jfs_disk.specs.declared.disk.Part.TheVariants.{Low};

use jfs_disk::{Page, PageList};
use jfs_ranges::{PageView, ViewError};

/// A view of pages in memory, which tells their contents and never fails. The first so many are the file system part.
#[derive(Clone, Copy)]
pub struct ListView<'a> {
    pages: &'a PageList,
    blocks: u32,
    ghost few: { length pages.now < 2 ^ 32 },
    ghost within: { blocks ≤ length pages.now },
    ghost whole: { AreWhole blocks (contents pages.now) },
}

impl<'a> ListView<'a> {
    /// The pages, of which the first so many are the file system part.
    pub fn new(pages: &'a PageList, blocks: u32) -> ListView<'a>
        requires few { length pages.now < 2 ^ 32 }
        requires within { blocks ≤ length pages.now }
        ensures image { ⟦<ListView<'a> as PageView>⟧.image result ≡ contents pages.now }
        ensures blocks { ⟦<ListView<'a> as PageView>⟧.block_count result ≡ blocks }
    {
        for page in pages.as_slice() {
            let _bytes = page.bytes();
        }
        ListView { pages, blocks }
    }

    /// How many pages there are, also behind the file system part.
    pub fn len(&self) -> u32
        ensures { result ≡ length (⟦<ListView<'a> as PageView>⟧.image self.now) }
    {
        self.pages.len() as u32
    }

    /// A byte of a page; 0 where there is no such page.
    pub fn byte(&self, n: u32, at: usize) -> u8
        requires { at < 4096 }
        ensures { result ≡ get_or (page_of (⟦<ListView<'a> as PageView>⟧.image self.now) n) at 0 }
    {
        match self.pages.get(n as usize) {
            Some(page) => page.bytes()[at],
            None => 0,
        }
    }
}

impl<'a> PageView for ListView<'a> {
    ghost block_count = { λ view. view.blocks };

    ghost faults = { λ view. record { part = Low; count = 0 } };

    ghost image = { λ view. contents view.pages.now };

    ghost tells = { Unit {0} };

    ghost crashes = { Unit {0} };

    ghost device = { λ view. no_device };

    ghost has_pages = { λ view told. view.whole };

    fn blocks(&self) -> u32 {
        self.blocks
    }

    fn page(&mut self, n: u32) -> Result<&Page, ViewError> {
        Ok(&self.pages.as_slice()[n as usize])
    }
}
