//! Pages after entries.

ghost use Rattle.std.specs.Prelude.{◌≡◌, ◌<◌, length};
ghost use Rattle.jfs_disk.specs.Image.{page_of};
ghost use Rattle.jfs_core.specs.Image.{page_after};
ghost use Rattle.jfs_disk.specs.Pages.{contents};
ghost use Rattle.jfs_core.specs.Step.{told_page};

use crate::entry::Entry;
use crate::state::CoreState;
use jfs_disk::{Page, PageList};
use jfs_ranges::apply;

impl CoreState {
    /// The page after the acknowledged entries.
    pub(crate) fn told_page(&self, page: u32) -> Page
        requires { page < length self.now.blocks }
        ensures { result.0 ≡ told_page self.now page }
    {
        let mut bytes = copy_at(&self.mounted, page as usize);
        replay(&self.history[..self.told as usize], page, &mut bytes);
        bytes
    }
}

/// Applies the entries to page `n`.
pub fn replay(history: &[Entry], n: u32, page: &mut Page)
    ensures { page.new.0 ≡ page_after n history.now page.old.0 }
{
    for entry in history {
        apply(&entry.tx, n, page);
    }
}

fn copy_at(pages: &PageList, i: usize) -> Page
    requires { i < length pages.now }
    ensures { result.0 ≡ page_of (contents pages.now) i }
{
    Page(pages.as_slice()[i].0)
}
