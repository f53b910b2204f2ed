//! A view of which so many pages may be asked for.

ghost use Rattle.std.specs.Prelude.{◌≡◌, ◌⊎◌};
ghost use Rattle.jfs_ranges.specs.Laid.{on_loan};

use jfs_disk::Page;
use jfs_ranges::{PageView, ViewError};

/// The pages of a view, of which so many may still be asked for. Any more are answered as want of memory: so what is done over the view ends, whatever the pages hold.
#[derive(Drop)]
pub(crate) struct Metered<'a, V: PageView> {
    view: &'a mut V,
    left: u64,
}

impl<'a, V: PageView> Metered<'a, V> {
    /// The view, of which so many pages may be asked for.
    pub(crate) fn new(view: &'a mut V, most: u64) -> Metered<'a, V>
        ensures loan { result.view.ghost_name ≡ view.entry.ghost_name }
        ensures view { result.view.now ≡ view.old }
    {
        Metered { view, left: most }
    }
}

impl<'a, V: PageView> PageView for Metered<'a, V> {
    ghost block_count = { λ metered. V.PageView.block_count metered.view.now };

    ghost faults = { λ metered. V.PageView.faults metered.view.now };

    ghost image = { λ metered. V.PageView.image metered.view.now };

    ghost tells = { V.PageView.tells };

    ghost crashes = { Unit {0} ⊎ (V.PageView.tells ⊎ V.PageView.crashes) };

    ghost device = { λ metered. on_loan (V.PageView.device metered.view.now) (V.PageView.image metered.view.now) metered.view.ghost_name };

    fn blocks(&self) -> u32 {
        self.view.blocks()
    }

    fn page(&mut self, n: u32) -> Result<&Page, ViewError> {
        if self.left == 0 {
            return Err(ViewError::Memory);
        }
        self.left -= 1;
        self.view.page(n)
    }

    ghost has_pages = { λ metered tells. V.PageView.has_pages metered.view.now tells };
}
