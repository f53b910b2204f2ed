//! A view with a transaction on top of it.

ghost use Rattle.std.specs.Prelude.{◌≡◌, ◌<◌, ◌⊎◌, OnOk};
ghost use Rattle.jfs_disk.specs.Image.{page_of};
ghost use Rattle.jfs_ranges.specs.Apply.{apply_tx};
ghost use Rattle.jfs_ranges.specs.Laid.{laid, laid_whole, on_loan};
ghost use Rattle.jfs_ranges.specs.View.{CarriesCount};

use crate::edit::Tx;
use crate::put::apply;
use crate::view::{PageView, ViewError};
use jfs_disk::Page;

/// The pages that a view shows, after a transaction: calls that are made on it stand on top of that transaction. It keeps the page that it lent last.
#[derive(Drop)]
pub struct Over<'a, V: PageView> {
    view: &'a mut V,
    tx: &'a Tx,
    page: Page,
}

impl<'a, V: PageView> Over<'a, V> {
    /// The view with this transaction on top.
    pub fn new(view: &'a mut V, tx: &'a Tx) -> Over<'a, V>
        ensures loan { result.view.ghost_name ≡ view.entry.ghost_name }
        ensures view { result.view.now ≡ view.old }
        ensures tx { result.tx.now ≡ tx.now }
    {
        Over {
            view,
            tx,
            page: Page::zeros(),
        }
    }

    /// Page `n` is the one that is kept.
    fn load(&mut self, n: u32) -> Result<(), ViewError>
        requires { n < V.PageView.block_count self.old.view.now }
        ensures held { V.PageView.tells → OnOk result (self.new.page.0 ≡ apply_tx n self.old.tx.now (page_of (V.PageView.image self.old.view.now) n)) }
        ensures tx { self.new.tx.now ≡ self.old.tx.now }
        ensures loan { self.new.view.ghost_name ≡ self.old.view.ghost_name }
        ensures blocks { V.PageView.block_count self.new.view.now ≡ V.PageView.block_count self.old.view.now }
        ensures image { V.PageView.tells → V.PageView.image self.new.view.now ≡ V.PageView.image self.old.view.now }
        ensures device { V.PageView.device self.new.view.now ≡ V.PageView.device self.old.view.now }
        ensures fault { CarriesCount (V.PageView.faults self.old.view.now) (V.PageView.faults self.new.view.now) result }
    {
        match self.view.page(n) {
            Ok(page) => {
                self.page.0.copy_from_slice(page.bytes());
                apply(self.tx, n, &mut self.page);
                Ok(())
            }
            Err(e) => Err(e),
        }
    }
}

impl<'a, V: PageView> PageView for Over<'a, V> {
    ghost block_count = { λ over. V.PageView.block_count over.view.now };

    ghost faults = { λ over. V.PageView.faults over.view.now };

    ghost image = { λ over. laid (V.PageView.block_count over.view.now) over.tx.now (V.PageView.image over.view.now) };

    ghost tells = { V.PageView.tells };

    ghost crashes = { Unit {0} ⊎ (V.PageView.tells ⊎ V.PageView.crashes) };

    ghost device = { λ over. on_loan (V.PageView.device over.view.now) (V.PageView.image over.view.now) over.view.ghost_name };

    fn blocks(&self) -> u32 {
        self.view.blocks()
    }

    fn page(&mut self, n: u32) -> Result<&Page, ViewError> {
        self.load(n)?;
        Ok(&self.page)
    }

    ghost has_pages = { λ over tells. laid_whole (V.PageView.block_count over.view.now) over.tx.now (V.PageView.image over.view.now) (V.PageView.has_pages over.view.now tells) };
}
