//! The first blocks of a volume's cache as a view of pages.

ghost use Rattle.std.specs.Prelude.{◌≡◌, ◌≤◌, ◌<◌, ◌⊎◌, OnOk};
ghost use Rattle.jfs_disk.specs.Image.{page_of};
ghost use Rattle.jfs_ranges.specs.View.{CarriesCount};
ghost use Rattle.jfs_disk.specs.declared.disk.Part.TheVariants.{Low};
ghost use Rattle.jfs_pages.specs.Kept.{image_in};
ghost use Rattle.jfs_pages.specs.Whole.{whole_in};
ghost use Rattle.jfs_volume.specs.Lent.{lent, first_whole};

use jfs_disk::{Disk, Page};
use jfs_pages::PageCache;
use jfs_ranges::{PageView, ViewError};

/// The blocks of the file system part, which are the first ones of the low part, as a view over the cache that keeps the whole low part. It lends a copy of a page.
#[derive(Drop)]
pub struct Front<'a, D: Disk> {
    cache: &'a mut PageCache<D>,
    blocks: u32,
    page: Page,
    ghost place: { blocks ≤ cache.now.blocks },
}

impl<'a, D: Disk> Front<'a, D> {
    pub fn new(cache: &'a mut PageCache<D>, blocks: u32) -> Front<'a, D>
        requires { blocks ≤ cache.old.blocks }
        ensures loan { result.cache.ghost_name ≡ cache.entry.ghost_name }
        ensures cache { result.cache.now ≡ cache.old }
        ensures blocks { result.blocks ≡ blocks }
    {
        Front {
            cache,
            blocks,
            page: Page::zeros(),
        }
    }

    /// Page `n` is the one that is kept.
    fn load(&mut self, n: u32) -> Result<(), ViewError>
        requires { n < self.old.blocks }
        ensures bytes { D.tells → OnOk result (self.new.page.0 ≡ page_of (image_in self.old.cache.now.blocks (D.image self.old.cache.now.disk) self.old.cache.now.kept) n) }
        ensures blocks { self.new.blocks ≡ self.old.blocks }
        ensures image { D.tells → image_in self.new.cache.now.blocks (D.image self.new.cache.now.disk) self.new.cache.now.kept ≡ image_in self.old.cache.now.blocks (D.image self.old.cache.now.disk) self.old.cache.now.kept }
        ensures device { lent D.Disk self.new.cache.now self.new.cache.ghost_name ≡ lent D.Disk self.old.cache.now self.old.cache.ghost_name }
        ensures fault { CarriesCount (record { part = Low; count = D.fault_count self.old.cache.now.disk }) (record { part = Low; count = D.fault_count self.new.cache.now.disk }) result }
    {
        match self.cache.get(n) {
            Ok(page) => {
                self.page.0.copy_from_slice(&page.0);
                Ok(())
            }
            Err(error) => Err(error),
        }
    }
}

impl<'a, D: Disk> PageView for Front<'a, D> {
    ghost block_count = { λ view. view.blocks };

    ghost faults = { λ view. record { part = Low; count = D.fault_count view.cache.now.disk } };

    ghost image = { λ view. image_in view.cache.now.blocks (D.image view.cache.now.disk) view.cache.now.kept };

    ghost tells = { D.tells };

    ghost crashes = { Unit {0} ⊎ (D.tells ⊎ D.tells_crashes) };

    ghost device = { λ view. lent D.Disk view.cache.now view.cache.ghost_name };

    fn blocks(&self) -> u32 {
        self.blocks
    }

    fn page(&mut self, n: u32) -> Result<&Page, ViewError> {
        match self.load(n) {
            Ok(()) => Ok(&self.page),
            Err(error) => Err(error),
        }
    }

    ghost has_pages = { λ view tells. first_whole view.blocks view.cache.now.blocks (image_in view.cache.now.blocks (D.image view.cache.now.disk) view.cache.now.kept) view.place
        (whole_in view.cache.now.blocks (D.page_count view.cache.now.disk) (D.image view.cache.now.disk) view.cache.now.kept view.cache.now.place (D.has_pages view.cache.now.disk tells)) };
}
