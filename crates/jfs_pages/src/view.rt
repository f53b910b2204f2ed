//! The cache as a view of pages.

ghost use Rattle.std.specs.Prelude.{map};
ghost use Rattle.jfs_pages.specs.Kept.{image_in, dirty_in, pending_of};
ghost use Rattle.jfs_pages.specs.Whole.{whole_in};
ghost use Rattle.jfs_ranges.specs.View.{device_of};
ghost use Rattle.jfs_disk.specs.declared.disk.Part.TheVariants.{Low};

use crate::cache::PageCache;
use jfs_disk::{Disk, Page};
use jfs_ranges::{PageView, ViewError};

impl<D: Disk> PageView for PageCache<D> {
    ghost block_count = { λ cache. cache.blocks };

    ghost faults = { λ cache. record { part = Low; count = D.fault_count cache.disk } };

    ghost image = { λ cache. image_in cache.blocks (D.image cache.disk) cache.kept };

    ghost tells = { D.tells };

    ghost crashes = { D.tells_crashes };

    ghost device = { λ cache. record (device_of D.Disk cache.disk) { pending = map pending_of (dirty_in cache.kept) } };

    fn blocks(&self) -> u32 {
        self.blocks
    }

    fn page(&mut self, n: u32) -> Result<&Page, ViewError> {
        self.get(n)
    }

    ghost has_pages = { λ cache tells. whole_in cache.blocks (D.page_count cache.disk) (D.image cache.disk) cache.kept cache.place (D.has_pages cache.disk tells) };
}
