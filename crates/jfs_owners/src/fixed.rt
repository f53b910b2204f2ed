//! What has owners outside of objects: the fixed areas and the inode extents.

ghost use Rattle.std.specs.Prelude.{◌≡◌, ◌<◌, ◌≤◌, IfOk};
ghost use Rattle.jfs_disk.specs.Image.{page_of};
ghost use Rattle.jfs_ranges.specs.View.{CarriesCount};
ghost use Rattle.jfs_findings.specs.objects.specs.Image.{area_on, file_has};
ghost use Rattle.jfs_findings.specs.meaning.specs.Readers.{readers};
ghost use Rattle.jfs_owners.specs.Counts.{Adds};
ghost use Rattle.jfs_owners.specs.Held.{areas_have};

use crate::owners::Owners;
use jfs_bits::Pxd;
use jfs_findings::reader::aggregate_root;
use jfs_ranges::{PageView, ViewError};

/// The superblocks and the aggregate's inode table and map: pages 0 to 15. (JFS Layout.)
const FRONT: Pxd = Pxd { len: 16, addr: 0 };

impl Owners {
    /// Counts pages 0 to 15, and the aggregate's second inode table and map.
    pub fn add_fixed(&mut self, table: Pxd, map: Pxd)
        ensures { Adds (areas_have table map) self.old self.new }
    {
        self.add(FRONT);
        self.add(table);
        self.add(map);
    }

    /// Counts the fixed areas: pages 0 to 15, the aggregate's second inode table and map, and what its inodes 2, 4 and 16 have (the files of the block map,
    /// of the bad blocks and of the inode map).
    ///
    /// # Errors
    ///
    /// A page could not be read, or memory ran out. Some of it may be counted then.
    pub fn add_area<V: PageView>(
        &mut self,
        view: &mut V,
        table: Pxd,
        map: Pxd,
    ) -> Result<(), ViewError>
        requires size { 15 ≤ V.PageView.block_count view.old }
        ensures image { V.PageView.tells → V.PageView.image view.new ≡ V.PageView.image view.old }
        ensures count_of_blocks { V.PageView.block_count view.new ≡ V.PageView.block_count view.old }
        ensures device { V.PageView.device view.new ≡ V.PageView.device view.old }
        ensures fault { CarriesCount (V.PageView.faults view.old) (V.PageView.faults view.new) result }
        ensures adds { V.PageView.tells → IfOk result (λ it.
            Adds (area_on (readers (V.PageView.block_count view.old)) table map (page_of (V.PageView.image view.old))) self.old self.new) }
    {
        self.add_fixed(table, map);
        self.add_file(view, 2)?;
        self.add_file(view, 4)?;
        self.add_file(view, 16)
    }

    /// Counts what inode `k` of the aggregate has, which stands on page 11 + k / 8 (JFS Layout). One whose tree breaks a rule has nothing.
    fn add_file<V: PageView>(&mut self, view: &mut V, k: u32) -> Result<(), ViewError>
        requires number { k < 32 }
        requires size { 15 ≤ V.PageView.block_count view.old }
        ensures image { V.PageView.tells → V.PageView.image view.new ≡ V.PageView.image view.old }
        ensures count_of_blocks { V.PageView.block_count view.new ≡ V.PageView.block_count view.old }
        ensures device { V.PageView.device view.new ≡ V.PageView.device view.old }
        ensures fault { CarriesCount (V.PageView.faults view.old) (V.PageView.faults view.new) result }
        ensures adds { V.PageView.tells → IfOk result (λ it.
            Adds (file_has (readers (V.PageView.block_count view.old)) (page_of (V.PageView.image view.old)) k) self.old self.new) }
    {
        match aggregate_root(view, k) {
            Ok(root) => self.add_extents(view, &root),
            Err(e) => Err(e),
        }
    }
}
