//! The pages of the block map's file.

ghost use Rattle.std.specs.Prelude.{◌≡◌, ◌≤◌, ◌*◌, length};
ghost use Rattle.jfs_dmapctl.specs.Control.{IsControl};
ghost use Rattle.jfs_bmap.specs.Set.{taken_at};
ghost use Rattle.jfs_bmap.specs.MapFile.{AreGroups, IsFirstPage, IsDmapPage, IsMapPage, is_in_use, pages_of};

use crate::map_pages::MapPages;
use jfs_disk::Page;
use jfs_dmap::dmap_canonical;
use jfs_dmapctl::{ctl_canonical, write_map_control};

impl MapPages {
    /// The number of pages of the file.
    pub fn file_pages(&self) -> u32
        ensures { result ≡ pages_of (length self.now) }
    {
        4 + self.blocks().div_ceil(8192)
    }

    /// Whether page `n` of the file is in use. The pages of levels above the highest in use, 1 and 2, aren't: `format` alone
    /// writes them.
    pub fn is_in_use(&self, n: u32) -> bool
        ensures { result ≡ is_in_use (length self.now) n }
    {
        n == 0 || (3 <= n && n < self.file_pages())
    }

    /// Writes page `n` of the file in its canonical form: the map's control page, the control pages of levels 2, 1 and 0, then the
    /// dmaps; one past the last has no block.
    pub fn write_page(&self, agsize: u32, n: u32, page: &mut Page)
        requires { AreGroups (length self.now) agsize }
        ensures { IsMapPage (length self.now) agsize (taken_at self.now) n page.new.0 }
    {
        match n {
            0 => self.write_first(agsize, page),
            1 => write_unused(2, page),
            2 => write_unused(1, page),
            3 => page.0 = self.control.0,
            _ => self.write_dmap(n - 4, page),
        }
    }

    /// Writes the control page of the whole map.
    fn write_first(&self, agsize: u32, page: &mut Page)
        requires { AreGroups (length self.now) agsize }
        ensures { IsFirstPage (length self.now) agsize (taken_at self.now) page.new.0 }
    {
        page.0.fill(0);
        write_map_control(page, &self.numbers(agsize));
    }

    /// Writes dmap `k`.
    fn write_dmap(&self, k: u32, page: &mut Page)
        ensures { IsDmapPage (length self.now) (taken_at self.now) k page.new.0 }
    {
        match self.dmaps.get(k as usize) {
            Some(dmap) => page.0 = dmap.0,
            None => dmap_canonical(&[0; 1024], 8192 * u64::from(k), 0, page),
        }
    }
}

/// Writes a control page of a level that isn't in use.
pub fn write_unused(level: u32, page: &mut Page)
    requires { level ≤ 2 }
    ensures { IsControl level (λ v. 0) page.new.0 }
{
    ctl_canonical(&[-1; 1024], level, page);
}
