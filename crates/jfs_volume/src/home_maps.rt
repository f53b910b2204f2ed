//! Pages of the maps that go home.

ghost use Rattle.std.specs.Prelude.{◌≡◌, ◌<◌, ◌≤◌, ℕ, OnOk, OnErr, None, length, slice_get, true};
ghost use Rattle.jfs_bits.specs.Field.{AreBytes};
ghost use Rattle.jfs_bmap.specs.MapFile.{IsMapPage, is_in_use};
ghost use Rattle.jfs_bmap.specs.States.{is_owned};
ghost use Rattle.jfs_imap.specs.Inodes.{IsInodePage};
ghost use Rattle.jfs_pages.specs.Device.{HasFault};
ghost use Rattle.jfs_pages.specs.Dirty.{dirty_of};
ghost use Rattle.jfs_halves.specs.Parts.{OfEachHalf};
ghost use Rattle.jfs_volume.specs.MapsHome.{OfBlocks, OfInodes, page_at, stale_block_pages, stale_inode_pages, GoHome, MapsHome, KeepsMemory, KeepsPlaces, ShowsAfter, with_written, with_blocks_written, with_inodes_written};
ghost use Rattle.jfs_volume.specs.Settles.{HaltsAt};
ghost use Rattle.jfs_volume.specs.Shown.{PutsPage, PutsMap, Spoils, StaysElse};

use crate::volume::Volume;
use jfs_disk::{Disk, Fault, Page};

impl<D: Disk> Volume<D> {
    /// Writes each page in use of a map that has changed since its pages were written, in its canonical form. It takes no memory.
    ///
    /// # Errors
    ///
    /// A write failed, and the volume halts.
    pub fn home_maps(&mut self) -> Result<(), Fault>
        requires running { self.old.halted ≡ None }
        requires told { self.old.told ≡ self.old.appended }
        requires clean { (p : ℕ) → dirty_of self.old.dirty p ≡ None }
        ensures home { OfEachHalf D.tells D.tells_crashes self.old (λ seen asked half. MapsHome seen asked self.old self.new half result) }
        ensures shows { D.tells → ShowsAfter self.old self.new }
        ensures places { KeepsPlaces self.old self.new }
        ensures written { OnOk result (self.new.files ≡ with_written self.old.files) }
        ensures memory { KeepsMemory self.old self.new }
        ensures halts { HaltsAt self.old.halted self.new.halted result }
        ensures halted { OnOk result (self.new.halted ≡ None) }
        ensures cause { HasFault self.old.faults self.new.faults result }
    {
        let mut page = Page::zeros();
        match self.home_block_map(&mut page) {
            Ok(()) => self.home_inode_map(&mut page),
            Err(fault) => Err(fault),
        }
    }

    /// The same of the block map alone. `page` is room for a page.
    fn home_block_map(&mut self, page: &mut Page) -> Result<(), Fault>
        requires running { self.old.halted ≡ None }
        requires told { self.old.told ≡ self.old.appended }
        requires clean { (p : ℕ) → dirty_of self.old.dirty p ≡ None }
        ensures home { OfEachHalf D.tells D.tells_crashes self.old (λ seen asked half. GoHome seen asked (stale_block_pages (length self.old.map.states) self.old.files.blocks) self.old self.new half result) }
        ensures shows { D.tells → OnOk result (PutsMap self.old.files.blocks (is_in_use (length self.old.map.states)) (IsMapPage (length self.old.map.states) self.old.map.agsize (is_owned self.old.map)) self.old.view self.new.view) }
        ensures written { OnOk result (self.new.files ≡ with_blocks_written self.old.files) }
        ensures spoils { D.tells → OnErr result (StaysElse self.old.files.blocks.places self.old.view self.new.view) }
        ensures stale { OnErr result ((self.old.files.blocks.stale ≡ true) × (self.new.files ≡ self.old.files)) }
        ensures memory { KeepsMemory self.old self.new }
        ensures halts { HaltsAt self.old.halted self.new.halted result }
        ensures halted { OnOk result (self.new.halted ≡ None) }
        ensures cause { HasFault self.old.faults self.new.faults result }
    {
        if !self.files.blocks.is_stale() {
            return Ok(());
        }
        for n in 0..self.files.blocks.pages() {
            match self.home_block_page(n, page) {
                Ok(()) => {}
                Err(fault) => return Err(fault),
            }
        }
        self.block_map_written();
        Ok(())
    }

    /// The same of the inode map alone. `page` is room for a page.
    fn home_inode_map(&mut self, page: &mut Page) -> Result<(), Fault>
        requires running { self.old.halted ≡ None }
        requires told { self.old.told ≡ self.old.appended }
        requires clean { (p : ℕ) → dirty_of self.old.dirty p ≡ None }
        ensures home { OfEachHalf D.tells D.tells_crashes self.old (λ seen asked half. GoHome seen asked (stale_inode_pages self.old.files.inodes) self.old self.new half result) }
        ensures shows { D.tells → OnOk result (PutsMap self.old.files.inodes (λ n. true) (IsInodePage self.old.inodes) self.old.view self.new.view) }
        ensures written { OnOk result (self.new.files ≡ with_inodes_written self.old.files) }
        ensures spoils { D.tells → OnErr result (StaysElse self.old.files.inodes.places self.old.view self.new.view) }
        ensures stale { OnErr result ((self.old.files.inodes.stale ≡ true) × (self.new.files ≡ self.old.files)) }
        ensures memory { KeepsMemory self.old self.new }
        ensures halts { HaltsAt self.old.halted self.new.halted result }
        ensures halted { OnOk result (self.new.halted ≡ None) }
        ensures cause { HasFault self.old.faults self.new.faults result }
    {
        if !self.files.inodes.is_stale() {
            return Ok(());
        }
        for n in 0..self.files.inodes.pages() {
            match self.home_inode_page(n, page) {
                Ok(()) => {}
                Err(fault) => return Err(fault),
            }
        }
        self.inode_map_written();
        Ok(())
    }

    fn block_map_written(&mut self)
        ensures { self.new ≡ record self.old { files = with_blocks_written self.old.files } }
    {
        self.files.blocks.mark_written();
    }

    fn inode_map_written(&mut self)
        ensures { self.new ≡ record self.old { files = with_inodes_written self.old.files } }
    {
        self.files.inodes.mark_written();
    }

    /// Writes page `n` of the block map's file, where it is in use.
    fn home_block_page(&mut self, n: u32, page: &mut Page) -> Result<(), Fault>
        requires running { self.old.halted ≡ None }
        requires told { self.old.told ≡ self.old.appended }
        requires clean { (p : ℕ) → dirty_of self.old.dirty p ≡ None }
        ensures home { OfEachHalf D.tells D.tells_crashes self.old (λ seen asked half. GoHome seen asked (page_at (is_in_use (length self.old.map.states) n) (OfBlocks n) (slice_get self.old.files.blocks.places n)) self.old self.new half result) }
        ensures shows { D.tells → OnOk result (PutsPage (is_in_use (length self.old.map.states) n) (slice_get self.old.files.blocks.places n) (IsMapPage (length self.old.map.states) self.old.map.agsize (is_owned self.old.map) n) self.old.view self.new.view) }
        ensures spoils { D.tells → OnErr result (Spoils (slice_get self.old.files.blocks.places n) self.old.view self.new.view) }
        ensures memory { self.new ≡ record self.old { view = self.new.view; disk = self.new.disk; past = self.new.past; faults = self.new.faults; halted = self.new.halted } }
        ensures halts { HaltsAt self.old.halted self.new.halted result }
        ensures halted { OnOk result (self.new.halted ≡ None) }
        ensures cause { HasFault self.old.faults self.new.faults result }
    {
        if !self.maps.blocks.is_in_use(n) {
            return Ok(());
        }
        match self.files.blocks.place(n) {
            Some(block) => {
                self.maps.blocks.write_page(n, page);
                note_bytes(page);
                self.write_block(block, page)
            }
            None => Ok(()),
        }
    }

    /// Writes page `n` of the inode map's file.
    fn home_inode_page(&mut self, n: u32, page: &mut Page) -> Result<(), Fault>
        requires running { self.old.halted ≡ None }
        requires told { self.old.told ≡ self.old.appended }
        requires clean { (p : ℕ) → dirty_of self.old.dirty p ≡ None }
        ensures home { OfEachHalf D.tells D.tells_crashes self.old (λ seen asked half. GoHome seen asked (page_at true (OfInodes n) (slice_get self.old.files.inodes.places n)) self.old self.new half result) }
        ensures shows { D.tells → OnOk result (PutsPage true (slice_get self.old.files.inodes.places n) (IsInodePage self.old.inodes n) self.old.view self.new.view) }
        ensures spoils { D.tells → OnErr result (Spoils (slice_get self.old.files.inodes.places n) self.old.view self.new.view) }
        ensures memory { self.new ≡ record self.old { view = self.new.view; disk = self.new.disk; past = self.new.past; faults = self.new.faults; halted = self.new.halted } }
        ensures halts { HaltsAt self.old.halted self.new.halted result }
        ensures halted { OnOk result (self.new.halted ≡ None) }
        ensures cause { HasFault self.old.faults self.new.faults result }
    {
        match self.files.inodes.place(n) {
            Some(block) => {
                self.maps.inodes.write_page(n, page);
                note_bytes(page);
                self.write_block(block, page)
            }
            None => Ok(()),
        }
    }
}

/// For the prover alone: a page has bytes.
fn note_bytes(page: &Page)
    ensures bytes { AreBytes page.now.0 }
    ensures size { length page.now.0 ≡ 4096 }
{
    are_bytes(page.bytes());
}

fn are_bytes(bytes: &[u8])
    ensures { AreBytes bytes.now }
{
    let _count = bytes.len();
}
