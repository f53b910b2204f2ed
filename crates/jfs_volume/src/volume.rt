//! A mounted volume.

use crate::waiting::WaitingText;
use jfs_disk::{Disk, Fault};
use jfs_halves::FreedPage;
use jfs_map_files::{MapFiles, Maps};
use jfs_pages::PageCache;
use jfs_plain::Entry;
use std::alloc::Global;
use std::marker::Model;

/// A mounted volume: the low part of its disk behind a cache, its two maps, and what it has done since the mount. Contracts say by its parts for which half of a history it stands.
#[derive(Drop)]
pub struct Volume<D: Disk> {
    pub(crate) alloc: Global,
    pub(crate) cache: PageCache<D>,
    pub(crate) maps: Maps,
    pub(crate) files: MapFiles,
    pub(crate) appended: u64,
    pub(crate) taken: u64,
    pub(crate) told: u64,
    /// Sync counts, with the mount's, and how many are known to be stable.
    pub(crate) points: u64,
    pub(crate) known: u64,
    /// The entries that weren't handed out yet.
    pub(crate) entries: Vec<Entry>,
    pub(crate) text: WaitingText,
    /// The pages that entries freed which aren't acknowledged.
    pub(crate) freed: Vec<FreedPage>,
    /// `freed` has no page that an entry up to this one freed.
    pub(crate) forgotten: u64,
    pub(crate) halted: Option<Fault>,
}

impl<D: Disk> Model for Volume<D> {
    ghost use Rattle.std.specs.Prelude.{◌≡◌, ◌≤◌, ℕ, [], length};
    ghost use Rattle.jfs_pages.specs.Dirty.{dirty_of, last_of};
    ghost use Rattle.jfs_pages.specs.Kept.{dirty_in, image_in};
    ghost use Rattle.jfs_halves.specs.Parts.{Parts};
    ghost use Rattle.jfs_bmap.specs.MapFile.{pages_of};
    ghost use Rattle.jfs_map_files.specs.Files.{AreFilesOf};
    ghost use Rattle.jfs_volume.specs.Busy.{BusyBetween};
    ghost use Rattle.jfs_volume.specs.Told.{AreLater};
    ghost use Rattle.jfs_volume.specs.Text.{text_in};

    ghost Value = { Parts };

    ghost view = { λ v. record {
      blocks = v.cache.blocks;
      view = image_in v.cache.blocks (D.image v.cache.disk) v.cache.kept;
      dirty = dirty_in v.cache.kept;
      disk = D.image v.cache.disk;
      past = D.past v.cache.disk;
      faults = D.fault_count v.cache.disk;
      count = D.page_count v.cache.disk;
      room = D.room v.cache.disk;
      map = v.maps.blocks;
      inodes = v.maps.inodes;
      limit = v.maps.file_limit;
      files = v.files;
      appended = v.appended;
      taken = v.taken;
      told = v.told;
      points = v.points;
      known = v.known;
      entries = v.entries.items;
      text = text_in v.text;
      freed = v.freed.items;
      halted = v.halted;
    } };

    ghost invariant = { λ v.
        ((n : ℕ) → last_of (dirty_of (dirty_in v.cache.kept) n) ≤ v.appended)
        × (v.told ≤ v.taken)
        × (v.taken ≤ v.appended)
        × (v.text.text.last ≡ v.appended)
        × (v.points ≤ v.text.place)
        × (v.taken ≡ v.appended → v.text.text.bytes.items ≡ [])
        × BusyBetween v.told v.appended v.maps.blocks
        × AreFilesOf v.cache.blocks (pages_of (length v.maps.blocks.states)) v.maps.inodes.iags v.files
        × (v.forgotten ≤ v.appended)
        × AreLater v.forgotten v.freed.items };
}
