//! Where the pages of a map's file lie.

ghost use Rattle.std.specs.Prelude.{◌≡◌, ◌<◌, ◌^◌, length, slice_get, false, true};

use std::marker::Model;

/// The file of a map: the blocks of the volume that hold its pages, in their order, and whether the map in memory has changed since they were written.
#[derive(Drop)]
pub struct MapFile {
    places: Vec<u32>,
    stale: bool,
    ghost few: { length places.items < 2 ^ 32 },
}

impl Model for MapFile {
    ghost use Rattle.jfs_map_files.specs.Places.{MapPlaces};

    ghost Value = { MapPlaces };

    ghost view = { λ f. record { places = f.places.items; stale = f.stale } };
}

impl MapFile {
    /// The file of a map that was just read, whose pages lie on these blocks.
    pub fn new(places: Vec<u32>) -> MapFile
        requires { length places.items < 2 ^ 32 }
        ensures { result ≡ record { places = places.items; stale = false } }
    {
        MapFile {
            places,
            stale: false,
        }
    }

    /// The number of pages.
    pub fn pages(&self) -> u32
        ensures { result ≡ length self.now.places }
    {
        self.places.len() as u32
    }

    /// The block that holds page `n`, `None` exactly where the file has no such page.
    pub fn place(&self, n: u32) -> Option<u32>
        ensures { result ≡ slice_get self.now.places n }
    {
        self.places.get(n as usize).copied()
    }

    /// Whether the map has changed since the pages were written.
    pub fn is_stale(&self) -> bool
        ensures { result ≡ self.now.stale }
    {
        self.stale
    }

    /// The map changes.
    pub fn mark_stale(&mut self)
        ensures { self.new ≡ record self.old { stale = true } }
    {
        self.stale = true;
    }

    /// All pages were written as the map is.
    pub fn mark_written(&mut self)
        ensures { self.new ≡ record self.old { stale = false } }
    {
        self.stale = false;
    }
}

/// The files of both maps: the block map's, inode 2 of the aggregate, and the inode map's, inode 16.
#[derive(Drop)]
pub struct MapFiles {
    pub blocks: MapFile,
    pub inodes: MapFile,
}
