//! What is asked of a volume's pages and maps.

ghost use Rattle.std.specs.Prelude.{◌≡◌, ◌≤◌, ℕ, length};
ghost use Rattle.jfs_disk.specs.Image.{Image};
ghost use Rattle.jfs_disk.specs.declared.disk.Fault.{Fault as FaultOf};
ghost use Rattle.jfs_disk.specs.declared.disk.Part.TheVariants.{Low};
ghost use Rattle.jfs_map_files.specs.declared.maps.Maps.{Maps as MapsOf};
ghost use Rattle.jfs_pages.specs.Kept.{dirty_in, image_in};
ghost use Rattle.jfs_volume.specs.Asked.{MayReserve, maps_in, IsAskedOf, LeavesCache};

use crate::front::Front;
use crate::volume::Volume;
use jfs_disk::Disk;
use jfs_map_files::Maps;
use jfs_ranges::PageView;

/// Something that reads a volume's pages, and may reserve blocks, as file calls do.
pub trait Asks {
    /// What it answers: whether the view tells its pages, their number and the pages; the maps before and after; the part of the disk with its faults before and after; and the one that asks, before and after.
    ghost answers: { Type 0 → ℕ → Image → MapsOf → MapsOf → FaultOf → FaultOf → Self → Self → Type 0 };

    /// Asks, of a view with as many blocks as the block map has. The pages stay as they are, and of the maps nothing changes but that free blocks may be reserved.
    fn ask<V: PageView>(&mut self, view: &mut V, maps: &mut Maps)
        requires size { length maps.old.blocks.states ≡ V.PageView.block_count view.old }
        ensures image { V.PageView.tells → V.PageView.image view.new ≡ V.PageView.image view.old }
        ensures count_of_blocks { V.PageView.block_count view.new ≡ V.PageView.block_count view.old }
        ensures device { V.PageView.device view.new ≡ V.PageView.device view.old }
        ensures reserves { MayReserve maps.old maps.new }
        ensures answers { answers V.PageView.tells (V.PageView.block_count view.old) (V.PageView.image view.old) maps.old maps.new (V.PageView.faults view.old) (V.PageView.faults view.new) self.old self.new };
}

/// The same of the first blocks of a cache; the view keeps its loan of the cache.
fn ask_in_loan<'a, D: Disk, A: Asks>(asks: &mut A, front: &mut Front<'a, D>, maps: &mut Maps)
    requires size { length maps.old.blocks.states ≡ front.old.blocks }
    ensures loan { front.new.cache.ghost_name ≡ front.old.cache.ghost_name }
    ensures cache { LeavesCache D.Disk front.old.cache.now front.new.cache.now }
    ensures reserves { MayReserve maps.old maps.new }
    ensures answers { A.answers D.tells (length maps.old.blocks.states) (image_in front.old.cache.now.blocks (D.image front.old.cache.now.disk) front.old.cache.now.kept) maps.old maps.new
        (record { part = Low; count = D.fault_count front.old.cache.now.disk }) (record { part = Low; count = D.fault_count front.new.cache.now.disk }) asks.old asks.new }
{
    asks.ask(front, maps)
}

impl<D: Disk> Volume<D> {
    /// Asks of the volume's first blocks, as many as the block map has, and of its maps. Blocks that are reserved then are for a transaction whose entry is to join by `append`; where it doesn't, `give_back` frees them.
    pub fn ask_by<A: Asks>(&mut self, asks: &mut A)
        requires blocks { length self.old.map.states ≤ self.old.blocks }
        ensures answers { A.answers D.tells (length self.old.map.states) self.old.view (maps_in self.old) (maps_in self.new) (record { part = Low; count = self.old.faults }) (record { part = Low; count = self.new.faults }) asks.old asks.new }
        ensures reserves { MayReserve (maps_in self.old) (maps_in self.new) }
        ensures asked { IsAskedOf D.tells D.tells_crashes self.old self.new }
    {
        let blocks = self.maps.blocks.blocks();
        let mut front = Front::new(&mut self.cache, blocks);
        ask_in_loan(asks, &mut front, &mut self.maps)
    }
}
