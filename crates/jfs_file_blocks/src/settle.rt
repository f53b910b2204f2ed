//! What a write didn't take is given back.

ghost use Rattle.std.specs.Prelude.{◌≡◌, ℕ, List};
ghost use Rattle.jfs_bmap.specs.States.{Blocks};
ghost use Rattle.jfs_claim.specs.Take.{reserving};
ghost use Rattle.jfs_file_blocks.specs.Reserving.{IsReservedFor, IsPartlyTaken};

use crate::reserve::FileBlocks;
use jfs_bmap::BlockMap;

impl FileBlocks {
    /// Gives all of it back: the map is as it was before. Takes no memory.
    pub fn undo(&self, map: &mut BlockMap)
        requires { (before : Blocks) × IsReservedFor before map.old self.now }
        ensures { (before : Blocks) → IsReservedFor before map.old self.now → map.new ≡ before }
    {
        self.claim.undo(map);
        map.give_back(&self.runs);
    }

    /// Gives back the blocks for pages that the tree didn't take: exactly the file's runs and the pages that were taken are reserved beside what was before. Takes no memory.
    pub fn settle(&self, map: &mut BlockMap)
        requires { (before : Blocks) × (taken : List ℕ) × IsPartlyTaken before map.old self.now taken }
        ensures { (before : Blocks) (taken : List ℕ) → IsPartlyTaken before map.old self.now taken → map.new ≡ reserving self.now.runs taken before }
    {
        self.claim.settle(map);
    }
}
