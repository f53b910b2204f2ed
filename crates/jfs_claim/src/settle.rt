//! What a call didn't take is given back.

ghost use Rattle.std.specs.Prelude.{◌≡◌, ℕ, List};
ghost use Rattle.jfs_room.specs.bmap.specs.States.{Blocks};
ghost use Rattle.jfs_claim.specs.Take.{Reserves, IsPartlyTaken, claimed, reserving, run_list};

use crate::reserve::{Claim, give_back_run};
use jfs_room::bmap::BlockMap;

impl Claim {
    /// Gives all of it back: the map is as it was before the claim. Takes no memory.
    pub fn undo(&self, map: &mut BlockMap)
        requires { (before : Blocks) × Reserves before map.old (claimed self.now) }
        ensures { (before : Blocks) → Reserves before map.old (claimed self.now) → map.new ≡ before }
    {
        give_back_run(map, self.run);
        map.give_back(&self.blocks);
    }

    /// Gives back the blocks that no tree took: exactly the run and the blocks that were taken are reserved beside what was before the claim. Takes no memory.
    pub fn settle(&self, map: &mut BlockMap)
        requires { (before : Blocks) × (taken : List ℕ) × IsPartlyTaken before map.old self.now taken }
        ensures { (before : Blocks) (taken : List ℕ) → IsPartlyTaken before map.old self.now taken → map.new ≡ reserving (run_list self.now.run) taken before }
    {
        map.give_back(&self.fresh);
    }
}
