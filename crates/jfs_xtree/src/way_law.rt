//! A law of blocks looked up.

ghost use Rattle.std.specs.Prelude.{ℕ, List};
ghost use Rattle.jfs_xtree.specs.Spells.{IsFoundOnWay};

/// What the way to a block leads to is the extent that has the block, wherever a root spells extents.
pub fn way_leads_to_the_extent()
    ensures { (blocks : ℕ) (pages : ℕ → List ℕ) (root : List ℕ) (offset : ℕ) → IsFoundOnWay blocks pages root offset }
{}
