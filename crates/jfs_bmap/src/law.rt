//! What a page of the map's file follows from, and which calls change it.

ghost use Rattle.jfs_bmap.specs.Laws.{MapPagesAgree, OnlyTheirPagesChange, RootsMakeLevelZero, RootIsGreatest, ChangeOwners};

/// A canonical page of the map's file is a function of its number, the volume's blocks and groups, and the set of owned blocks.
pub fn map_pages_agree()
    ensures { MapPagesAgree }
{}

/// Where some blocks get owners or lose them, only the dmaps that have them change, and the pages above.
pub fn only_their_pages_change()
    ensures { OnlyTheirPagesChange }
{}

/// The page of level 0 is a function of the dmaps' roots.
pub fn roots_make_level_zero()
    ensures { RootsMakeLevelZero }
{}

/// The greatest free run that the map's control page tells is what the root of level 0 holds.
pub fn root_is_greatest_run()
    ensures { RootIsGreatest }
{}

/// Only `own` and `release` change pages, and only those that tell of blocks of their runs.
pub fn owners_change()
    ensures { ChangeOwners }
{}
