//! What a tree follows from.

ghost use Rattle.jfs_buddy.specs.Laws.{TreesAgree};

/// A tree is a function of its leaves' own ranks: the bytes don't tell in which order blocks were taken and given back.
pub fn trees_agree()
    ensures { TreesAgree }
{}
