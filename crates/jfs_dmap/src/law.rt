//! What a dmap page follows from.

ghost use Rattle.jfs_dmap.specs.Laws.{PagesAgree};

/// A canonical dmap page is a function of its blocks and of which of them are taken.
pub fn pages_agree()
    ensures { PagesAgree }
{}
