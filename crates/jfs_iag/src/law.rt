//! What the pages of an inode map follow from.

ghost use Rattle.jfs_iag.specs.Laws.{IagPagesAgree, ControlPagesAgree};

/// A canonical IAG page is a function of its inodes in use, its extents, its number, its group's start and its list words.
pub fn iag_pages_agree()
    ensures { IagPagesAgree }
{}

/// A canonical control page is a function of the inodes in use, the extents, the number of IAGs and that of groups.
pub fn control_pages_agree()
    ensures { ControlPagesAgree }
{}
