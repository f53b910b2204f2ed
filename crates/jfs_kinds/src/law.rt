//! Laws of the owners of blocks.

ghost use Rattle.jfs_kinds.specs.Images.{ImageLaw};
ghost use Rattle.jfs_kinds.specs.Laws.{OwnersLaw, ContentsLaw, LoggedLaw, SameOwnersLaw, KeptLaw, EditLaw};

/// Where maps agree, each block has one owner at most, of one kind, and is in use exactly where it has one.
pub fn blocks_have_one_owner()
    ensures { OwnersLaw }
{}

/// Where maps agree, the blocks that hold a regular file's bytes are its data; those of a long target or of attributes are blocks that nothing writes in place.
pub fn contents_have_owners()
    ensures { ContentsLaw }
{}

/// Pages of inodes and of trees are logged, and logged pages alone give all objects and owners: whatever becomes of the others.
pub fn logged_pages_give_objects()
    ensures { LoggedLaw }
{}

/// An image whose logged pages are those of a sound one has its sets, places, objects and owners, and is sound as well.
pub fn logged_pages_give_images()
    ensures { ImageLaw }
{}

/// Volumes with the same areas, inode extents and objects have the same owners.
pub fn objects_give_owners()
    ensures { SameOwnersLaw }
{}

/// Where maps agree before and after, a block keeps its owner exactly where each owner has it as often as before. Where blocks that stay in use keep theirs, no owner takes another's block.
pub fn owners_stay_with_counts()
    ensures { KeptLaw }
{}

/// Each edit of one object leaves the owners of blocks that stay in use, and a new inode extent owns its blocks.
pub fn edits_leave_owners()
    ensures { EditLaw }
{}
