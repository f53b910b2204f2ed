//! Laws of a volume's objects.

ghost use Rattle.jfs_objects.specs.Laws.{FrameLaw, OwnedOnceLaw, DataLaw, SetLaw, DropLaw, ExtentLaw};

/// What an inode and its trees spell depends on the pages of its footprint alone.
pub fn objects_are_framed()
    ensures { FrameLaw }
{}

/// Where maps agree, a block has one owner at most.
pub fn owners_are_single()
    ensures { OwnedOnceLaw }
{}

/// Writing a file's data in place, or blocks without an owner, changes no object and no other contents.
pub fn data_changes_no_object()
    ensures { DataLaw }
{}

/// Setting an object, or making one, changes that object alone, and maps agree again.
pub fn one_object_is_set()
    ensures { SetLaw }
{}

/// Dropping an object changes that object alone, and maps agree again.
pub fn one_object_goes()
    ensures { DropLaw }
{}

/// An inode extent that is added changes no object, and maps agree again.
pub fn inode_extent_changes_nothing()
    ensures { ExtentLaw }
{}
