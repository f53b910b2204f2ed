//! What holds of the pages of a volume that was just mounted.

ghost use Rattle.jfs_mounted_pages.specs.Mounted.{MountedLaw};

/// What a mount leaves has no dirty page, and its maps are as their pages.
pub fn mounts_keep_pages()
    ensures { MountedLaw }
{}
