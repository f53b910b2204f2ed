//! What holds of a volume that was mounted from a keepable image.

ghost use Rattle.jfs_mounted_maps.specs.Keepable.{KeepableLaw, MountedLaw};

/// A volume on which a check finds nothing is keepable.
pub fn checked_volumes_are_keepable()
    ensures { KeepableLaw }
{}

/// One that was mounted from a keepable image is held, and has its maps as the mount looked at them.
pub fn keepable_mounts_are_held()
    ensures { MountedLaw }
{}
