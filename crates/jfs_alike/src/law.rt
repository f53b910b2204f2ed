//! Laws of volumes that mean the same.

ghost use Rattle.jfs_alike.specs.Alike.{AlikeLaw};

/// What a page has that isn't in use, or that lies in a fixed area, changes nothing of what a consistent volume means.
pub fn alike_volumes_mean_the_same()
    ensures { AlikeLaw }
{}
