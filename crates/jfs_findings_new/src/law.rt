//! The law of new volumes.

ghost use Rattle.jfs_findings_new.specs.Law.{NewCleanLaw};

/// A check finds nothing on what `format` makes.
pub fn new_volume_is_clean()
    ensures { NewCleanLaw }
{}
