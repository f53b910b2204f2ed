//! What a look at each object finds of a volume.

ghost use Rattle.jfs_object_check.specs.Laws.{ObjectsLaw};
ghost use Rattle.jfs_object_check.specs.Thin.{ThinLaw};

/// The findings of the kinds that `check_object` gives are exactly those of a volume's objects, and those of the aggregate's files.
pub fn findings_are_of_objects()
    ensures { ObjectsLaw }
{}

/// The findings of pages with few entries are exactly those of a volume's objects.
pub fn thin_findings_are_of_objects()
    ensures { ThinLaw }
{}
