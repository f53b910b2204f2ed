//! What findings tell of a volume.

ghost use Rattle.jfs_findings.specs.Laws.{CanonicalLaw, CleanLaw, ConsistentLaw, OneListLaw};

/// A volume without findings is a sound one, and a sound one has none.
pub fn clean_volumes_are_sound()
    ensures { CleanLaw }
{}

/// A sound volume, and so one without findings, is one that is consistent and tidy.
pub fn sound_volumes_are_consistent_and_tidy()
    ensures { ConsistentLaw }
{}

/// A volume has one list of findings at most.
pub fn findings_are_one_list()
    ensures { OneListLaw }
{}

/// A page of a map in its canonical form is no finding.
pub fn canonical_pages_pass()
    ensures { CanonicalLaw }
{}
