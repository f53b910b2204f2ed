//! What the core is for.

ghost use Rattle.jfs_core.specs.Law.{AcknowledgedEntriesSurvive, StepsKeepCoresSound, StepsAreDeviceCalls, RefusedIsNotAllowed, AgreementIsEquality};

/// For every list of allowed steps from a sound core, and whatever a crash then leaves, redo gives the image after the first
/// entries of the history, and all that were acknowledged before the steps are among them.
pub fn acknowledged_entries_survive()
    ensures { AcknowledgedEntriesSurvive }
{}

/// Each step that is allowed in a sound core leaves a sound core.
pub fn steps_keep_cores_sound()
    ensures { StepsKeepCoresSound }
{}

/// What each step does to the low part is what the calls of a disk do: a write back is a write of its page, a failed one a
/// failed write, a low sync a sync, and no other step touches the disk.
pub fn steps_are_device_calls()
    ensures { StepsAreDeviceCalls }
{}

/// A refused run has a step that isn't allowed in the state reached.
pub fn refused_is_not_allowed()
    ensures { RefusedIsNotAllowed }
{}

/// While entries have lines alone, all pages matter: where redo agrees on the pages that matter, the images are the same.
pub fn agreement_is_equality()
    ensures { AgreementIsEquality }
{}
