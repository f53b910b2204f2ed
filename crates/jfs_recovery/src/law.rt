//! What holds of every volume that keeps the laws.

ghost use Rattle.jfs_recovery.specs.Laws.{StepsKeepSound, SoundRecovers, AcknowledgedSurvive, FreshAreSound, OtherCountsAreSound, StoppedIsRedone, RunsForwards, RunsEditByEdit, SyncedStay, StillStay, FixedStay, EditsLogWell};
ghost use Rattle.jfs_recovery.specs.Face.{IsFace};
ghost use Rattle.jfs_recovery.specs.Small.{small_volume};

use crate::face::VolumeFace;

/// Every list of allowed steps from a sound core leads to a sound core.
pub fn steps_keep_cores_sound<V: VolumeFace>()
    ensures { StepsKeepSound V.face }
{}

/// Whatever a crash leaves of the low part of a sound core, and for each log image, redo gives each page that matters as it was after that many entries, and leaves each other page.
pub fn redo_recovers<V: VolumeFace>()
    ensures { SoundRecovers V.face }
{}

/// For every list of allowed steps from a sound core, and whatever a crash then leaves, all entries that were acknowledged before the steps are among those that redo finds, and redo recovers.
pub fn acknowledged_entries_survive<V: VolumeFace>()
    ensures { AcknowledgedSurvive V.face }
{}

/// The core of a volume that was just mounted is sound.
pub fn fresh_cores_are_sound<V: VolumeFace>()
    ensures { FreshAreSound V.face }
{}

/// A sound core is sound with other counts of what is durable and taken, as another part may have them.
pub fn other_counts_are_sound<V: VolumeFace>()
    ensures { OtherCountsAreSound V.face }
{}

/// Redo of what a stopped redo left gives the image that the first one would have given.
pub fn stopped_redo_is_redone<V: VolumeFace>()
    ensures { StoppedIsRedone V.face }
{}

/// On pages that matter, applying the entries forwards gives what redo gives.
pub fn redo_runs_forwards<V: VolumeFace>()
    ensures { RunsForwards V.face }
{}

/// Redo of the entries is redo of all their edits in a row: a choice for each cell of a page.
pub fn redo_runs_edit_by_edit<V: VolumeFace>()
    ensures { RunsEditByEdit V.face }
{}

/// Bytes that were synced outlive every later crash and redo, until data is written over their block or it becomes a page that matters.
pub fn synced_bytes_stay<V: VolumeFace>()
    ensures { SyncedStay V.face }
{}

/// No allowed step writes over a block that nothing writes in place, as one of attributes or of a long link's target.
pub fn still_blocks_stay<V: VolumeFace>()
    ensures { StillStay V.face }
{}

/// Each page of the fixed areas is the mounted one, whatever a crash leaves.
pub fn fixed_pages_stay<V: VolumeFace>()
    ensures { FixedStay V.face }
{}

/// What an append tests edit by edit is what it has to keep of each page.
pub fn entries_are_logged_by_edits<V: VolumeFace>()
    ensures { EditsLogWell V.face }
{}

/// A small volume keeps the laws that the others ask for, so they can be kept.
pub fn laws_can_be_kept()
    ensures { IsFace small_volume }
{}
