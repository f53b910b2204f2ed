//! What holds of a mounted volume that is kept.

ghost use Rattle.jfs_kept_volumes.specs.Logs.{BesideLaw, FrontLaw, OtherLogAtLaw, OtherLogLaw};
ghost use Rattle.jfs_kept_volumes.specs.Reserved.{ReservedLaw};
ghost use Rattle.jfs_kept_volumes.specs.Steps.{BeginLaw, HaltLaw, KeptQuietLaw, MadeLaw, PointLaw, QuietLaw, RestLaw, SameLaw, SettledLaw, StartLaw};

/// Whatever a log has made stable, of what groups have taken, the volume is held with it.
pub fn other_logs_hold_volumes()
    ensures held { OtherLogLaw }
    ensures parts { OtherLogAtLaw }
{}

/// Events that were taken may be stable in part; and a log that has what happened, beside a volume that is kept, keeps within half its ring.
pub fn fronts_of_events_are_logs()
    ensures fronts { FrontLaw }
    ensures beside { BesideLaw }
{}

/// Parts with the same pages and maps have the same volume; and so they do once entries are acknowledged.
pub fn same_volumes_are_kept()
    ensures same { SameLaw }
    ensures settled { SettledLaw }
{}

/// Groups, acknowledgements, dropped pages, syncs and faults lead to a keeper; and a volume halts by one of these.
pub fn quiet_changes_keep_volumes()
    ensures quiet { QuietLaw }
    ensures kept { KeptQuietLaw }
    ensures halt { HaltLaw }
{}

/// A log is at rest at a mount, and stays so by whatever changes of the volume alone, where an entry that is logged can be; and by a SYNCPT.
pub fn logs_stay_at_rest()
    ensures start { BeginLaw }
    ensures changes { RestLaw }
    ensures points { PointLaw }
{}

/// A mount leaves a keeper, and changes that may be made lead to one of the parts after them.
pub fn changes_lead_to_keepers()
    ensures start { StartLaw }
    ensures made { MadeLaw }
{}

/// Which of the blocks are reserved that nobody owns, what keeps the volume doesn't ask.
pub fn reserved_blocks_keep_volumes()
    ensures { ReservedLaw }
{}
