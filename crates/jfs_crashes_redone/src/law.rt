//! What holds of a volume that crashed and was redone.

ghost use Rattle.jfs_crashes_redone.specs.Crashed.{CrashedLaw};

/// Whatever a crash leaves of a held volume's disk: its log commits transactions and isn't refused, no rule of its maps is broken, and the disk that redo leaves has the volume after a front of the history, in which all is that was acknowledged. Redo writes no block that holds file data in that volume, and is taken up again if it is stopped.
pub fn crashes_are_redone_to_volumes()
    ensures { CrashedLaw }
{}
