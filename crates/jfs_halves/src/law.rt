//! What holds of all changes of two halves.

ghost use Rattle.jfs_halves.specs.Laws.{ChangesAreSteps, AcknowledgedSurvive, MomentsAreFronts, BusyUntilTold, FreshAreSound};
ghost use Rattle.jfs_halves.specs.Moves.{VolumeJoins, BothJoin};

/// Changes that fit, one after another, are a run of allowed steps of the crash core, as long as nothing is written past the log and no page is dropped; whatever a crash leaves after them is recovered.
pub fn changes_are_steps()
    ensures { ChangesAreSteps }
{}

/// So each entry that was acknowledged before the changes survives every crash after them.
pub fn acknowledged_survive()
    ensures { AcknowledgedSurvive }
{}

/// The low part is at no moment in a state that isn't the one after some of the changes, in their order.
pub fn moments_are_fronts()
    ensures { MomentsAreFronts }
{}

/// A block that an entry freed is taken by no other entry before that one is acknowledged.
pub fn freed_blocks_stay_busy()
    ensures { BusyUntilTold }
{}

/// Two halves that were just mounted make a sound core.
pub fn fresh_halves_are_sound()
    ensures { FreshAreSound }
{}

/// Changes, and then others, are both together: of the volume alone, and with the log.
pub fn moves_join()
    ensures volume { VolumeJoins }
    ensures both { BothJoin }
{}
