//! What whoever has both turns does, so that a call finds room.
ghost use Rattle.std.specs.Prelude.{◌≡◌, None, Some};
ghost use Rattle.jfs_turns.specs.Both.{whole};
ghost use Rattle.jfs_groups.specs.Commit.{GoesOn};
ghost use Rattle.jfs_groups.specs.Log.{standing};
ghost use Rattle.jfs_serving.specs.Held.{IsBothOf, IsSamePass, BothStand, BothHaveRoom};

use crate::serves::Serves;
use jfs_disk::{Disk, Fault};
use jfs_groups::{HasRecords, SharedLog};
use jfs_turns::{BothTurns, Turns};
use std::marker::Brand;

/// Says what a commit or a syncpoint made of both values: all entries are taken, and there may be more syncpoints and more durable entries.
fn mark<V: Serves<D, E>, D: Disk, E: HasRecords>(
    turns: &Turns<V, SharedLog<D>, E>,
    both: &mut BothTurns<V, SharedLog<D>, E>,
)
    requires of { IsBothOf turns.now.table.shared.table_id both.old }
    requires room { BothHaveRoom V.stands (standing D.Disk E.logs E.start) V.count both.old }
    ensures of { IsBothOf turns.now.table.shared.table_id both.new }
    ensures same { IsSamePass both.old both.new }
    ensures stand { BothStand V.stands (standing D.Disk E.logs E.start) both.new }
    ensures goes_on { GoesOn E.client (whole both.old) (whole both.new) }
{
    turns.mark_taken(both);
    turns.mark_syncpoints_as::<Brand>(both);
    let durable = both.log.value.side.durable();
    turns.raise(&mut both.log, durable);
}

/// Tells the volume that the log has halted. Both sides have a mark of that then.
pub(crate) fn halt_both<V: Serves<D, E>, D: Disk, E: HasRecords>(
    turns: &Turns<V, SharedLog<D>, E>,
    both: &mut BothTurns<V, SharedLog<D>, E>,
    fault: Fault,
)
    requires of { IsBothOf turns.now.table.shared.table_id both.old }
    requires stand { BothStand V.stands (standing D.Disk E.logs E.start) both.old }
    requires halted { both.old.log.value.side.halted ≡ Some fault }
    ensures of { IsBothOf turns.now.table.shared.table_id both.new }
    ensures same { IsSamePass both.old both.new }
    ensures stand { BothStand V.stands (standing D.Disk E.logs E.start) both.new }
    ensures goes_on { GoesOn E.client (whole both.old) (whole both.new) }
{
    both.volume.value.halt(fault);
    turns.mark_syncpoints_as::<Brand>(both);
}

/// Makes all entries durable, where the log doesn't fail.
pub(crate) fn commit_both<V: Serves<D, E>, D: Disk, E: HasRecords>(
    turns: &Turns<V, SharedLog<D>, E>,
    both: &mut BothTurns<V, SharedLog<D>, E>,
)
    requires of { IsBothOf turns.now.table.shared.table_id both.old }
    requires stand { BothStand V.stands (standing D.Disk E.logs E.start) both.old }
    requires running { both.old.log.value.side.halted ≡ None }
    ensures of { IsBothOf turns.now.table.shared.table_id both.new }
    ensures same { IsSamePass both.old both.new }
    ensures stand { BothStand V.stands (standing D.Disk E.logs E.start) both.new }
    ensures goes_on { GoesOn E.client (whole both.old) (whole both.new) }
{
    let volume = &mut both.volume;
    let log = &mut both.log;
    volume.value.commit(&mut log.value);
    mark(turns, both);
}

/// The same, and a syncpoint.
pub(crate) fn point_both<V: Serves<D, E>, D: Disk, E: HasRecords>(
    turns: &Turns<V, SharedLog<D>, E>,
    both: &mut BothTurns<V, SharedLog<D>, E>,
)
    requires of { IsBothOf turns.now.table.shared.table_id both.old }
    requires stand { BothStand V.stands (standing D.Disk E.logs E.start) both.old }
    requires running { both.old.log.value.side.halted ≡ None }
    ensures of { IsBothOf turns.now.table.shared.table_id both.new }
    ensures same { IsSamePass both.old both.new }
    ensures stand { BothStand V.stands (standing D.Disk E.logs E.start) both.new }
    ensures goes_on { GoesOn E.client (whole both.old) (whole both.new) }
{
    let volume = &mut both.volume;
    let log = &mut both.log;
    volume.value.point(&mut log.value);
    mark(turns, both);
}
