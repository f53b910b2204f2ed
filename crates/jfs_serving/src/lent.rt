//! A call of whoever has both turns.
ghost use Rattle.std.specs.Prelude.{◌≡◌};
ghost use Rattle.jfs_turns.specs.Both.{whole};
ghost use Rattle.jfs_turns.specs.Standing.{LogStands};
ghost use Rattle.jfs_plain.specs.Limits.{FitsRequest};
ghost use Rattle.jfs_groups.specs.Commit.{GoesOn};
ghost use Rattle.jfs_groups.specs.Log.{standing};
ghost use Rattle.jfs_serving.specs.Calls.{asked};
ghost use Rattle.jfs_serving.specs.Held.{IsBothOf, IsSamePass, BothStand, Knows, AsksIs};

use crate::both::{commit_both, halt_both, point_both};
use crate::serves::{Given, Serves};
use jfs_bits::Moment;
use jfs_disk::Disk;
use jfs_groups::{HasRecords, SharedLog};
use jfs_plain::Request;
use jfs_turns::{BothTurns, Turns};
use std::alloc::Global;

/// Asks the volume.
fn ask<V: Serves<D, E>, D: Disk, E: HasRecords>(
    alloc: Global,
    turns: &Turns<V, SharedLog<D>, E>,
    both: &mut BothTurns<V, SharedLog<D>, E>,
    client: u32,
    line: u32,
    request: &Request,
    now: Moment,
) -> Given
    requires of { IsBothOf turns.now.table.shared.table_id both.old }
    requires fits { FitsRequest request.now }
    requires stand { BothStand V.stands (standing D.Disk E.logs E.start) both.old }
    ensures of { IsBothOf turns.now.table.shared.table_id both.new }
    ensures same { IsSamePass both.old both.new }
    ensures log { LogStands (standing D.Disk E.logs E.start) both.new.log.value (whole both.new) }
    ensures knows { Knows (whole both.new) }
    ensures goes_on { GoesOn E.client (whole both.old) (whole both.new) }
    ensures asks { AsksIs E.client V.entry V.moment V.stands V.answers (asked client line request.now now) (whole both.new) both.new.volume.value result }
{
    both.volume.value.call(alloc, client, line, request, now)
}

/// Makes room in the log, and frees blocks that wait for a commit: by a commit, or where the log has halted not at all. The volume then knows that it has.
fn make_room<V: Serves<D, E>, D: Disk, E: HasRecords>(
    turns: &Turns<V, SharedLog<D>, E>,
    both: &mut BothTurns<V, SharedLog<D>, E>,
)
    requires of { IsBothOf turns.now.table.shared.table_id both.old }
    requires stand { BothStand V.stands (standing D.Disk E.logs E.start) both.old }
    ensures of { IsBothOf turns.now.table.shared.table_id both.new }
    ensures same { IsSamePass both.old both.new }
    ensures stand { BothStand V.stands (standing D.Disk E.logs E.start) both.new }
    ensures goes_on { GoesOn E.client (whole both.old) (whole both.new) }
{
    match both.log.value.side.halted() {
        Some(fault) => halt_both(turns, both, fault),
        None => commit_both(turns, both),
    }
}

/// Makes room, and asks.
fn ask_with_room<V: Serves<D, E>, D: Disk, E: HasRecords>(
    alloc: Global,
    turns: &Turns<V, SharedLog<D>, E>,
    both: &mut BothTurns<V, SharedLog<D>, E>,
    client: u32,
    line: u32,
    request: &Request,
    now: Moment,
) -> Given
    requires of { IsBothOf turns.now.table.shared.table_id both.old }
    requires fits { FitsRequest request.now }
    requires stand { BothStand V.stands (standing D.Disk E.logs E.start) both.old }
    ensures of { IsBothOf turns.now.table.shared.table_id both.new }
    ensures same { IsSamePass both.old both.new }
    ensures log { LogStands (standing D.Disk E.logs E.start) both.new.log.value (whole both.new) }
    ensures knows { Knows (whole both.new) }
    ensures goes_on { GoesOn E.client (whole both.old) (whole both.new) }
    ensures asks { AsksIs E.client V.entry V.moment V.stands V.answers (asked client line request.now now) (whole both.new) both.new.volume.value result }
{
    make_room(turns, both);
    ask(alloc, turns, both, client, line, request, now)
}

/// Makes a syncpoint where the log can be written, and asks; a call that needs still more is as if memory had run out.
fn ask_behind_point<V: Serves<D, E>, D: Disk, E: HasRecords>(
    alloc: Global,
    turns: &Turns<V, SharedLog<D>, E>,
    both: &mut BothTurns<V, SharedLog<D>, E>,
    client: u32,
    line: u32,
    request: &Request,
    now: Moment,
) -> Given
    requires of { IsBothOf turns.now.table.shared.table_id both.old }
    requires fits { FitsRequest request.now }
    requires stand { BothStand V.stands (standing D.Disk E.logs E.start) both.old }
    ensures of { IsBothOf turns.now.table.shared.table_id both.new }
    ensures same { IsSamePass both.old both.new }
    ensures log { LogStands (standing D.Disk E.logs E.start) both.new.log.value (whole both.new) }
    ensures knows { Knows (whole both.new) }
    ensures goes_on { GoesOn E.client (whole both.old) (whole both.new) }
    ensures asks { AsksIs E.client V.entry V.moment V.stands V.answers (asked client line request.now now) (whole both.new) both.new.volume.value result }
{
    if both.log.value.side.halted().is_some() {
        return Given::NoMemory;
    }
    point_both(turns, both);
    ask(alloc, turns, both, client, line, request, now)
}

/// A call that needs the log. All entries so far are made durable; where that isn't enough a syncpoint empties the log.
pub(crate) fn call_lent<V: Serves<D, E>, D: Disk, E: HasRecords>(
    alloc: Global,
    turns: &Turns<V, SharedLog<D>, E>,
    both: &mut BothTurns<V, SharedLog<D>, E>,
    client: u32,
    line: u32,
    request: &Request,
    now: Moment,
) -> Given
    requires of { IsBothOf turns.now.table.shared.table_id both.old }
    requires fits { FitsRequest request.now }
    requires stand { BothStand V.stands (standing D.Disk E.logs E.start) both.old }
    ensures of { IsBothOf turns.now.table.shared.table_id both.new }
    ensures same { IsSamePass both.old both.new }
    ensures log { LogStands (standing D.Disk E.logs E.start) both.new.log.value (whole both.new) }
    ensures knows { Knows (whole both.new) }
    ensures goes_on { GoesOn E.client (whole both.old) (whole both.new) }
    ensures asks { AsksIs E.client V.entry V.moment V.stands V.answers (asked client line request.now now) (whole both.new) both.new.volume.value result }
{
    match ask_with_room(alloc, turns, both, client, line, request, now) {
        Given::NeedsLog => ask_behind_point(alloc, turns, both, client, line, request, now),
        given => given,
    }
}
