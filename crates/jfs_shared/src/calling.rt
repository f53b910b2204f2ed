//! A call of one of many clients.

ghost use Rattle.std.specs.Prelude.{◌≡◌, true};
ghost use Rattle.jfs_plain.specs.Limits.{FitsRequest};
ghost use Rattle.jfs_kept_history.specs.legal.specs.served.specs.call.specs.Answer.{IsAnswered};
ghost use Rattle.jfs_kept_history.specs.legal.specs.served.specs.call.specs.declared.outcome.Outcome.TheVariants.{NoMemory};
ghost use Rattle.jfs_shared.specs.Shared.{Stands, standing};
ghost use Rattle.jfs_shared.specs.Calls.{CallIs, BreaksOffBy};

use crate::shared::SharedVolume;
use jfs_bits::Moment;
use jfs_disk::Disk;
use jfs_kept_history::call::{Outcome, call_without_log};
use jfs_plain::Request;
use std::alloc::Global;

/// The number of the last entry that a volume can have.
const LAST_ENTRY: u64 = 4_294_967_295;

/// A call of a client, by its line, at this moment. Where it is replied its entry joins the list; `NeedsLog` tells that it is to be called again after a commit or a syncpoint. Behind a call for which memory ran out
/// the history is over, so each later one is answered so, too: the volume is still a consistent one, and has the tree of the last entry while it runs.
pub fn call<D: Disk>(
    alloc: Global,
    shared: &mut SharedVolume<D>,
    client: u32,
    line: u32,
    request: &Request,
    now: Moment,
) -> Outcome
    requires fits { FitsRequest request.now }
    requires stands { Stands D.Disk shared.old }
    ensures list { CallIs (standing D.Disk) client line request.now now shared.old shared.new result }
    ensures answered { IsAnswered client line request.now shared.old.volume shared.new.volume result }
    ensures over { shared.old.is_broken_off ≡ true → (result ≡ NoMemory) × (shared.new ≡ shared.old) }
    ensures points { shared.new.points ≡ shared.old.points }
    ensures breaks { BreaksOffBy shared.old.is_broken_off shared.new.is_broken_off result }
{
    if shared.volume.appended() >= LAST_ENTRY {
        return Outcome::NoMemory;
    }
    if shared.is_broken_off() {
        return Outcome::NoMemory;
    }
    match call_without_log(alloc, &mut shared.volume, client, line, request, now) {
        Outcome::NoMemory => {
            shared.is_broken_off = true;
            Outcome::NoMemory
        }
        outcome => outcome,
    }
}
