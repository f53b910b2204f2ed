//! A mounted volume as the value of the volume turn, and what its clients' calls do with it.

ghost use Rattle.std.specs.Prelude.{◌≡◌};
ghost use Rattle.jfs_server.specs.Served.{given_by};

use jfs_bits::Moment;
use jfs_disk::{Disk, Fault};
use jfs_groups::{Collected, SharedLog};
use jfs_logpages::GroupText;
use jfs_plain::Request;
use jfs_serving::{Given, Serves};
use jfs_shared::{
    Outcome, Recorded, SharedVolume, call, commit_with, has_room_for_point, point_with,
};
use jfs_turns::Stands;
use std::alloc::Global;

/// A mounted volume that a turn guards.
#[derive(Drop)]
pub struct ServedVolume<D: Disk> {
    pub(crate) shared: SharedVolume<D>,
}

impl<D: Disk> Stands<Recorded> for ServedVolume<D> {
    ghost use Rattle.jfs_server.specs.Served.{standing};

    ghost stands = { standing D.Disk };

    ghost count = { λ v. v.shared.points };

    fn syncpoints(&self) -> u64 {
        self.shared.syncpoints()
    }
}

impl<D: Disk> Collected<Recorded> for ServedVolume<D> {
    fn take_group(&mut self) -> GroupText {
        self.shared.take_group()
    }

    fn told(&mut self, n: u64) {
        self.shared.told(n);
    }

    fn halt(&mut self, fault: Fault) {
        self.shared.halt(fault);
    }
}

impl<D: Disk> Serves<D, Recorded> for ServedVolume<D> {
    ghost use Rattle.jfs_server.specs.Served.{moment_of, answers_of, entry_in};

    ghost entry = { entry_in };

    ghost moment = { moment_of };

    ghost answers = { answers_of D.Disk };

    fn call(
        &mut self,
        alloc: Global,
        client: u32,
        line: u32,
        request: &Request,
        now: Moment,
    ) -> Given {
        given(call(alloc, &mut self.shared, client, line, request, now))
    }

    fn commit(&mut self, log: &mut SharedLog<D>) {
        match commit_with(&mut self.shared, log) {
            Ok(()) => {}
            Err(_) => {}
        }
    }

    fn point(&mut self, log: &mut SharedLog<D>) {
        if self.shared.halted().is_some() || !has_room_for_point(&self.shared) {
            self.commit(log);
            return;
        }
        match point_with(&mut self.shared, log) {
            Ok(()) => {}
            Err(_) => {}
        }
    }
}

/// An answer of a volume, as what it gives a call.
fn given(outcome: Outcome) -> Given
    ensures { result ≡ given_by outcome }
{
    match outcome {
        Outcome::Replied {
            reply,
            entry,
            waits,
        } => Given::Replied {
            reply,
            entry,
            waits,
        },
        Outcome::NeedsLog => Given::NeedsLog,
        Outcome::NoMemory => Given::NoMemory,
    }
}
