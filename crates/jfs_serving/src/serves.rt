//! What a volume does for many clients.
ghost use Rattle.std.specs.Prelude.{◌≡◌, None};
ghost use Rattle.jfs_bits.specs.declared.descriptor.Moment.{Moment};
ghost use Rattle.jfs_plain.specs.Limits.{FitsRequest};
ghost use Rattle.jfs_plain.specs.declared.call.Entry.{Entry};
ghost use Rattle.jfs_groups.specs.Log.{standing};
ghost use Rattle.jfs_serving.specs.Calls.{Asked, asked, CallIs};
ghost use Rattle.jfs_groups.specs.Group.{StandsForSome};
ghost use Rattle.jfs_serving.specs.Room.{AreTogether, MakesRoom};
ghost use Rattle.jfs_serving.specs.declared.serves.Given.{Given};

use jfs_bits::Moment;
use jfs_disk::Disk;
use jfs_groups::{Collected, HasRecords, SharedLog};
use jfs_plain::{Reply, Request};
use std::alloc::Global;

/// What a volume gives a call.
#[derive(Drop)]
pub enum Given {
    /// The call has its reply and its entry, by its number from 1. It waits where its client goes on only once it is durable.
    Replied {
        reply: Reply,
        entry: u64,
        waits: bool,
    },
    /// It has no entry: it is to be called again after a commit or a syncpoint.
    NeedsLog,
    /// Memory ran out, and it has no entry.
    NoMemory,
}

/// A volume that does the calls of many clients, whoever has its turn.
pub trait Serves<D: Disk, E: HasRecords>: Collected<E> {
    /// What call an entry is of, and the moment of the call.
    ghost entry: { E → Entry };

    ghost moment: { E → Moment };

    /// What the volume says of an answer: the call, the volume before it and after it, and the answer.
    ghost answers: { Asked → Self → Self → Given → Type 0 };

    /// A call of a client, by its line, at this moment. Where it is replied, its entry joins the list.
    fn call(
        &mut self,
        alloc: Global,
        client: u32,
        line: u32,
        request: &Request,
        now: Moment,
    ) -> Given
        requires fits { FitsRequest request.now }
        requires stands { StandsForSome Self.stands self.old }
        ensures list { CallIs E.client entry moment Self.stands (asked client line request.now now) self.old self.new result }
        ensures answers { answers (asked client line request.now now) self.old self.new result };

    /// Makes all entries so far durable, where the log doesn't fail. All are taken into groups then. It takes no memory.
    fn commit(&mut self, log: &mut SharedLog<D>)
        requires running { log.old.side.halted ≡ None }
        requires together { AreTogether Self.stands (standing D.Disk E.logs E.start) self.old log.old }
        ensures makes { MakesRoom Self.stands (standing D.Disk E.logs E.start) Self.count self.old log.old self.new log.new };

    /// The same, and a syncpoint where there is room for one, so that the log is empty before it.
    fn point(&mut self, log: &mut SharedLog<D>)
        requires running { log.old.side.halted ≡ None }
        requires together { AreTogether Self.stands (standing D.Disk E.logs E.start) self.old log.old }
        ensures makes { MakesRoom Self.stands (standing D.Disk E.logs E.start) Self.count self.old log.old self.new log.new };
}
