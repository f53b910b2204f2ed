//! Entries that join the history.

ghost use Rattle.std.specs.Prelude.{◌≡◌, ◌<◌, ◌+◌, ◌^◌, ℕ, OnOk, OnErr};
ghost use Rattle.jfs_bits.specs.declared.descriptor.Moment.{Moment};
ghost use Rattle.jfs_halves.specs.Parts.{OfEachHalf};
ghost use Rattle.jfs_volume.specs.Join.{Joins, JoinsParts, entry_with, unchanged, with_entry};
ghost use Rattle.jfs_volume.specs.declared.outcome.Outcome.TheVariants.{Replied, NoMemory};

use crate::outcome::Outcome;
use crate::volume::Volume;
use jfs_disk::Disk;
use jfs_plain::{Entry, Reply, Request};
use std::alloc::AllocError;

impl<D: Disk> Volume<D> {
    /// A call of a client that changes nothing gets this reply, and its entry joins the history. It has no record in the log, so nobody waits until it is durable.
    pub fn join_reply(&mut self, client: u32, line: u32, request: &Request, reply: Reply) -> Outcome
        requires { self.old.appended + 1 < 2 ^ 64 }
        ensures joins { (now : Moment) → OfEachHalf D.tells D.tells_crashes self.old (λ seen asked half. Joins seen asked (unchanged client line request.now now reply half) self.old self.new half result) }
        ensures parts { JoinsParts (entry_with client line request.now reply) self.old self.new result }
        ensures number { (n : ℕ) → result ≡ Replied n → (n ≡ self.old.appended + 1) × (self.new.appended ≡ n) }
        ensures memory { result ≡ NoMemory → self.new ≡ self.old }
        ensures rest { (self.new.taken ≡ self.old.taken) × (self.new.told ≡ self.old.told) × (self.new.halted ≡ self.old.halted) × (self.new.text.ring ≡ self.old.text.ring) × (self.new.text.place ≡ self.old.text.place) }
    {
        let Ok(call) = request.call.copy(self.alloc) else {
            return Outcome::NoMemory;
        };
        let entry = Entry {
            client,
            line,
            call,
            lazy: request.lazy,
            reply,
        };
        let Ok(()) = self.add_entry(entry) else {
            return Outcome::NoMemory;
        };
        Outcome::Replied {
            entry: self.appended,
        }
    }

    /// An entry without records joins. At `Err`, which is want of memory, nothing changes.
    fn add_entry(&mut self, entry: Entry) -> Result<(), AllocError>
        requires { self.old.appended + 1 < 2 ^ 64 }
        ensures ok { OnOk result (self.new ≡ with_entry entry self.old) }
        ensures err { OnErr result (self.new ≡ self.old) }
    {
        match self.entries.push(entry) {
            Ok(()) => {}
            Err(_) => return Err(AllocError),
        }
        self.appended += 1;
        self.text.reach(self.appended);
        Ok(())
    }
}
