//! The writer of the log.

ghost use Rattle.std.specs.Prelude.{◌≡◌, ◌<◌, ◌≤◌, ◌+◌, ◌-◌, ◌*◌, ◌/◌, ◌^◌, ◌++◌, ℕ, List, length, OnOk, OnErr, IfOk, IfErr, IsErrOf, None, Some};
ghost use Rattle.jfs_disk.specs.Crash.{last_of, AllSince};
ghost use Rattle.jfs_disk.specs.declared.disk.Part.TheVariants.{High};
ghost use Rattle.jfs_disk.specs.Fault.{HasCause};
ghost use Rattle.jfs_disk.specs.Moment.{IsResting, now_of};
ghost use Rattle.jfs_bits.specs.Count.{Rose};
ghost use Rattle.jfs_logfmt.specs.Written.{text_of};
ghost use Rattle.jfs_logpages.specs.Fresh.{first_record, IsFreshLog, IsPartlyFresh, OthersStay, IsOutside, HistoriesStay};
ghost use Rattle.jfs_logpages.specs.Group.{Holds, pages_of, room_of, position_of, number_after};
ghost use Rattle.jfs_logpages.specs.Ring.{ends_with, fresh_text, fresh_ends, ReadsPrefix, ReadsWhole};

use crate::fault::{LogFault, LogRefused};
use crate::fresh::write_log;
use crate::group::write_group;
use crate::group_text::GroupText;
use crate::last::Last;
use jfs_disk::{Disk, DiskError, Fault, Part};
use uuid::Uuid;

/// The log's part of a disk, and its last page, at whose end groups of records are written.
#[derive(Drop)]
pub struct LogSide<D: Disk> {
    part: D,
    last: Last,
    durable: u64,
    halted: Option<Fault>,
    ghost place: { 2 + last.ring ≤ D.page_count part },
    ghost ring: { (254 ≤ last.ring) × (last.ring < 2 ^ 16) },
    ghost fill: { (0 < last.fill) × (last.fill ≤ 4080) },
}

/// Writes a fresh log at the start of the part, and syncs.
fn start<D: Disk>(part: &mut D, pages: u32, uuid: Uuid) -> Result<Last, DiskError>
    requires place { pages ≤ D.page_count part.old }
    requires pages { (256 ≤ pages) × (pages ≤ 32768) }
    ensures count { D.page_count part.new ≡ D.page_count part.old }
    ensures last { IfOk result (λ last. (last.ring ≡ pages - 2) × (last.number ≡ pages - 3) × (last.fill ≡ 36)) }
    ensures holds { IfOk result (λ last. D.tells → Holds last (fresh_text (pages - 2) (text_of first_record)) (fresh_ends (pages - 2)) (D.image part.new)) }
    ensures image { OnOk result (D.tells → IsFreshLog pages uuid (D.image part.new)) }
    ensures others { D.tells → OthersStay 1 (pages - 1) (D.image part.old) (D.image part.new) }
    ensures resting { OnOk result (D.tells_crashes → IsResting (last_of (D.past part.new))) }
    ensures moments { D.tells → D.tells_crashes → IsResting (last_of (D.past part.old)) → AllSince (IsPartlyFresh 0 pages uuid (D.image part.old)) (D.past part.new) (now_of (D.past part.old)) }
    ensures cause { HasCause (D.fault_count part.old) (D.fault_count part.new) result }
    ensures no_memory { IsErrOf result DiskError.Memory → ⊥ }
{
    let page = write_log(part, 0, pages, uuid)?;
    part.sync()?;
    Ok(Last {
        ring: pages - 2,
        number: pages - 3,
        fill: 36,
        page,
    })
}

impl<D: Disk> LogSide<D> {
    /// Makes the first `pages` pages of the part a fresh log with one SYNCPT, and syncs.
    ///
    /// # Errors
    ///
    /// A write or the sync failed; the part is handed back.
    pub fn fresh(part: D, pages: u32, uuid: Uuid) -> Result<LogSide<D>, LogRefused<D>>
        requires place { pages ≤ D.page_count part }
        requires pages { (256 ≤ pages) × (pages ≤ 32768) }
        ensures size { IfOk result (λ side. (side.last.ring ≡ pages - 2) × (side.last.number ≡ pages - 3) × (side.last.fill ≡ 36) × (D.page_count side.part ≡ D.page_count part)) }
        ensures position { IfOk result (λ side. position_of side.last ≡ 4080 * (pages - 3) + 36) }
        ensures counts { IfOk result (λ side. (side.durable ≡ 0) × (side.halted ≡ None) × (D.fault_count side.part ≡ D.fault_count part)) }

        // The part is a fresh log, its other pages are as they were, and nothing is pending.
        ensures holds { IfOk result (λ side. D.tells → Holds side.last (fresh_text (pages - 2) (text_of first_record)) (fresh_ends (pages - 2)) (D.image side.part)) }
        ensures image { IfOk result (λ side. D.tells → IsFreshLog pages uuid (D.image side.part)) }
        ensures others { IfOk result (λ side. D.tells → OthersStay 1 (pages - 1) (D.image part) (D.image side.part)) }
        ensures resting { IfOk result (λ side. D.tells_crashes → IsResting (last_of (D.past side.part))) }

        // At each moment since the start, also after a failure, a crash leaves old pages, fresh ones, and fresh front sectors over old pages.
        ensures moments { IfOk result (λ side. D.tells → D.tells_crashes → IsResting (last_of (D.past part)) → AllSince (IsPartlyFresh 0 pages uuid (D.image part)) (D.past side.part) (now_of (D.past part))) }
        ensures moments_failed { IfErr result (λ refused. D.tells → D.tells_crashes → IsResting (last_of (D.past part)) → AllSince (IsPartlyFresh 0 pages uuid (D.image part)) (D.past refused.part) (now_of (D.past part))) }

        ensures handed_back { IfErr result (λ refused. (D.page_count refused.part ≡ D.page_count part) × (D.tells → OthersStay 1 (pages - 1) (D.image part) (D.image refused.part))) }
        ensures cause { IfErr result (λ refused. Rose (D.fault_count part) (D.fault_count refused.part) × (refused.why.fault ≡ record { part = High; count = D.fault_count refused.part })) }
    {
        let mut part = part;
        match start(&mut part, pages, uuid) {
            Ok(last) => Ok(LogSide {
                part,
                last,
                durable: 0,
                halted: None,
            }),
            Err(_) => {
                let count = part.faults();
                Err(LogRefused {
                    part,
                    why: LogFault {
                        fault: Fault {
                            part: Part::High,
                            count,
                        },
                    },
                })
            }
        }
    }

    /// The number of the last entry that this log side made durable, 0 before the first.
    pub fn durable(&self) -> u64
        ensures { result ≡ self.now.durable }
    {
        self.durable
    }

    /// The fault of the group write that failed; after it nothing more is written.
    pub fn halted(&self) -> Option<Fault>
        ensures { result ≡ self.now.halted }
    {
        self.halted
    }

    /// The greatest number of ring pages that one group may take: a quarter of the ring.
    pub fn room(&self) -> u32
        ensures { result ≡ room_of self.now.last.ring }
    {
        self.last.ring / 4
    }

    /// How many bytes of text the log has, counted from the ring's page number 0 on. A page holds 4,080 of them.
    pub fn position(&self) -> u64
        ensures { result ≡ position_of self.now.last }
    {
        4080 * u64::from(self.last.number) + self.last.fill as u64
    }

    /// Hands back the part.
    pub fn into_part(self) -> D
        ensures { result ≡ self.part }
    {
        let LogSide {
            part,
            last: _,
            durable: _,
            halted: _,
        } = self;
        part
    }

    /// Writes a group at the log's end, and syncs. The text's records are those of the entries after
    /// `durable()` up to its last one, in order, beside SYNCPTs. It takes no memory.
    ///
    /// # Errors
    ///
    /// A write or a sync failed; this log side is then halted by that fault.
    pub fn write_group(&mut self, text: &GroupText) -> Result<(), LogFault>
        requires running { self.old.halted ≡ None }
        requires room { pages_of (length text.now.bytes.items) ≤ room_of self.old.last.ring }
        requires later { self.old.durable ≤ text.now.last }
        // Page numbers have 32 bits.
        requires numbers { position_of self.old.last + length text.now.bytes.items ≤ 4080 * 2 ^ 32 }
        ensures size { (self.new.last.ring ≡ self.old.last.ring) × (D.page_count self.new.part ≡ D.page_count self.old.part) }

        // At each moment since the start, also after a failure, a crash leaves a ring that reads as the old text and
        // then the records of the group up to some end, from no later than half a ring before the group's last page on.
        ensures moments { D.tells → D.tells_crashes → (before ends : List ℕ)
            → Holds self.old.last before ends (D.image self.old.part)
            → IsResting (last_of (D.past self.old.part))
            → AllSince (ReadsPrefix self.old.last.ring before text.now.bytes.items text.now.ends.items (number_after self.old.last (length text.now.bytes.items)))
            (D.past self.new.part) (now_of (D.past self.old.part)) }
        // The moment now is one of these; and a crash leaves of the pages beside the ring what it did.
        ensures past { D.tells_crashes → IsResting (last_of (D.past self.old.part)) → HistoriesStay (IsOutside 2 self.old.last.ring) (D.past self.old.part) (D.past self.new.part) }

        // At Ok the log is the old text and the whole group, which the ring reads as, and nothing is pending.
        ensures number { OnOk result (self.new.last.number ≡ number_after self.old.last (length text.now.bytes.items)) }
        ensures position { OnOk result (position_of self.new.last ≡ position_of self.old.last + length text.now.bytes.items) }
        ensures holds { OnOk result (D.tells → (before ends : List ℕ)
            → Holds self.old.last before ends (D.image self.old.part)
            → Holds self.new.last (before ++ text.now.bytes.items) (ends_with (length before) ends text.now.ends.items) (D.image self.new.part)
            × ReadsWhole self.new.last.ring (before ++ text.now.bytes.items) self.new.last.number (D.image self.new.part)) }
        ensures resting { OnOk result (D.tells_crashes → IsResting (last_of (D.past self.old.part)) → IsResting (last_of (D.past self.new.part))) }
        ensures durable { OnOk result ((self.new.durable ≡ text.now.last) × (self.new.halted ≡ None) × (D.fault_count self.new.part ≡ D.fault_count self.old.part)) }

        ensures halts { IfErr result (λ why. (self.new.halted ≡ Some why.fault) × (self.new.durable ≡ self.old.durable)) }
        ensures cause { IfErr result (λ why. Rose (D.fault_count self.old.part) (D.fault_count self.new.part) × (why.fault ≡ record { part = High; count = D.fault_count self.new.part })) }
    {
        match write_group(&mut self.part, &mut self.last, text.bytes(), text.ends()) {
            Ok(()) => {
                self.durable = text.last();
                Ok(())
            }
            Err(_) => {
                let fault = Fault {
                    part: Part::High,
                    count: self.part.faults(),
                };
                self.halted = Some(fault);
                Err(LogFault { fault })
            }
        }
    }
}
