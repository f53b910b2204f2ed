//! A disk in memory that can fail and crash.

ghost use Rattle.std.specs.Prelude.{◌≡◌, ◌≢◌, ◌<◌, ◌≤◌, ◌⊎◌, ◌++◌, ◌∷◌, [], take, drop, min, ◌+◌, ◌-◌, ◌^◌, OnOk, OnErr, IfOk, IfErr, true, false, is_ok, set, if◌then◌else◌};
ghost use Rattle.jfs_disk.specs.Image.{zeros, page_of};
ghost use Rattle.jfs_disk.specs.Crash.{seen_of, last_of, written, failed, settled, TearsPage, LeavesTorn, IsCrashImage, at_rest};
ghost use Rattle.jfs_disk.specs.Choice.{IsChosen};
ghost use Rattle.jfs_disk.specs.Cut.{lows_of, highs_of, joined};
ghost use Rattle.jfs_disk.specs.Fault.{HasCause};
ghost use Rattle.jfs_bits.specs.Count.{Rose};
ghost use Rattle.jfs_disk.specs.Plan.{raised, tallied, untouched};
ghost use Rattle.jfs_disk.specs.Store.{past_in};
ghost use Rattle.jfs_disk.specs.Memory.{page_count_of, past_of_disk, image_of_disk, fault_count_of, part_of, fails_of, tally_of, room_of, lost_writes_of, will_fail, LeavesTrace};
ghost use Rattle.jfs_disk.specs.TableLaw.{reads_crash_of, whole_of};
ghost use Rattle.std.proofs.Common.{refl};

use crate::choice::Choice;
use crate::disk::{Disk, DiskError, Part};
use crate::page::Page;
use crate::plan::{Fail, Kind, Plan, Tally};
use crate::store::Store;
use std::alloc::Global;

/// A disk in memory. It keeps only pages that were written; all others read as zeros.
/// A write that finds no memory fails, and leaves the page as it was. It keeps the pages that were written and the
/// writes since the last sync, and no others.
#[derive(Drop)]
pub struct MemDisk {
    store: Store,
    plan: Plan,
    faults: u64,
    lost_writes: u64,
}

impl MemDisk {
    /// A disk of so many pages of zeros, none of whose calls fails. It takes no memory yet.
    pub fn new(alloc: Global, pages: u32) -> MemDisk
        ensures pages { page_count_of result ≡ pages }
        ensures room { room_of result ≡ 0 }
        ensures past { past_of_disk result ≡ at_rest (zeros pages) ∷ [] }
        ensures faults { fault_count_of result ≡ 0 }
        ensures lost { lost_writes_of result ≡ 0 }
        ensures part { part_of result ≡ Part.Whole }
        ensures fails { fails_of result ≡ [] }
        ensures tally { tally_of result ≡ untouched }
    {
        MemDisk {
            store: Store::new(alloc, pages),
            plan: Plan {
                part: Part::Whole,
                fails: Vec::new(alloc),
                tally: Tally::new(),
                alloc,
            },
            faults: 0,
            lost_writes: 0,
        }
    }

    /// The same disk, of which these calls fail, and which counts its calls anew.
    pub fn with_fails(self, fails: Vec<Fail>) -> MemDisk
        ensures fails { fails_of result ≡ fails.items }
        ensures tally { tally_of result ≡ untouched }
        ensures pages { page_count_of result ≡ page_count_of self }
        ensures room { room_of result ≡ room_of self }
        ensures past { past_of_disk result ≡ past_of_disk self }
        ensures faults { fault_count_of result ≡ fault_count_of self }
        ensures lost { lost_writes_of result ≡ lost_writes_of self }
        ensures part { part_of result ≡ part_of self }
    {
        MemDisk {
            store: self.store,
            plan: Plan {
                part: self.plan.part,
                fails,
                tally: Tally::new(),
                alloc: self.plan.alloc,
            },
            faults: self.faults,
            lost_writes: self.lost_writes,
        }
    }

    /// The disk after a crash: each page as its first choice says, where that fits, and else as a read gave it.
    /// None of its calls fails, and it counts anew. It takes no memory.
    pub fn crashed(self, choices: &[Choice]) -> MemDisk
        ensures chosen { IsChosen choices.now (last_of (past_of_disk self)) (image_of_disk result) }
        ensures crash { IsCrashImage (last_of (past_of_disk self)) (image_of_disk result) }
        ensures past { past_of_disk result ≡ at_rest (image_of_disk result) ∷ [] }
        ensures pages { page_count_of result ≡ page_count_of self }
        ensures room { room_of result ≡ room_of self }
        ensures faults { fault_count_of result ≡ 0 }
        ensures lost { lost_writes_of result ≡ 0 }
        ensures part { part_of result ≡ part_of self }
        ensures fails { fails_of result ≡ [] }
        ensures tally { tally_of result ≡ untouched }
    {
        let mut store = self.store;
        store.crash(choices);
        let mut fails = self.plan.fails;
        fails.clear();
        MemDisk {
            store,
            plan: Plan {
                part: self.plan.part,
                fails,
                tally: Tally::new(),
                alloc: self.plan.alloc,
            },
            faults: 0,
            lost_writes: 0,
        }
    }

    /// How many writes that failed, as one of the fails said, found no memory to be pending. The disk is then as it was.
    pub fn lost_writes(&self) -> u64
        ensures { result ≡ lost_writes_of self.now }
    {
        self.lost_writes
    }

    /// A write that fails as one of the fails says: it is pending, and the page is as it was.
    fn leave_trace(&mut self, n: u32, from: &Page)
        requires { n < page_count_of self.old }
        ensures trace { LeavesTrace n from.now.0 self.old self.new }
        ensures image { image_of_disk self.new ≡ image_of_disk self.old }
        ensures pages { page_count_of self.new ≡ page_count_of self.old }
        ensures room { room_of self.new ≡ room_of self.old }
        ensures faults { fault_count_of self.new ≡ fault_count_of self.old }
        ensures plan { self.new.plan ≡ self.old.plan }
    {
        match self.store.write(n, from, true) {
            Ok(()) => {}
            Err(_) => self.lost_writes = self.lost_writes.saturating_add(1),
        }
    }

    /// Raises the count of faults, up to the last `u64` value.
    fn fault(&mut self) -> DiskError
        ensures error { result ≡ DiskError.Failed }
        ensures faults { fault_count_of self.new ≡ raised (fault_count_of self.old) }
        ensures later { fault_count_of self.old ≤ fault_count_of self.new }
        ensures rose { Rose (fault_count_of self.old) (fault_count_of self.new) }
        ensures store { self.new.store ≡ self.old.store }
        ensures plan { self.new.plan ≡ self.old.plan }
        ensures lost { lost_writes_of self.new ≡ lost_writes_of self.old }
    {
        self.faults = self.faults.saturating_add(1);
        DiskError::Failed
    }
}

impl Disk for MemDisk {
    ghost page_count = { page_count_of };

    ghost fault_count = { fault_count_of };

    ghost room = { room_of };

    ghost tells = { Unit {0} };

    ghost image = { image_of_disk };

    ghost tells_crashes = { Unit {0} };

    ghost past = { past_of_disk };

    fn pages(&self) -> u32 {
        self.store.pages()
    }

    /// It fails exactly where one of the fails says so.
    fn read(&mut self, n: u32, into: &mut Page) -> Result<(), DiskError>
        requires { n < page_count_of self.old }
        ensures fails { result ≡ (if will_fail Kind.Read self.old then Err DiskError.Failed else Ok tt) }
        ensures bytes { OnOk result (into.new.0 ≡ page_of (image_of_disk self.old) n) }
        ensures pages { page_count_of self.new ≡ page_count_of self.old }
        ensures room { room_of self.new ≡ room_of self.old }
        ensures past { past_of_disk self.new ≡ past_of_disk self.old }
        ensures faults { fault_count_of self.new ≡ (if will_fail Kind.Read self.old then raised (fault_count_of self.old) else fault_count_of self.old) }
        ensures cause { HasCause (fault_count_of self.old) (fault_count_of self.new) result }
        ensures tally { tally_of self.new ≡ tallied (part_of self.old) Kind.Read (tally_of self.old) }
        ensures lost { lost_writes_of self.new ≡ lost_writes_of self.old }
        ensures plan { (part_of self.new ≡ part_of self.old) × (fails_of self.new ≡ fails_of self.old) }
    {
        if self.plan.count(Kind::Read) {
            return Err(self.fault());
        }
        self.store.read(n, into);
        Ok(())
    }

    /// It fails where one of the fails says so, and else for want of memory alone. The page is then as it was.
    #[tactic(auto, using(crate::proofs::Outcomes::tears_nothing))]
    fn write(&mut self, n: u32, from: &Page) -> Result<(), DiskError>
        requires { n < page_count_of self.old }
        ensures fails { OnOk result (will_fail Kind.Write self.old ≡ false) }
        ensures past { OnOk result (past_of_disk self.new ≡ past_of_disk self.old ++ written n from.now.0 (last_of (past_of_disk self.old)) ∷ []) }
        ensures image { OnOk result (image_of_disk self.new ≡ set (image_of_disk self.old) n from.now.0) }
        ensures past_failed { OnErr result (LeavesTorn n from.now.0 (past_of_disk self.old) (past_of_disk self.new)) }
        ensures image_failed { OnErr result (TearsPage n from.now.0 (image_of_disk self.old) (image_of_disk self.new)) }
        ensures pending { OnErr result ((past_of_disk self.new ≡ past_of_disk self.old)
            ⊎ (past_of_disk self.new ≡ past_of_disk self.old ++ failed n from.now.0 0 (last_of (past_of_disk self.old)) ∷ [])) }

        // A write that one of the fails says fails is pending. Any other failure leaves the disk as it was.
        ensures trace { will_fail Kind.Write self.old ≡ true → LeavesTrace n from.now.0 self.old self.new }
        ensures no_trace { will_fail Kind.Write self.old ≡ false → OnErr result (past_of_disk self.new ≡ past_of_disk self.old) }
        ensures lost { will_fail Kind.Write self.old ≡ false → lost_writes_of self.new ≡ lost_writes_of self.old }
        ensures page_stays { OnErr result (image_of_disk self.new ≡ image_of_disk self.old) }
        ensures error { result ≢ Err DiskError.Memory }
        ensures pages { page_count_of self.new ≡ page_count_of self.old }
        ensures room { room_of self.new ≡ room_of self.old }
        ensures faults { fault_count_of self.new ≡ (if is_ok result then fault_count_of self.old else raised (fault_count_of self.old)) }
        ensures cause { HasCause (fault_count_of self.old) (fault_count_of self.new) result }
        ensures tally { tally_of self.new ≡ tallied (part_of self.old) Kind.Write (tally_of self.old) }
        ensures plan { (part_of self.new ≡ part_of self.old) × (fails_of self.new ≡ fails_of self.old) }
    {
        if self.plan.count(Kind::Write) {
            self.leave_trace(n, from);
            return Err(self.fault());
        }
        match self.store.write(n, from, false) {
            Ok(()) => Ok(()),
            Err(_) => Err(self.fault()),
        }
    }

    /// It fails exactly where one of the fails says so.
    fn sync(&mut self) -> Result<(), DiskError>
        ensures fails { result ≡ (if will_fail Kind.Sync self.old then Err DiskError.Failed else Ok tt) }
        ensures past { OnOk result (past_of_disk self.new ≡ past_of_disk self.old ++ settled (last_of (past_of_disk self.old)) ∷ []) }
        ensures image { image_of_disk self.new ≡ image_of_disk self.old }
        ensures past_failed { OnErr result (past_of_disk self.new ≡ past_of_disk self.old) }
        ensures error { result ≢ Err DiskError.Memory }
        ensures pages { page_count_of self.new ≡ page_count_of self.old }
        ensures room { room_of self.new ≡ room_of self.old }
        ensures faults { fault_count_of self.new ≡ (if is_ok result then fault_count_of self.old else raised (fault_count_of self.old)) }
        ensures cause { HasCause (fault_count_of self.old) (fault_count_of self.new) result }
        ensures tally { tally_of self.new ≡ tallied (part_of self.old) Kind.Sync (tally_of self.old) }
        ensures lost { lost_writes_of self.new ≡ lost_writes_of self.old }
        ensures plan { (part_of self.new ≡ part_of self.old) × (fails_of self.new ≡ fails_of self.old) }
    {
        if self.plan.count(Kind::Sync) {
            return Err(self.fault());
        }
        self.store.sync();
        Ok(())
    }

    fn faults(&self) -> u64 {
        self.faults
    }

    /// The parts have the same fails, and number their own calls.
    fn cut(self, at: u32) -> Result<(Self, Self), Self>
        requires { at ≤ page_count_of self }
        ensures pages { IfOk result (λ parts. (page_count_of parts.0 ≡ at) × (page_count_of parts.1 ≡ page_count_of self - at)) }
        ensures room { IfOk result (λ parts. (page_count_of self ≤ room_of parts.0) × (room_of self ≤ room_of parts.0)) }
        ensures faults { IfOk result (λ parts. fault_count_of parts.0 + fault_count_of parts.1 ≡ fault_count_of self) }
        ensures image { IfOk result (λ parts. (image_of_disk parts.0 ≡ take at (image_of_disk self)) × (image_of_disk parts.1 ≡ drop at (image_of_disk self))) }
        ensures past { IfOk result (λ parts. (past_of_disk parts.0 ≡ lows_of at (past_of_disk self)) × (past_of_disk parts.1 ≡ highs_of at (past_of_disk self))) }
        ensures part { IfOk result (λ parts. (part_of parts.0 ≡ Part.Low) × (part_of parts.1 ≡ Part.High)) }
        ensures fails { IfOk result (λ parts. (fails_of parts.0 ≡ fails_of self) × (fails_of parts.1 ≡ fails_of self)) }
        ensures tally { IfOk result (λ parts. (tally_of parts.0 ≡ tally_of self) × (tally_of parts.1 ≡ tally_of self)) }
        ensures lost { IfOk result (λ parts. (lost_writes_of parts.0 ≡ lost_writes_of self) × (lost_writes_of parts.1 ≡ 0)) }

        ensures same_pages { IfErr result (λ disk. page_count_of disk ≡ page_count_of self) }
        ensures same_room { IfErr result (λ disk. room_of disk ≡ room_of self) }
        ensures same_faults { IfErr result (λ disk. fault_count_of disk ≡ fault_count_of self) }
        ensures same_image { IfErr result (λ disk. image_of_disk disk ≡ image_of_disk self) }
        ensures same_past { IfErr result (λ disk. past_of_disk disk ≡ past_of_disk self) }
        ensures same_plan { IfErr result (λ disk. (part_of disk ≡ part_of self) × (fails_of disk ≡ fails_of self) × (tally_of disk ≡ tally_of self)) }
    {
        let alloc = self.plan.alloc;
        let Ok(fails) = self.plan.fails.as_slice().to_vec(alloc) else {
            return Err(self);
        };
        let MemDisk {
            store,
            plan,
            faults,
            lost_writes,
        } = self;
        match store.cut(at) {
            Ok((low, high)) => Ok((
                MemDisk {
                    store: low,
                    plan: Plan {
                        part: Part::Low,
                        fails: plan.fails,
                        tally: plan.tally,
                        alloc,
                    },
                    faults,
                    lost_writes,
                },
                MemDisk {
                    store: high,
                    plan: Plan {
                        part: Part::High,
                        fails,
                        tally: plan.tally,
                        alloc,
                    },
                    faults: 0,
                    lost_writes: 0,
                },
            )),
            Err(store) => Err(MemDisk {
                store,
                plan,
                faults,
                lost_writes,
            }),
        }
    }

    /// The disk is whole, and has the low part's fails. Each part's calls go on where they stood.
    fn join(low: Self, high: Self) -> Self
        requires { page_count_of low + page_count_of high ≤ room_of low }
        ensures pages { page_count_of result ≡ page_count_of low + page_count_of high }
        ensures room { room_of result ≡ room_of low }
        ensures faults { fault_count_of result ≡ min (fault_count_of low + fault_count_of high) (2 ^ 64 - 1) }
        ensures image { image_of_disk result ≡ image_of_disk low ++ image_of_disk high }
        ensures state { last_of (past_of_disk result) ≡ last_of (past_of_disk low) ++ last_of (past_of_disk high) }
        ensures past { past_of_disk result ≡ joined (past_of_disk low) (past_of_disk high) }
        ensures part { part_of result ≡ Part.Whole }
        ensures fails { fails_of result ≡ fails_of low }
        ensures tally { tally_of result ≡ record (tally_of low) { high = (tally_of high).high } }
        ensures lost { lost_writes_of result ≡ min (lost_writes_of low + lost_writes_of high) (2 ^ 64 - 1) }
    {
        MemDisk {
            store: Store::join(low.store, high.store),
            plan: Plan {
                part: Part::Whole,
                fails: low.plan.fails,
                tally: Tally {
                    whole: low.plan.tally.whole,
                    low: low.plan.tally.low,
                    high: high.plan.tally.high,
                },
                alloc: low.plan.alloc,
            },
            faults: low.faults.saturating_add(high.faults),
            lost_writes: low.lost_writes.saturating_add(high.lost_writes),
        }
    }

    ghost has_pages = { λ disk _. whole_of disk.store.count disk.store.slots.items disk.store.past.states disk.store.current };

    ghost reads_now = { λ _ _. refl };

    ghost reads_crash = { λ disk _. reads_crash_of disk.store.count disk.store.slots.items disk.store.past.states disk.store.current };

    ghost has_state = { λ disk _. disk.store.begun };
}
