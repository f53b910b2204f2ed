//! The trait of a disk, with what its calls do to it and what a crash may leave.

ghost use Rattle.std.specs.Prelude.{◌≡◌, ◌≢◌, ◌<◌, ◌≤◌, ◌+◌, ◌-◌, ◌^◌, [], ◌∷◌, ◌++◌, ℕ, List, length, set, take, drop, min, OnOk, OnErr, IfOk, IfErr};
ghost use Rattle.jfs_disk.specs.Image.{Image, page_of, ArePages};
ghost use Rattle.jfs_disk.specs.Crash.{DiskState, IsCrashImage, seen_of, last_of, written, settled, TearsPage, LeavesTorn};
ghost use Rattle.jfs_disk.specs.Cut.{lows_of, highs_of, joined};
ghost use Rattle.jfs_disk.specs.Fault.{HasCause};

use crate::page::Page;

/// Why a device call did not do its work.
#[derive(Clone, Copy, PartialEq, Eq, Debug)]
pub enum DiskError {
    /// The device failed; the disk's count of faults rose, or stands at the last `u64` value.
    Failed,
    /// Memory ran out; nothing changed. Only a read answers it.
    Memory,
}

/// A part of a disk: all of it, the pages before the log, or the log and what lies behind it.
#[derive(Clone, Copy, PartialEq, Eq, Debug)]
pub enum Part {
    Whole,
    Low,
    High,
}

/// A fault of a device call: the part that failed, and its count of faults after it rose.
#[derive(Clone, Copy, PartialEq, Eq, Debug)]
pub struct Fault {
    pub part: Part,
    pub count: u64,
}

/// A disk of pages. A write may tear by whole sectors until a sync succeeds.
pub trait Disk: Sized {
    /// The number of pages.
    ghost page_count: { Self → ℕ };

    /// How often a device call failed, up to the last `u64` value.
    ghost fault_count: { Self → ℕ };

    /// Whether the disk tells what a read gives; one over real files doesn't.
    ghost tells: { Type 0 };

    /// What a read gives of each page.
    ghost image: { Self → Image };

    /// Whether the disk tells what a crash may leave.
    ghost tells_crashes: { Type 0 };

    /// The states that the disk has had, the oldest first. The last is the state now, and a moment is a place in the list.
    ghost past: { Self → List DiskState };

    /// How many pages the disk can have when another is joined to it. A part that was cut off in front can have as many as the
    /// disk that it was cut from.
    ghost room: { Self → ℕ };

    /// The number of pages.
    fn pages(&self) -> u32
        ensures { result ≡ page_count self.now };

    /// Reads page `n`. After an `Err`, `into` may hold any bytes.
    fn read(&mut self, n: u32, into: &mut Page) -> Result<(), DiskError>
        requires { n < page_count self.old }
        ensures bytes { OnOk result (tells → into.new.0 ≡ page_of (image self.old) n) }
        ensures pages { page_count self.new ≡ page_count self.old }
        ensures room { room self.new ≡ room self.old }
        ensures image { tells → image self.new ≡ image self.old }
        ensures past { tells_crashes → past self.new ≡ past self.old }
        ensures cause { HasCause (fault_count self.old) (fault_count self.new) result };

    /// Writes page `n`. It never answers `Memory`.
    fn write(&mut self, n: u32, from: &Page) -> Result<(), DiskError>
        requires { n < page_count self.old }
        ensures pages { page_count self.new ≡ page_count self.old }
        ensures room { room self.new ≡ room self.old }
        ensures image { OnOk result (tells → image self.new ≡ set (image self.old) n from.now.0) }
        ensures past { OnOk result (tells_crashes →
            past self.new ≡ past self.old ++ written n from.now.0 (last_of (past self.old)) ∷ []) }

        // After a failed write, a read gives some front sectors of the new bytes and the rest of the old ones.
        ensures image_failed { OnErr result (tells → TearsPage n from.now.0 (image self.old) (image self.new)) }
        ensures past_failed { OnErr result (tells_crashes → LeavesTorn n from.now.0 (past self.old) (past self.new)) }

        ensures cause { HasCause (fault_count self.old) (fault_count self.new) result }
        ensures no_memory { result ≢ Err DiskError.Memory };

    /// After it, a crash leaves what a read gives. It never answers `Memory`.
    fn sync(&mut self) -> Result<(), DiskError>
        ensures pages { page_count self.new ≡ page_count self.old }
        ensures room { room self.new ≡ room self.old }
        ensures image { tells → image self.new ≡ image self.old }
        ensures past { OnOk result (tells_crashes →
            past self.new ≡ past self.old ++ settled (last_of (past self.old)) ∷ []) }

        // A failed sync leaves the writes pending.
        ensures past_failed { OnErr result (tells_crashes → past self.new ≡ past self.old) }

        ensures cause { HasCause (fault_count self.old) (fault_count self.new) result }
        ensures no_memory { result ≢ Err DiskError.Memory };

    /// How often a device call failed.
    fn faults(&self) -> u64
        ensures { result ≡ fault_count self.now };

    /// Cuts the disk before page `at` into a low part and a high part, whose pages are numbered from 0 again. It makes no
    /// device call. It is refused for want of memory alone, and then hands the disk back.
    fn cut(self, at: u32) -> Result<(Self, Self), Self>
        requires { at ≤ page_count self }
        ensures pages { IfOk result (λ parts. (page_count parts.0 ≡ at) × (page_count parts.1 ≡ page_count self - at)) }
        ensures room { IfOk result (λ parts. (page_count self ≤ room parts.0) × (room self ≤ room parts.0)) }
        ensures faults { IfOk result (λ parts. fault_count parts.0 + fault_count parts.1 ≡ fault_count self) }
        ensures image { tells → IfOk result (λ parts. (image parts.0 ≡ take at (image self)) × (image parts.1 ≡ drop at (image self))) }
        ensures past { tells_crashes → IfOk result (λ parts. (past parts.0 ≡ lows_of at (past self)) × (past parts.1 ≡ highs_of at (past self))) }

        ensures same_pages { IfErr result (λ disk. page_count disk ≡ page_count self) }
        ensures same_room { IfErr result (λ disk. room disk ≡ room self) }
        ensures same_faults { IfErr result (λ disk. fault_count disk ≡ fault_count self) }
        ensures same_image { tells → IfErr result (λ disk. image disk ≡ image self) }
        ensures same_past { tells_crashes → IfErr result (λ disk. past disk ≡ past self) };

    /// The pages of both parts, the low ones first. Two parts of one cut can be joined, whatever calls came between. It takes
    /// no memory and can't fail.
    fn join(low: Self, high: Self) -> Self
        requires { page_count low + page_count high ≤ room low }
        ensures pages { page_count result ≡ page_count low + page_count high }
        ensures room { room result ≡ room low }
        ensures faults { fault_count result ≡ min (fault_count low + fault_count high) (2 ^ 64 - 1) }
        ensures image { tells → image result ≡ image low ++ image high }

        // The parts' crashes are apart: what may be left of the disk is what may be left of both.
        ensures state { tells_crashes → last_of (past result) ≡ last_of (past low) ++ last_of (past high) }

        // It has had the low part's states, and then the high part's.
        ensures past { tells_crashes → past result ≡ joined (past low) (past high) };

    /// There is one page for each number, and each has 4,096 bytes.
    ghost has_pages: { (disk : Self) → tells → ArePages (page_count disk) (image disk) };

    /// What a read gives is what the state now says.
    ghost reads_now: { (disk : Self) → tells_crashes → image disk ≡ seen_of (last_of (past disk)) };

    /// What a read gives is one of the images that a crash may leave now.
    ghost reads_crash: { (disk : Self) → tells_crashes → IsCrashImage (last_of (past disk)) (image disk) };

    /// There is a state now.
    ghost has_state: { (disk : Self) → tells_crashes → 0 < length (past disk) };
}
