//! A view of a volume's pages.

ghost use Rattle.std.specs.Prelude.{◌≡◌, ◌<◌, ℕ, IfOk};
ghost use Rattle.std.specs.Borrow.{sem};
ghost use Rattle.std.specs.Io.BufRead.{Rests};
ghost use Rattle.jfs_disk.specs.Image.{Image, page_of};
ghost use Rattle.jfs_disk.specs.declared.disk.Fault.{Fault};
ghost use Rattle.jfs_ranges.specs.View.{Device, IsLent, AreWhole};

use jfs_disk::{Fault, Page};

/// Why a page was not given.
#[derive(Clone, Copy, PartialEq, Eq, Debug)]
pub enum ViewError {
    /// The device failed; its count of faults rose to the fault's, and the part is its.
    Read(Fault),
    /// Memory ran out.
    Memory,
}

/// A file system's pages, as its calls read them.
pub trait PageView {
    /// The number of blocks of the file system part.
    ghost block_count: { Self → ℕ };

    /// The part of a disk that the view's device is, and how often a call of it failed, up to the last `u64` value.
    ghost faults: { Self → Fault };

    /// The bytes of each page, where the view tells them.
    ghost image: { Self → Image };

    /// Whether the view tells its pages.
    ghost tells: { Type 0 };

    /// Whether the view's device tells what a crash may leave.
    ghost crashes: { Type 0 };

    /// What the view's device has beside the pages that the view shows. Reading leaves it.
    ghost device: { Self → Device crashes };

    /// The number of blocks of the file system part.
    fn blocks(&self) -> u32
        ensures { result ≡ block_count self.now };

    /// Page `n`.
    fn page(&mut self, n: u32) -> Result<&Page, ViewError>
        requires { n < block_count self.old }
        ensures bytes { IfOk result (λ page. tells → page.now.0 ≡ page_of (image self.old) n) }

        // Once the page is given back, the view has the same pages and device, and its count rose only with a fault, which names the part.
        ensures* after { sem 𝓛 (Rests Self.row self.entry (λ new. IsLent tells
            (block_count self.old) (block_count new) (image self.old) (image new) (device self.old) (device new) (faults self.old) (faults new) result)) };

    /// Each page has 4,096 bytes.
    ghost has_pages: { (view : Self) → tells → AreWhole (block_count view) (image view) };
}
