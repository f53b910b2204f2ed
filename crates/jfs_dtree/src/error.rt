//! Why a call on a directory tree fails.

ghost use Rattle.std.specs.Prelude.{◌≡◌};

use jfs_bits::Rule;
use jfs_ranges::ViewError;

/// Why a call on a directory tree failed.
#[derive(Clone, Copy, PartialEq, Eq, Debug)]
pub enum DtError {
    /// A page could not be read, or memory ran out.
    View(ViewError),
    /// The page breaks the rule; 2^32 - 1, which is no page, stands for the root.
    Bad { page: u32, rule: Rule },
    /// The directory has the name.
    Exists,
    /// The directory doesn't have the name.
    Missing,
    /// The tree has 8 levels, and each page below its root on the name's way has fewer free slots than a longest name takes, which is 18.
    TooDeep,
}
