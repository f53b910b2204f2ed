//! Why a call on an extent tree fails.

ghost use Rattle.std.specs.Prelude.{◌≡◌};

use jfs_bits::Rule;
use jfs_ranges::ViewError;

/// Why a call on an extent tree failed.
#[derive(Clone, Copy, PartialEq, Eq, Debug)]
pub enum XtError {
    /// A page could not be read, or memory ran out.
    View(ViewError),
    /// The page breaks the rule; 2^32 - 1, which is no page, stands for the root.
    Bad { page: u32, rule: Rule },
}
