//! Why a part of a volume was not read.

ghost use Rattle.std.specs.Prelude.{◌≡◌};

use jfs_ranges::ViewError;

/// Why a part of a volume was not read.
#[derive(Clone, Copy, PartialEq, Eq, Debug)]
pub enum ReadError {
    /// A page could not be read, or memory ran out.
    View(ViewError),
    /// The block that was to be read lies past the end of the file system part.
    Outside,
}
