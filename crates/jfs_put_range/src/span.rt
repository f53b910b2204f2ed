//! The blocks of a file from a range's first to its last.

ghost use Rattle.std.specs.Prelude.{◌≡◌, ◌<◌, length};
ghost use Rattle.std.specs.List.{All};
ghost use Rattle.jfs_bits.specs.Extent.{FitsXad};
ghost use Rattle.jfs_put_range.specs.Way.{first_of, end_of_all};

use crate::part::end_of;
use jfs_bits::Xad;

/// The first block of the file that these extents have.
pub(crate) fn first_of(xs: &[Xad]) -> u64
    requires some { 0 < length xs.now }
    ensures { result ≡ first_of xs.now }
{
    xs[0].offset
}

/// The first block of the file behind all that they have.
pub(crate) fn end_of_all(xs: &[Xad]) -> u64
    requires some { 0 < length xs.now }
    requires fits { All FitsXad xs.now }
    ensures { result ≡ end_of_all xs.now }
{
    end_of(&xs[xs.len() - 1])
}
