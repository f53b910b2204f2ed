//! Parts of a file's pages, read one after the other.

ghost use Rattle.std.specs.Prelude.{◌≡◌, ◌≤◌, ◌+◌, ◌*◌, ◌++◌, length, OnOk, IfOk};
ghost use Rattle.jfs_disk.specs.Image.{page_of};
ghost use Rattle.jfs_ranges.specs.View.{CarriesCount};
ghost use Rattle.jfs_mount.specs.Files.{LieWithin};
ghost use Rattle.jfs_sets.specs.Parts.{or_zeros, part_of, AreParts};

use jfs_bits::Xad;
use jfs_mount::from_block;
use jfs_mount::reader::{ReadError, read_part};
use jfs_ranges::{PageView, ViewError};
use std::alloc::{AllocError, Global};

/// The `N` bytes from `at` on of so many pages of a file that has these extents, from page `first` of it on, one behind the other; zeros for a page without a block.
pub(crate) fn read_parts<const N: usize, V: PageView>(
    alloc: Global,
    view: &mut V,
    extents: &[Xad],
    first: u32,
    pages: u32,
    at: usize,
) -> Result<Vec<u8>, ViewError>
    requires part { at + N ≤ 4096 }
    requires within { LieWithin (V.PageView.block_count view.old) extents.now }
    ensures image { V.PageView.tells → V.PageView.image view.new ≡ V.PageView.image view.old }
    ensures count_of_blocks { V.PageView.block_count view.new ≡ V.PageView.block_count view.old }
    ensures device { V.PageView.device view.new ≡ V.PageView.device view.old }
    ensures fault { CarriesCount (V.PageView.faults view.old) (V.PageView.faults view.new) result }
    ensures size { IfOk result (λ bytes. length bytes.items ≡ N * pages) }
    ensures parts { V.PageView.tells → IfOk result (λ bytes. AreParts N (part_of (page_of (V.PageView.image view.old)) extents.now at N) first pages bytes.items) }
{
    let mut bytes = Vec::new(alloc);
    let mut rest = extents;
    for k in 0..pages {
        let j = u64::from(first) + u64::from(k);
        rest = from_block(rest, j);
        match read_part::<N, V>(view, rest, j, at) {
            Ok(part) => match push_part(&mut bytes, part) {
                Ok(()) => {}
                Err(_) => return Err(ViewError::Memory),
            },
            Err(ReadError::View(e)) => return Err(e),
            Err(ReadError::Outside) => unreachable!(),
        }
    }
    Ok(bytes)
}

/// Adds a part, or zeros where there is none.
fn push_part<const N: usize>(bytes: &mut Vec<u8>, part: Option<[u8; N]>) -> Result<(), AllocError>
    ensures bytes { OnOk result (bytes.new.items ≡ bytes.old.items ++ or_zeros N part.entry) }
    ensures size { OnOk result (length bytes.new.items ≡ length bytes.old.items + N) }
{
    match part {
        Some(part) => bytes.extend_from_slice(&part),
        None => bytes.extend_from_slice(&[0; N]),
    }
}
