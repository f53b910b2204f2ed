//! The blocks of a file, by its extents.

ghost use Rattle.std.specs.Prelude.{◌≡◌, ◌≤◌, ◌<◌, ◌+◌, ◌&&◌, nat_le, nat_lt, IfOk, IfErr};
ghost use Rattle.std.specs.Option.{option_map};
ghost use Rattle.jfs_bits.specs.Field.{range_of};
ghost use Rattle.jfs_disk.specs.Image.{page_of};
ghost use Rattle.jfs_meaning.specs.objects.specs.Contents.{block_in, block_of, bytes_at};
ghost use Rattle.jfs_reader.specs.Reading.{PageIs, OutsideIsPast, CarriesRead};

use crate::error::ReadError;
use jfs_bits::{Xad, get_array};
use jfs_ranges::PageView;

/// The page of block `j` of a file that has these extents, on a volume whose file system part has so many blocks: `None` exactly where the file reads as
/// zeros (a hole, an extent that isn't recorded, or past the last extent), `Outside` exactly where the extents name a block past the volume's end.
pub fn page_of_block(extents: &[Xad], blocks: u32, j: u64) -> Result<Option<u32>, ReadError>
    ensures { PageIs blocks (block_of extents.now j) result }
{
    for x in extents {
        if has_block(x, j) {
            return page_in(x, blocks, j);
        }
    }
    Ok(None)
}

/// Whether block `j` of the file is one of the extent's.
fn has_block(x: &Xad, j: u64) -> bool
    ensures { result ≡ (nat_le x.now.offset j && nat_lt j (x.now.offset + x.now.at.len)) }
{
    let first = x.offset;
    let len = x.at.len;
    first <= j && j - first < u64::from(len)
}

/// The page of block `j` of the file, which is one of the extent's.
fn page_in(x: &Xad, blocks: u32, j: u64) -> Result<Option<u32>, ReadError>
    requires { x.now.offset ≤ j }
    ensures { PageIs blocks (block_in x.now j) result }
{
    let flag = x.flag;
    let addr = x.at.addr;
    let into = j - x.offset;
    let blocks = u64::from(blocks);
    if flag & Xad::NOT_RECORDED == Xad::NOT_RECORDED {
        return Ok(None);
    }
    if addr >= blocks || into >= blocks - addr {
        return Err(ReadError::Outside);
    }
    Ok(Some((addr + into) as u32))
}

/// The `N` bytes from `at` on of block `j` of a file that has these extents; `None` exactly where the file reads as zeros there.
pub fn read_part<const N: usize, V: PageView>(
    view: &mut V,
    extents: &[Xad],
    j: u64,
    at: usize,
) -> Result<Option<[u8; N]>, ReadError>
    requires { at + N ≤ 4096 }
    ensures image { V.PageView.tells → V.PageView.image view.new ≡ V.PageView.image view.old }
    ensures count_of_blocks { V.PageView.block_count view.new ≡ V.PageView.block_count view.old }
    ensures device { V.PageView.device view.new ≡ V.PageView.device view.old }
    ensures fault { CarriesRead (V.PageView.faults view.old) (V.PageView.faults view.new) result }
    ensures outside { IfErr result (OutsideIsPast (V.PageView.block_count view.old) (block_of extents.now j)) }
    ensures part { V.PageView.tells → IfOk result (λ part.
        part ≡ option_map (λ page. range_of page at N) (bytes_at (page_of (V.PageView.image view.old)) (block_of extents.now j))) }
{
    let n = match page_of_block(extents, view.blocks(), j) {
        Ok(Some(n)) => n,
        Ok(None) => return Ok(None),
        Err(e) => return Err(e),
    };
    match view.page(n) {
        Ok(page) => Ok(Some(get_array(page.bytes(), at))),
        Err(e) => Err(ReadError::View(e)),
    }
}
