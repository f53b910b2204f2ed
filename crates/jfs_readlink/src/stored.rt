//! The bytes that the blocks of a file hold.

ghost use Rattle.std.specs.Prelude.{◌≡◌, ◌*◌, ◌+◌, ◌<◌, ◌≤◌, ◌++◌, ℕ, get_or, OnOk, IfOk, IfErr};
ghost use Rattle.jfs_disk.specs.Image.{page_of};
ghost use Rattle.jfs_plain.specs.Step.{bytes_from};
ghost use Rattle.jfs_way.specs.objects.specs.Contents.{block_of};
ghost use Rattle.jfs_way.specs.reader.specs.Reading.{CarriesRead, OutsideIsPast};
ghost use Rattle.jfs_readlink.specs.Target.{byte_at, SomeOutside};

use jfs_bits::{Blob, Xad};
use jfs_ranges::{PageView, ViewError};
use jfs_way::reader::{ReadError, read_part};
use std::alloc::Global;

/// The first so many bytes of a file with these extents.
pub(crate) fn stored_bytes<V: PageView>(
    alloc: Global,
    view: &mut V,
    extents: &[Xad],
    count: u64,
) -> Result<Blob, ReadError>
    ensures image { V.PageView.tells → V.PageView.image view.new ≡ V.PageView.image view.old }
    ensures count_of_blocks { V.PageView.block_count view.new ≡ V.PageView.block_count view.old }
    ensures device { V.PageView.device view.new ≡ V.PageView.device view.old }
    ensures fault { CarriesRead (V.PageView.faults view.old) (V.PageView.faults view.new) result }
    ensures outside { IfErr result (SomeOutside (V.PageView.block_count view.old) extents.now) }
    ensures bytes { V.PageView.tells → IfOk result (λ bytes. bytes ≡ bytes_from (byte_at (page_of (V.PageView.image view.old)) extents.now) 0 count) }
{
    let mut bytes = Blob::new(alloc);
    for j in 0..blocks_for(count) {
        let n = (count - 4096 * j).min(4096) as usize;
        match push_part(view, extents, j, n, &mut bytes) {
            Ok(()) => {}
            Err(e) => return Err(e),
        }
    }
    Ok(bytes)
}

/// How many blocks so many bytes take.
fn blocks_for(count: u64) -> u64
    ensures enough { count ≤ 4096 * result }
    ensures least { 4096 * result < count + 4096 }
{
    let whole = count / 4096;
    if count % 4096 == 0 { whole } else { whole + 1 }
}

/// Adds the first `n` bytes of block `j` of a file with these extents; zeros where it has no block.
fn push_part<V: PageView>(
    view: &mut V,
    extents: &[Xad],
    j: u64,
    n: usize,
    bytes: &mut Blob,
) -> Result<(), ReadError>
    requires { n ≤ 4096 }
    ensures image { V.PageView.tells → V.PageView.image view.new ≡ V.PageView.image view.old }
    ensures count_of_blocks { V.PageView.block_count view.new ≡ V.PageView.block_count view.old }
    ensures device { V.PageView.device view.new ≡ V.PageView.device view.old }
    ensures fault { CarriesRead (V.PageView.faults view.old) (V.PageView.faults view.new) result }
    ensures outside { IfErr result (OutsideIsPast (V.PageView.block_count view.old) (block_of extents.now j)) }
    ensures bytes { V.PageView.tells → OnOk result (bytes.new ≡ bytes.old ++ bytes_from (byte_at (page_of (V.PageView.image view.old)) extents.now) (4096 * j) n) }
{
    let part = match block_bytes(view, extents, j) {
        Ok(part) => part,
        Err(e) => return Err(e),
    };
    match bytes.extend_from_slice(&part[..n]) {
        Ok(()) => Ok(()),
        Err(_) => Err(ReadError::View(ViewError::Memory)),
    }
}

/// The bytes of block `j` of a file with these extents; zeros where it has no block.
fn block_bytes<V: PageView>(view: &mut V, extents: &[Xad], j: u64) -> Result<[u8; 4096], ReadError>
    ensures image { V.PageView.tells → V.PageView.image view.new ≡ V.PageView.image view.old }
    ensures count_of_blocks { V.PageView.block_count view.new ≡ V.PageView.block_count view.old }
    ensures device { V.PageView.device view.new ≡ V.PageView.device view.old }
    ensures fault { CarriesRead (V.PageView.faults view.old) (V.PageView.faults view.new) result }
    ensures outside { IfErr result (OutsideIsPast (V.PageView.block_count view.old) (block_of extents.now j)) }
    ensures bytes { V.PageView.tells → IfOk result (λ part. (i : ℕ) → i < 4096 → get_or part i 0 ≡ byte_at (page_of (V.PageView.image view.old)) extents.now (4096 * j + i)) }
{
    match read_part(view, extents, j, 0) {
        Ok(Some(part)) => Ok(part),
        Ok(None) => Ok([0; 4096]),
        Err(e) => Err(e),
    }
}
