//! The inode map: which inode extents are there, and which inodes are in use.

ghost use Rattle.std.specs.Prelude.{◌≡◌, ◌≤◌, ◌<◌, ◌+◌, ◌*◌, ◌/◌, ◌%◌, ◌^◌, suc, IfOk, IfErr};
ghost use Rattle.jfs_disk.specs.Image.{page_of};
ghost use Rattle.jfs_bits.specs.Descriptor.{FitsPxd};
ghost use Rattle.jfs_meaning.specs.objects.specs.Volume.{home, page_in};
ghost use Rattle.jfs_meaning.specs.objects.specs.Contents.{block_of};
ghost use Rattle.jfs_meaning.specs.objects.specs.Image.{file_extents, extent_place, extent_on, extents_on};
ghost use Rattle.jfs_meaning.specs.Readers.{readers};
ghost use Rattle.jfs_reader.specs.Reading.{IsBelow, OutsideIsPast, CarriesRead};
ghost use Rattle.jfs_reader.specs.Map.{IsInodeMap, iag_block, number_in, place_in};

use crate::blocks::read_part;
use crate::error::ReadError;
use jfs_bits::{Pxd, XadList, get_pxd, get_u32};
use jfs_ranges::PageView;

/// The inode map of a volume.
#[derive(Drop)]
pub struct InodeMap {
    /// The extents of the map's file, inode 16 of the aggregate.
    pub extents: XadList,
    /// The number of inode allocation groups (IAGs), each with places for 128 extents of 32 inodes.
    pub iags: u32,
}

impl InodeMap {
    /// The map whose file has these extents; its first page has the number of IAGs, and without that page there are none.
    pub fn read<V: PageView>(view: &mut V, extents: XadList) -> Result<InodeMap, ReadError>
        ensures image { V.PageView.tells → V.PageView.image view.new ≡ V.PageView.image view.old }
        ensures count_of_blocks { V.PageView.block_count view.new ≡ V.PageView.block_count view.old }
        ensures device { V.PageView.device view.new ≡ V.PageView.device view.old }
        ensures fault { CarriesRead (V.PageView.faults view.old) (V.PageView.faults view.new) result }
        ensures outside { IfErr result (OutsideIsPast (V.PageView.block_count view.old) (block_of extents 0)) }
        ensures kept { IfOk result (λ map. map.extents ≡ extents) }
        ensures map { V.PageView.tells → IfOk result (λ map.
            file_extents (readers (V.PageView.block_count view.old)) (page_of (V.PageView.image view.old)) 16 ≡ extents →
            IsInodeMap (readers (V.PageView.block_count view.old)) (page_of (V.PageView.image view.old)) map) }
    {
        match read_part::<4, V>(view, extents.as_slice(), 0, 4) {
            Ok(part) => Ok(InodeMap {
                extents,
                iags: number_in(part),
            }),
            Err(e) => Err(e),
        }
    }

    /// The first block of inode extent `e`, which has the 32 inodes from `32 * e` on; `None` exactly where it isn't there.
    pub fn extent<V: PageView>(&self, view: &mut V, e: u32) -> Result<Option<u64>, ReadError>
        ensures image { V.PageView.tells → V.PageView.image view.new ≡ V.PageView.image view.old }
        ensures count_of_blocks { V.PageView.block_count view.new ≡ V.PageView.block_count view.old }
        ensures device { V.PageView.device view.new ≡ V.PageView.device view.old }
        ensures fault { CarriesRead (V.PageView.faults view.old) (V.PageView.faults view.new) result }
        ensures outside { IfErr result (OutsideIsPast (V.PageView.block_count view.old) (block_of self.now.extents (suc (e / 128)))) }
        ensures fits { IfOk result (IsBelow (2 ^ 40)) }
        ensures place { V.PageView.tells → IfOk result (λ place.
            IsInodeMap (readers (V.PageView.block_count view.old)) (page_of (V.PageView.image view.old)) self.now →
            place ≡ extent_on (readers (V.PageView.block_count view.old)) (page_of (V.PageView.image view.old)) e) }
    {
        let j = u64::from(e / 128) + 1;
        let at = 3072 + 8 * (e % 128) as usize;
        match read_part::<8, V>(view, self.extents.as_slice(), j, at) {
            Ok(part) => Ok(place_in(part)),
            Err(e) => Err(e),
        }
    }

    /// The page of inode `n`, in slot `n % 8`; `None` exactly where the inode's extent isn't there.
    pub fn home<V: PageView>(&self, view: &mut V, n: u32) -> Result<Option<u64>, ReadError>
        ensures image { V.PageView.tells → V.PageView.image view.new ≡ V.PageView.image view.old }
        ensures count_of_blocks { V.PageView.block_count view.new ≡ V.PageView.block_count view.old }
        ensures device { V.PageView.device view.new ≡ V.PageView.device view.old }
        ensures fault { CarriesRead (V.PageView.faults view.old) (V.PageView.faults view.new) result }
        ensures outside { IfErr result (OutsideIsPast (V.PageView.block_count view.old) (iag_block self.now n)) }
        ensures page { V.PageView.tells → IfOk result (λ page.
            IsInodeMap (readers (V.PageView.block_count view.old)) (page_of (V.PageView.image view.old)) self.now →
            page ≡ home (extents_on (readers (V.PageView.block_count view.old)) (page_of (V.PageView.image view.old))) n) }
    {
        if n / 4096 >= self.iags {
            return Ok(None);
        }
        match self.extent(view, n / 32) {
            Ok(first) => Ok(page_in(first, n)),
            Err(e) => Err(e),
        }
    }
}

/// The number in a part.
fn number_in(part: Option<[u8; 4]>) -> u32
    ensures { result ≡ number_in part }
{
    match part {
        Some(part) => get_u32(&part, 0),
        None => 0,
    }
}

/// The first block of the inode extent that a part describes.
fn place_in(part: Option<[u8; 8]>) -> Option<u64>
    ensures value { result ≡ place_in part }
    ensures fits { IsBelow (2 ^ 40) result }
{
    match part {
        Some(part) => extent_place(get_pxd(&part, 0)),
        None => None,
    }
}

fn extent_place(run: Pxd) -> Option<u64>
    requires { FitsPxd run }
    ensures value { result ≡ extent_place run }
    ensures fits { IsBelow (2 ^ 40) result }
{
    if run.len == 0 && run.addr == 0 {
        None
    } else {
        Some(run.addr)
    }
}

/// The page of inode `n` in the inode extent that begins at `first`.
fn page_in(first: Option<u64>, n: u32) -> Option<u64>
    requires { IsBelow (2 ^ 40) first }
    ensures { result ≡ page_in first n }
{
    match first {
        Some(first) => Some(first + u64::from(n % 32 / 8)),
        None => None,
    }
}
