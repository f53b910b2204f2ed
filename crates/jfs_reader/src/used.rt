//! Which inodes are in use.

ghost use Rattle.std.specs.Prelude.{◌≡◌, ◌<◌, ◌/◌, ◌%◌, IfOk, IfErr};
ghost use Rattle.jfs_disk.specs.Image.{page_of};
ghost use Rattle.jfs_bits.specs.Field.{range_of};
ghost use Rattle.jfs_bits.specs.Bits.{is_taken};
ghost use Rattle.jfs_meaning.specs.objects.specs.Image.{iag_page, is_inode_used};
ghost use Rattle.jfs_meaning.specs.Readers.{readers};
ghost use Rattle.jfs_reader.specs.Reading.{OutsideIsPast, CarriesRead};
ghost use Rattle.jfs_reader.specs.Map.{IsInodeMap, iag_block, bit_in};

use crate::blocks::read_part;
use crate::error::ReadError;
use crate::map::InodeMap;
use jfs_bits::bit;
use jfs_ranges::PageView;

impl InodeMap {
    /// Whether inode `n` is in use: its extent is there, and its bit in the persistent map of its IAG is set.
    pub fn is_used<V: PageView>(&self, view: &mut V, n: u32) -> Result<bool, ReadError>
        ensures image { V.PageView.tells → V.PageView.image view.new ≡ V.PageView.image view.old }
        ensures count_of_blocks { V.PageView.block_count view.new ≡ V.PageView.block_count view.old }
        ensures device { V.PageView.device view.new ≡ V.PageView.device view.old }
        ensures fault { CarriesRead (V.PageView.faults view.old) (V.PageView.faults view.new) result }
        ensures outside { IfErr result (OutsideIsPast (V.PageView.block_count view.old) (iag_block self.now n)) }
        ensures used { V.PageView.tells → IfOk result (λ used.
            IsInodeMap (readers (V.PageView.block_count view.old)) (page_of (V.PageView.image view.old)) self.now →
            used ≡ is_inode_used (readers (V.PageView.block_count view.old)) (page_of (V.PageView.image view.old)) n) }
    {
        match self.home(view, n) {
            Ok(Some(_)) => self.is_marked(view, n),
            Ok(None) => Ok(false),
            Err(e) => Err(e),
        }
    }

    /// The bit of inode `n` in the persistent map of its IAG.
    fn is_marked<V: PageView>(&self, view: &mut V, n: u32) -> Result<bool, ReadError>
        ensures image { V.PageView.tells → V.PageView.image view.new ≡ V.PageView.image view.old }
        ensures count_of_blocks { V.PageView.block_count view.new ≡ V.PageView.block_count view.old }
        ensures device { V.PageView.device view.new ≡ V.PageView.device view.old }
        ensures fault { CarriesRead (V.PageView.faults view.old) (V.PageView.faults view.new) result }
        ensures outside { IfErr result (OutsideIsPast (V.PageView.block_count view.old) (iag_block self.now n)) }
        ensures marked { V.PageView.tells → IfOk result (λ marked.
            IsInodeMap (readers (V.PageView.block_count view.old)) (page_of (V.PageView.image view.old)) self.now →
            marked ≡ is_taken (range_of (iag_page (readers (V.PageView.block_count view.old)) (page_of (V.PageView.image view.old)) (n / 4096)) 2560 512) (n % 4096)) }
    {
        let j = u64::from(n / 4096) + 1;
        match read_part::<512, V>(view, self.extents.as_slice(), j, 2560) {
            Ok(part) => Ok(bit_in(part, n % 4096)),
            Err(e) => Err(e),
        }
    }
}

/// Bit `i` of a part.
fn bit_in(part: Option<[u8; 512]>, i: u32) -> bool
    requires { i < 4096 }
    ensures { result ≡ bit_in part i }
{
    match part {
        Some(part) => bit(&part, i),
        None => false,
    }
}
