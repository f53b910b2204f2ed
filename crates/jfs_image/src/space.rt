//! How much space is left.

ghost use Rattle.std.specs.Prelude.{◌≡◌, ◌<◌, ◌+◌, ◌*◌, ◌/◌, ◌==◌, not, ℕ, IfOk, is_some};
ghost use Rattle.jfs_disk.specs.Image.{page_of};
ghost use Rattle.jfs_bits.specs.Bits.{any_below, is_free_run};
ghost use Rattle.jfs_reader.specs.objects.specs.Image.{extent_on};
ghost use Rattle.jfs_reader.specs.meaning.specs.Readers.{readers};
ghost use Rattle.jfs_reader.specs.meaning.specs.Room.{lowest};
ghost use Rattle.jfs_owners.specs.Counts.{Counts};
ghost use Rattle.jfs_image.specs.View.{image_of, blocks_in};
ghost use Rattle.jfs_image.specs.Standing.{IsReady};

use crate::area::extent_at;
use crate::view::ListView;
use jfs_owners::Owners;
use jfs_reader::InodeMap;
use std::alloc::AllocError;

/// Whether an aligned run of four blocks has no owner.
pub(crate) fn has_run(owners: &Owners) -> bool
    ensures { (count : ℕ → ℕ) → Counts owners.now count → result ≡ any_below (owners.now.blocks / 4) (is_free_run (λ b. not (count b == 0)) 2) }
{
    let runs = owners.blocks() / 4;
    for j in 0..runs {
        if is_free_run(owners, j) {
            return true;
        }
    }
    false
}

/// Whether the aligned run `j` of four blocks has no owner.
fn is_free_run(owners: &Owners, j: u32) -> bool
    requires { j < owners.now.blocks / 4 }
    ensures { (count : ℕ → ℕ) → Counts owners.now count → result ≡ is_free_run (λ b. not (count b == 0)) 2 j }
{
    let _blocks = owners.blocks();
    for i in 0..4 {
        if owners.is_owned(4 * j + i) {
            return false;
        }
    }
    true
}

/// The lowest place of so many without an inode extent.
pub(crate) fn empty_place(
    view: &ListView<'_>,
    map: &InodeMap,
    places: u32,
) -> Result<Option<u32>, AllocError>
    requires { IsReady view.now map.now }
    ensures { IfOk result (λ place. place ≡ lowest places (λ e. not (is_some (extent_on (readers (blocks_in view.now)) (page_of (image_of view.now)) e)))) }
{
    for e in 0..places {
        let place = extent_at(view, map, e)?;
        if place.is_none() {
            return Ok(Some(e));
        }
    }
    Ok(None)
}
