//! What a transaction makes of the inode map.

ghost use Rattle.std.specs.Prelude.{◌≡◌, IfOk};
ghost use Rattle.jfs_disk.specs.Image.{page_of};
ghost use Rattle.jfs_ranges.specs.View.{CarriesCount};
ghost use Rattle.jfs_imap.specs.Inodes.{IsPick};
ghost use Rattle.jfs_marks.specs.Marking.{marking_by, without_extent, with_extent, AreMarksOf, FitsMarking};

use crate::changes::{Change, Changes, Met, tx_changes};
use crate::founded::{Founded, NewExtent, founded_in};
use crate::marks::InodeMarks;
use jfs_bits::Pxd;
use jfs_data_steps::DataList;
use jfs_imap::{InodeMap, Pick};
use jfs_ranges::{PageView, Tx, ViewError};

/// What a transaction makes of the inode map.
#[derive(Clone, Copy, PartialEq, Eq, Debug)]
pub enum Marking {
    /// These marks, which fit the map.
    Fits(InodeMarks),
    /// More than a file call does: it adds more than one inode extent, or one that isn't in the lowest place while no inode is free; or more than one inode comes into use, or one that isn't the first
    /// free one; or more than one goes out of use; or it has lines past the volume, or of a page that data is written to.
    Unfit,
}

/// What a transaction makes of the inode map: the inode extent that it adds, and by the link counts on the pages that it changes, before it and after it, the inode that comes into use and the one that
/// goes out of use. `written` is what is put to blocks of files before the transaction. The view shows the pages before both, and reading leaves it.
///
/// # Errors
///
/// A page could not be read.
pub fn inode_marks<V: PageView>(
    view: &mut V,
    inodes: &InodeMap,
    tx: &Tx,
    written: &DataList,
) -> Result<Marking, ViewError>
    ensures image { V.PageView.tells → V.PageView.image view.new ≡ V.PageView.image view.old }
    ensures count_of_blocks { V.PageView.block_count view.new ≡ V.PageView.block_count view.old }
    ensures device { V.PageView.device view.new ≡ V.PageView.device view.old }
    ensures fault { CarriesCount (V.PageView.faults view.old) (V.PageView.faults view.new) result }
    // Of every view they fit the map.
    ensures fits { IfOk result (FitsMarking inodes.now) }
    // They are what the pages give before and after the transaction; and it is unfit exactly where these are none.
    ensures marks { V.PageView.tells → IfOk result (AreMarksOf (V.PageView.block_count view.old) (page_of (V.PageView.image view.old)) inodes.now tx.now written.now) }
{
    let founded = founded_in(tx.as_slice());
    let change = Change {
        inodes,
        founded,
        tx,
        written,
    };
    let changes = match tx_changes(view, change) {
        Ok(changes) => changes,
        Err(e) => return Err(e),
    };
    Ok(marking_by(inodes.pick(), founded, changes))
}

/// The marks for these changes, where the map has its lowest free inode here.
fn marking_by(pick: Pick, founded: Founded, changes: Changes) -> Marking
    ensures { result ≡ marking_by pick founded changes }
{
    let freed = match changes.freed {
        Met::Nothing => None,
        Met::One(n) => Some(n),
        Met::Several => return Marking::Unfit,
    };
    match founded {
        Founded::Nothing => without_extent(pick, changes.taken, freed),
        Founded::One(extent) => with_extent(pick, extent, changes.taken, freed),
        Founded::Several => Marking::Unfit,
    }
}

/// The marks without a new extent: an inode that comes into use is the lowest free one.
fn without_extent(pick: Pick, taken: Met, freed: Option<u32>) -> Marking
    ensures { result ≡ without_extent pick taken freed }
{
    let taken = match (taken, pick) {
        (Met::Nothing, _) => None,
        (Met::One(n), Pick::Number(m)) if n == m => Some(n),
        _ => return Marking::Unfit,
    };
    Marking::Fits(InodeMarks {
        extent: None,
        taken,
        freed,
    })
}

/// The marks with a new extent: no inode is free, it is in the lowest place, and an inode that comes into use is in it.
fn with_extent(pick: Pick, extent: NewExtent, taken: Met, freed: Option<u32>) -> Marking
    ensures { result ≡ with_extent pick extent taken freed }
{
    match pick {
        Pick::NeedsExtent { place } if place == extent.place => {}
        _ => return Marking::Unfit,
    }
    let taken = match taken {
        Met::Nothing => None,
        Met::One(n) if n / 32 == extent.place => Some(n),
        _ => return Marking::Unfit,
    };
    let at = Pxd {
        len: 4,
        addr: u64::from(extent.first),
    };
    Marking::Fits(InodeMarks {
        extent: Some(at),
        taken,
        freed,
    })
}
