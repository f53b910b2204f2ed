//! Where the inode of a new object is to stand.

ghost use Rattle.std.specs.Prelude.{◌≡◌, ◌<◌, ◌≤◌, ◌+◌, true, Some, IfOk};
ghost use Rattle.jfs_bits.specs.Descriptor.{FitsPxd};
ghost use Rattle.jfs_disk.specs.Image.{page_of};
ghost use Rattle.jfs_link.specs.way.specs.Answer.{Carries, Answers};
ghost use Rattle.jfs_link.specs.way.specs.Way.{place_of};
ghost use Rattle.jfs_create.specs.Seat.{seat_at, seat_in, site_on, IsSiteWithin};

use crate::new::Seat;
use jfs_bits::{Pxd, Rule};
use jfs_dtree::DtError;
use jfs_imap::InodeMap;
use jfs_inode::inode_in;
use jfs_link::claim::FreshInode;
use jfs_link::steps::from_names;
use jfs_link::way::{Held, load};
use jfs_plain::Refusal;
use jfs_ranges::PageView;
use jfs_tree::NO_PAGE;

/// The inode of the root directory, from which new inodes take the fileset's stamp.
const ROOT: u32 = 2;

/// A seat, and its page.
#[derive(Clone, Copy)]
pub struct Seated {
    pub seat: Seat,
    pub page: u32,
}

/// The first inode of an extent that is to be made: all of its seat but the blocks.
#[derive(Clone, Copy)]
pub struct Founded {
    pub number: u32,
    /// The stamp that all inodes of the fileset have.
    pub stamp: u32,
    /// The inode of the directory that names it.
    pub parent: u32,
}

/// Where a new inode is to stand, before blocks are reserved.
#[derive(Clone, Copy)]
pub enum Site {
    /// In its slot on a page that is there.
    There(Seated),
    /// In the first slot of an extent that is to be made.
    Founding(Founded),
}

/// Where a fresh inode is to stand, for an object in this directory: the stamp is that of inode 2, and of a page that is there the generation is the slot's own. `Damaged` where inode 2 is (as
/// `load` says), or where the inode's extent is there and its page doesn't lie in the file system part: then at the page of the directory's inode.
pub fn site_of<V: PageView>(
    view: &mut V,
    inodes: &InodeMap,
    dir: &Held,
    fresh: FreshInode,
) -> Result<Site, Refusal>
    requires numbers { fresh.needs_extent ≡ true → fresh.number + 32 ≤ 4294967296 }
    ensures image { V.PageView.tells → V.PageView.image view.new ≡ V.PageView.image view.old }
    ensures count_of_blocks { V.PageView.block_count view.new ≡ V.PageView.block_count view.old }
    ensures device { V.PageView.device view.new ≡ V.PageView.device view.old }
    ensures fault { Carries (V.PageView.faults view.old) (V.PageView.faults view.new) result }
    ensures within { IfOk result (IsSiteWithin (V.PageView.block_count view.old)) }
    // On any volume it is what stands there.
    ensures meets { V.PageView.tells → Answers (site_on (V.PageView.block_count view.old) (page_of (V.PageView.image view.old)) inodes.now dir.now fresh) result }
{
    let blocks = view.blocks();
    let stamp = match load(view, inodes, NO_PAGE, ROOT) {
        Ok(root) => root.inode.inostamp,
        Err(e) => return Err(e),
    };
    if fresh.needs_extent {
        return Ok(Site::Founding(Founded {
            number: fresh.number,
            stamp,
            parent: dir.number,
        }));
    }
    match home_within(blocks, inodes, fresh.number) {
        Some(page) => match seat_of(view, dir, fresh.number, stamp, page) {
            Ok(seated) => Ok(Site::There(seated)),
            Err(e) => Err(e),
        },
        None => Err(Refusal::Damaged {
            page: dir.page,
            rule: Rule::Fields,
        }),
    }
}

/// The seat of inode `n` on its page.
fn seat_of<V: PageView>(
    view: &mut V,
    dir: &Held,
    n: u32,
    stamp: u32,
    page: u32,
) -> Result<Seated, Refusal>
    requires { page < V.PageView.block_count view.old }
    ensures image { V.PageView.tells → V.PageView.image view.new ≡ V.PageView.image view.old }
    ensures count_of_blocks { V.PageView.block_count view.new ≡ V.PageView.block_count view.old }
    ensures device { V.PageView.device view.new ≡ V.PageView.device view.old }
    ensures fault { Carries (V.PageView.faults view.old) (V.PageView.faults view.new) result }
    ensures page { IfOk result (λ seated. seated.page ≡ page) }
    ensures extent { IfOk result (λ seated. FitsPxd seated.seat.extent) }
    ensures meets { V.PageView.tells → Answers (seat_in (page_of (V.PageView.image view.old)) dir.now n stamp (Some page)) result }
{
    let generation = match view.page(page) {
        Ok(bytes) => inode_in(bytes, n % 8).generation,
        Err(e) => return Err(from_names(dir.number, dir.page, DtError::View(e))),
    };
    Ok(seat_at(stamp, generation, dir.number, n, page))
}

/// The page of inode `n`; `None` exactly where its extent isn't there, or the page lies behind so many blocks.
fn home_within(blocks: u32, inodes: &InodeMap, n: u32) -> Option<u32>
    ensures place { result ≡ place_of blocks inodes.now n }
{
    match inodes.home(n) {
        Some(page) if page < u64::from(blocks) => Some(page as u32),
        _ => None,
    }
}

/// The seat on a page.
pub(crate) fn seat_at(stamp: u32, generation: u32, parent: u32, n: u32, page: u32) -> Seated
    ensures value { result ≡ seat_at stamp generation parent n page }
    ensures extent { FitsPxd result.seat.extent }
{
    let extent = Pxd {
        len: 4,
        addr: u64::from(page).saturating_sub(u64::from(n % 32 / 8)),
    };
    Seated {
        seat: Seat {
            number: n,
            extent,
            stamp,
            generation,
            parent,
        },
        page,
    }
}
