//! The inodes in use that stand on a page.

ghost use Rattle.std.specs.Prelude.{◌≡◌, ◌<◌};
ghost use Rattle.jfs_data_steps.specs.objects.specs.Objects.{is_live};
ghost use Rattle.jfs_marks.specs.Standing.{home_with, is_page, standing_as, standing};

use crate::founded::Founded;
use jfs_disk::Page;
use jfs_imap::InodeMap;
use jfs_inode::{Dinode, inode_in};

/// The number of the inode in a slot of page `p`, where it is in use and its place is there: in an extent of the inode map, or in a new one.
pub(crate) fn standing(
    inodes: &InodeMap,
    founded: Founded,
    p: u32,
    page: &Page,
    slot: u32,
) -> Option<u32>
    requires { slot < 8 }
    ensures { result ≡ standing inodes.now founded p page.now.0 slot }
{
    let d = inode_in(page, slot);
    standing_as(inodes, founded, p, slot, &d)
}

/// The number of an inode that stands in a slot of page `p`.
fn standing_as(inodes: &InodeMap, founded: Founded, p: u32, slot: u32, d: &Dinode) -> Option<u32>
    ensures { result ≡ standing_as inodes.now founded p slot d.now }
{
    let n = d.number;
    if n % 8 != slot {
        return None;
    }
    if is_page(p, home_with(inodes, founded, n)) && is_live(d) {
        Some(n)
    } else {
        None
    }
}

fn is_page(p: u32, home: Option<u64>) -> bool
    ensures { result ≡ is_page p home }
{
    match home {
        Some(q) => q == u64::from(p),
        None => false,
    }
}

/// Inodes 0 to 3 are always in use, any other where it has a name.
fn is_live(d: &Dinode) -> bool
    ensures { result ≡ is_live d.now.number d.now }
{
    d.number < 4 || d.nlink != 0
}

/// The page of inode `n`, in an extent of the inode map or in a new one.
fn home_with(inodes: &InodeMap, founded: Founded, n: u32) -> Option<u64>
    ensures { result ≡ home_with inodes.now founded n }
{
    if let Founded::One(extent) = founded {
        if n / 32 == extent.place {
            return Some(u64::from(extent.first) + u64::from(n % 32 / 8));
        }
    }
    inodes.home(n)
}
