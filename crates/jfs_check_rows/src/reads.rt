//! How often a check reads each page.

use crate::counted::CountedDisk;
use crate::made::{check_disk, put, small_disk, write_new};
use crate::trees::{put_directory, put_extent_below, put_file, put_names};
use jfs_disk::SureDisk;
use jfs_findings::FindingKind;
use std::alloc::Global;
use std::test::*;

/// How often the page was read that a check read most often, and how often page `n`. Where a tree breaks a rule, so that the rest of it isn't read, `None`.
fn reads(alloc: Global, disk: SureDisk, n: usize) -> Option<(u32, u32)> {
    let mut disk = CountedDisk::new(alloc, disk).ok()?;
    let checked = check_disk(alloc, &mut disk)?;
    for finding in checked.findings.iter() {
        if finding.kind == FindingKind::Dtree || finding.kind == FindingKind::Xtree {
            return None;
        }
    }
    Some((disk.most(), disk.reads_of(n)))
}

#[test]
fn each_page_of_a_new_volume_is_read_twice_at_most(rt: HostRuntime) {
    let mut disk = small_disk(rt.alloc()).expect(&rt, "there is memory");
    assert!(rt; write_new(&mut disk));
    // the first page of inodes
    assert!(rt; reads(rt.alloc(), disk, 29) == Some((2, 2)));
}

#[test]
fn each_page_of_trees_is_read_twice_at_most(rt: HostRuntime) {
    let mut disk = small_disk(rt.alloc()).expect(&rt, "there is memory");
    assert!(rt; write_new(&mut disk));
    put_names(&mut disk, 29, 2, 40);
    put_file(&mut disk, 60);
    // a leaf of the root directory's names
    assert!(rt; reads(rt.alloc(), disk, 51) == Some((2, 2)));
}

/// 28 directories of twelve pages each.
#[test]
fn each_page_of_many_trees_is_read_twice_at_most(rt: HostRuntime) {
    let mut disk = small_disk(rt.alloc()).expect(&rt, "there is memory");
    assert!(rt; write_new(&mut disk));
    for n in 4..32u32 {
        put_directory(&mut disk, 29 + n / 8, n as usize, n, 40 + 12 * n);
    }
    assert!(rt; reads(rt.alloc(), disk, 90) == Some((2, 2)));
}

/// The files of the block map and of the bad blocks, whose inodes share a page, have a tree page each.
#[test]
fn each_page_of_the_aggregates_files_is_read_twice_at_most(rt: HostRuntime) {
    let mut disk = small_disk(rt.alloc()).expect(&rt, "there is memory");
    assert!(rt; write_new(&mut disk));
    put_extent_below(&mut disk, 11, 2, 60, 5, 16);
    put_extent_below(&mut disk, 11, 4, 61, 1, 2000);
    // their inodes
    assert!(rt; reads(rt.alloc(), disk, 11) == Some((2, 2)));
}
