//! Which records of a log a redo does: those of a transaction that ends with a COMMIT, from the newest SYNCPT on.

ghost use Rattle.std.specs.Prelude.{◌<◌};

use crate::volume::{Word, dirty, put_word, redone};
use jfs_disk::{Disk, Page, SureDisk};
use std::alloc::Global;
use std::test::*;

/// On the log's last page, behind its SYNCPT, a transaction that puts the number 7 at the start of line 28 of page 29: a REDOPAGE with one line up to byte 212 of the page, and a COMMIT up to 248.
/// Behind it stands a SYNCPT up to byte 284, at which a redo begins.
#[rattlefmt::skip]
static RECORDS: [Word; 12] = [
    (4095, 44, 7), (4095, 172, 0x0001_001c),
    (4095, 176, 1), (4095, 184, 0x0084_0800), (4095, 192, 16), (4095, 200, 0x0007_0001), (4095, 204, 1), (4095, 208, 29),
    (4095, 212, 1), (4095, 216, 4_190_420), (4095, 220, 0x8000),
    (4095, 256, 0x4000),
];

/// How many transactions a new volume's log has whose records end there on its last page, and the number at the start of line 28 of page 29 once it is redone.
fn redone_up_to(alloc: Global, end: u32) -> Option<(u32, u8)>
    requires { end < 4096 }
{
    let mut disk = SureDisk::new(alloc, 4096).ok()?;
    if !dirty(&mut disk, &RECORDS) {
        return None;
    }
    put_word(&mut disk, 4095, 4, end << 16);
    put_word(&mut disk, 4095, 4092, end << 16);
    let done = redone(alloc, &mut disk)?.ok()?;
    let mut page = Page::zeros();
    if disk.pages() < 30 || disk.read(29, &mut page).is_err() {
        return None;
    }
    Some((done.transactions, page.0[3584]))
}

#[test]
fn committed_transactions_behind_the_newest_point_are_redone(rt: HostRuntime) {
    let alloc = rt.alloc();
    assert_eq!(rt; redone_up_to(alloc, 212), Some((0, 0)));
    assert_eq!(rt; redone_up_to(alloc, 248), Some((1, 7)));
    assert_eq!(rt; redone_up_to(alloc, 284), Some((0, 0)));
}
