//! How fast a page takes the edits of a transaction, by how many lines it has and how long these are.

use jfs_bits::{Blob, PageKind};
use jfs_disk::Page;
use jfs_ranges::{Edit, Tx, apply};
use std::alloc::{AllocError, Global};
use std::io;
use std::time::Instant;

/// The transactions that are timed.
const TIMED: u32 = 10000;

/// A transaction of so many edits of page 5, each of some lines of 16 bytes, at places all over the page.
fn lines_of(alloc: Global, edits: u32, lines: u32) -> Result<Tx, AllocError> {
    let mut tx = Tx::new(alloc);
    for edit in 0..edits {
        let mut bytes = Blob::new(alloc);
        for _line in 0..lines {
            bytes.extend_from_slice(&[7; 16])?;
        }
        tx.push(Edit::Lines {
            page: 5,
            kind: PageKind::Xtree,
            first: edit % 256,
            bytes,
        })?;
    }
    Ok(tx)
}

/// Prints a line for each number of edits and of lines in an edit.
pub fn time_tx(rt: &HostRuntime) -> io::Result<()> {
    for (edits, lines) in [(1, 1), (100, 1), (1, 256), (100, 256)] {
        let tx = lines_of(rt.alloc(), edits, lines)?;
        let mut page = Page::zeros();
        let start = Instant::now(rt)?;
        for _call in 0..TIMED {
            apply(&tx, 5, &mut page);
        }
        let micros = start.elapsed(rt)?.as_micros();
        let first = page.0[0];
        println!(rt;
            "{edits} edits of {lines} lines: {TIMED} times in {micros} us, first byte {first}"
        )?;
    }
    Ok(())
}
