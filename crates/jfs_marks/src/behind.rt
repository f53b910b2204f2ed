//! Whether a transaction frees blocks behind all that takes them.

ghost use Rattle.std.specs.Prelude.{◌≡◌};
ghost use Rattle.jfs_marks.specs.Behind.{overlap, takes_any, takes_some, takes_of, is_taken_in, frees_behind};

use crate::founded::is_extent;
use jfs_bits::Pxd;
use jfs_ranges::{Edit, Tx};

/// Whether a transaction takes no block that an edit before it frees: so a block that it takes and frees is free after it. A rename alone may free a block that it took.
pub fn frees_behind(tx: &Tx) -> bool
    ensures { result ≡ frees_behind tx.now }
{
    let edits = tx.as_slice();
    if !takes_some(edits) {
        return true;
    }
    for i in 0..edits.len() {
        if let Edit::Free(run) = &edits[i] {
            if is_taken_in(&edits[i + 1..], run) {
                return false;
            }
        }
    }
    true
}

/// Whether one of these edits takes blocks. Most transactions that free many take none.
fn takes_some(edits: &[Edit]) -> bool
    ensures { result ≡ takes_some edits.now }
{
    for edit in edits {
        if takes_any(edit) {
            return true;
        }
    }
    false
}

fn takes_any(edit: &Edit) -> bool
    ensures { result ≡ takes_any edit.now }
{
    match edit {
        Edit::Lines {
            kind,
            first,
            bytes,
            ..
        } => is_extent(*kind, *first, bytes.as_slice()),
        Edit::Alloc(_) => true,
        Edit::NoRedo { .. } | Edit::Free(_) => false,
    }
}

/// Whether one of these edits takes a block of a run.
fn is_taken_in(edits: &[Edit], run: &Pxd) -> bool
    ensures { result ≡ is_taken_in edits.now run.now }
{
    for edit in edits {
        if takes_of(edit, run) {
            return true;
        }
    }
    false
}

/// Whether an edit takes a block of a run, as new inodes do with theirs.
fn takes_of(edit: &Edit, run: &Pxd) -> bool
    ensures { result ≡ takes_of edit.now run.now }
{
    match edit {
        Edit::Lines {
            page,
            kind,
            first,
            bytes,
        } => {
            let four = Pxd {
                len: 4,
                addr: u64::from(*page),
            };
            is_extent(*kind, *first, bytes.as_slice()) && overlap(&four, run)
        }
        Edit::Alloc(taken) => overlap(taken, run),
        Edit::NoRedo { .. } | Edit::Free(_) => false,
    }
}

/// Whether two runs may have a block in common: none begins behind the other's end.
fn overlap(a: &Pxd, b: &Pxd) -> bool
    ensures { result ≡ overlap a.now b.now }
{
    if a.addr <= b.addr {
        b.addr - a.addr < u64::from(a.len)
    } else {
        a.addr - b.addr < u64::from(b.len)
    }
}
