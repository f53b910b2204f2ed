//! Copies of transactions.

ghost use Rattle.std.specs.Prelude.{◌≡◌, ◌++◌, drop, IfOk};

use jfs_bits::Blob;
use jfs_ranges::{Edit, Tx};
use std::alloc::{AllocError, Global};

/// The same transaction once more.
pub fn copy_tx(alloc: Global, tx: &Tx) -> Result<Tx, AllocError>
    ensures { IfOk result (λ copy. copy ≡ tx.now) }
{
    let mut copy = Tx::new(alloc);
    for edit in tx.as_slice() {
        copy.push(copy_edit(alloc, edit)?)?;
    }
    Ok(copy)
}

fn copy_edit(alloc: Global, edit: &Edit) -> Result<Edit, AllocError>
    ensures { IfOk result (λ copy. copy ≡ edit.now) }
{
    match edit {
        Edit::Lines {
            page,
            kind,
            first,
            bytes,
        } => {
            let bytes = copy_blob(alloc, bytes)?;
            Ok(Edit::Lines {
                page: *page,
                kind: *kind,
                first: *first,
                bytes,
            })
        }
        Edit::NoRedo { page } => Ok(Edit::NoRedo { page: *page }),
        Edit::Alloc(blocks) => Ok(Edit::Alloc(*blocks)),
        Edit::Free(blocks) => Ok(Edit::Free(*blocks)),
    }
}

fn copy_blob(alloc: Global, blob: &Blob) -> Result<Blob, AllocError>
    ensures { IfOk result (λ copy. copy ≡ blob.now) }
{
    let mut copy = Blob::new(alloc);
    copy.extend_from_slice(blob.as_slice())?;
    Ok(copy)
}
