//! A copy of a transaction, for a call that leaves the old one as it was where it fails.

ghost use Rattle.std.specs.Prelude.{◌≡◌, ◌++◌, IfOk};

use jfs_bits::Blob;
use jfs_ranges::{Edit, Tx};
use std::alloc::{AllocError, Global};

/// A copy of a transaction.
pub fn copy_tx(alloc: Global, tx: &Tx) -> Result<Tx, AllocError>
    ensures { IfOk result (λ copy. copy ≡ tx.now) }
{
    let mut copy = Tx::new(alloc);
    for edit in tx.as_slice() {
        copy.push(copy_edit(alloc, edit)?)?;
    }
    Ok(copy)
}

fn copy_edit(alloc: Global, edit: &Edit) -> Result<Edit, AllocError>
    ensures { IfOk result (λ copy. copy ≡ edit.now) }
{
    match edit {
        Edit::Lines {
            page,
            kind,
            first,
            bytes,
        } => {
            let mut copy = Blob::new(alloc);
            copy.extend_from_slice(bytes.as_slice())?;
            Ok(Edit::Lines {
                page: *page,
                kind: *kind,
                first: *first,
                bytes: copy,
            })
        }
        Edit::NoRedo { page } => Ok(Edit::NoRedo { page: *page }),
        Edit::Alloc(blocks) => Ok(Edit::Alloc(*blocks)),
        Edit::Free(blocks) => Ok(Edit::Free(*blocks)),
    }
}
