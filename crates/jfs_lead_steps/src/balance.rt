//! How many blocks an object has after a transaction.

ghost use Rattle.std.specs.Prelude.{◌≡◌};
ghost use Rattle.jfs_lead_steps.specs.Balance.{own_after, own_after_edit};

use jfs_ranges::{Edit, Tx};

/// So many blocks, and those that the edits take more, in 64 bits, and those that they free fewer; none where that would be less than none.
pub fn own_after(own: u64, tx: &Tx) -> u64
    ensures { result ≡ own_after own tx.now }
{
    let mut now = own;
    for edit in tx.as_slice() {
        now = own_after_edit(now, edit);
    }
    now
}

/// The same of one edit.
fn own_after_edit(own: u64, edit: &Edit) -> u64
    ensures { result ≡ own_after_edit own edit.now }
{
    match edit {
        Edit::Alloc(run) => own.wrapping_add(u64::from(run.len)),
        Edit::Free(run) => own.saturating_sub(u64::from(run.len)),
        _ => own,
    }
}
