//! Owners of blocks, counted by runs.

ghost use Rattle.std.specs.Prelude.{◌≡◌, IfOk};

use jfs_bits::Pxd;
use jfs_owners::Owners;
use std::alloc::{AllocError, Global};

/// So many blocks, counted by these runs, each with its first block and its length.
pub fn owners_of(alloc: Global, blocks: u32, runs: &[(u64, u32)]) -> Result<Owners, AllocError>
    ensures { IfOk result (λ owners. owners.blocks ≡ blocks) }
{
    let mut owners = Owners::new(alloc, blocks)?;
    for run in runs {
        owners.add(Pxd {
            len: run.1,
            addr: run.0,
        });
    }
    Ok(owners)
}

/// Whether the blocks have no owner, one, or two and more, as `.`, `1` and `2` in the row say.
pub fn is_row(owners: &Owners, row: &[u8]) -> bool {
    for b in 0..owners.blocks() {
        let wanted = match row.get(b as usize) {
            Some(wanted) => *wanted,
            None => return false,
        };
        if owners.is_owned(b) != (wanted != b'.') || owners.is_shared(b) != (wanted == b'2') {
            return false;
        }
    }
    true
}

/// How many owners a block has: 0, 1, or 2 for two and more; 3 for one behind the last.
pub fn owners_at(owners: &Owners, b: u32) -> u32 {
    if b >= owners.blocks() {
        return 3;
    }
    u32::from(owners.is_owned(b)) + u32::from(owners.is_shared(b))
}
