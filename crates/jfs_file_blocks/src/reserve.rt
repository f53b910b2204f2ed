//! Blocks are reserved for a write.

ghost use Rattle.std.specs.Prelude.{◌≡◌, ◌+◌, ◌++◌, OnErr, IfOk};
ghost use Rattle.jfs_claim.specs.page_tree.specs.Fresh.{blocks_of};
ghost use Rattle.jfs_claim.specs.Take.{AreFresh};
ghost use Rattle.jfs_file_blocks.specs.Reserving.{TakesBlocks, AnswersByFree};

use jfs_bits::PxdList;
use jfs_bmap::{BlockMap, ReserveError};
use jfs_claim::{Claim, ClaimError, Want, take};
use std::alloc::Global;

/// What a write wants reserved.
#[derive(Clone, Copy, PartialEq, Eq, Debug)]
pub struct FileWant {
    /// The block behind the file's last extent, at which its new blocks are to begin.
    pub hint: u32,
    /// So many blocks for what the file holds.
    pub blocks: u32,
    /// So many blocks for pages of its tree.
    pub pages: u32,
}

/// What is reserved for a write.
#[derive(Drop)]
pub struct FileBlocks {
    /// The runs for what the file holds, in the order in which its blocks take them.
    pub runs: PxdList,
    /// The blocks for pages of its tree, no run of four among them.
    pub claim: Claim,
}

/// Reserves what a write wants. First the blocks for what the file holds: from the hint on while they are free; then, for what is left, the lowest free aligned run of the least power
/// of two that is at least as many, else of half that, and so on. Then blocks for pages one by one, each the lowest that is free. `NeedsLog` exactly where fewer blocks are free than are
/// wanted together. After an `Err` the map is as before.
pub fn reserve_blocks(
    alloc: Global,
    map: &mut BlockMap,
    want: FileWant,
) -> Result<FileBlocks, ClaimError>
    ensures takes { IfOk result (TakesBlocks map.old map.new want) }
    // The file and its tree may take the blocks.
    ensures fresh { IfOk result (λ blocks. AreFresh map.old (want.blocks + want.pages) (blocks_of (blocks.runs ++ blocks.claim.fresh))) }
    ensures free { AnswersByFree map.old want result }
    ensures unchanged { OnErr result (map.new ≡ map.old) }
{
    let runs = match map.reserve(alloc, want.hint, want.blocks) {
        Ok(runs) => runs,
        Err(ReserveError::NoSpace(_)) => return Err(ClaimError::NeedsLog),
        Err(ReserveError::Memory) => return Err(ClaimError::Memory),
    };
    let pages = Want {
        run: false,
        blocks: want.pages,
    };
    match take(alloc, map, pages) {
        Ok(claim) => Ok(FileBlocks { runs, claim }),
        Err(e) => {
            map.give_back(&runs);
            Err(e)
        }
    }
}
