//! Blocks are reserved for a call.

ghost use Rattle.std.specs.Prelude.{◌≡◌, OnErr, IfOk, IfErr};
ghost use Rattle.jfs_room.specs.bmap.specs.States.{Reserved, Free, AreReserved, put_state};
ghost use Rattle.jfs_room.specs.page_tree.specs.Fresh.{blocks_of};
ghost use Rattle.jfs_claim.specs.declared.reserve.ClaimError.TheVariants.{NeedsLog};
ghost use Rattle.jfs_claim.specs.Take.{Claims, TakesEach, IsRun, LacksRun, AnswersByFree, AnswersByCount, AreFresh, run_list};

use jfs_bits::{Pxd, PxdList};
use jfs_room::bmap::{BlockMap, ReserveError};
use std::alloc::Global;

/// What a call wants reserved.
#[derive(Clone, Copy, PartialEq, Eq, Debug)]
pub struct Want {
    /// An aligned run of four blocks, for a new inode extent.
    pub run: bool,
    /// So many blocks one by one.
    pub blocks: u32,
}

/// What is reserved for a call.
#[derive(Drop)]
pub struct Claim {
    pub run: Option<Pxd>,
    /// The blocks that were reserved one by one, in their order.
    pub blocks: PxdList,
    /// Those that are still to be had: trees take from its front.
    pub fresh: PxdList,
}

/// Why nothing was reserved.
#[derive(Clone, Copy, PartialEq, Eq, Debug)]
pub enum ClaimError {
    /// Too few blocks are free, or no run is.
    NeedsLog,
    /// Memory ran out.
    Memory,
}

/// Reserves what a call wants: the lowest aligned run of four free blocks, if one is wanted; then blocks one by one, each the lowest that is free. `NeedsLog` exactly where there is
/// no such run, or too few blocks are free. After an `Err` the map is as before.
pub fn take(alloc: Global, map: &mut BlockMap, want: Want) -> Result<Claim, ClaimError>
    ensures claims { IfOk result (Claims map.old map.new want) }
    // Trees may take the blocks.
    ensures fresh { IfOk result (λ claim. AreFresh map.old want.blocks (blocks_of claim.fresh)) }
    ensures free { AnswersByFree map.old want result }
    ensures unchanged { OnErr result (map.new ≡ map.old) }
{
    let run = match take_run(map, want.run) {
        Ok(run) => run,
        Err(e) => return Err(e),
    };
    match take_blocks(alloc, map, run, want.blocks) {
        Ok(claim) => Ok(claim),
        Err(e) => {
            give_back_run(map, run);
            Err(e)
        }
    }
}

/// Reserves a run, if one is wanted.
fn take_run(map: &mut BlockMap, wanted: bool) -> Result<Option<Pxd>, ClaimError>
    ensures run { IfOk result (IsRun map.old wanted) }
    ensures reserved { IfOk result (λ run. map.new ≡ put_state Reserved (run_list run) map.old) }
    ensures refused { IfErr result (λ why. (why ≡ NeedsLog) × LacksRun map.old wanted) }
    ensures unchanged { OnErr result (map.new ≡ map.old) }
{
    if !wanted {
        return Ok(None);
    }
    match map.run_of_four() {
        Some(run) => Ok(Some(run)),
        None => Err(ClaimError::NeedsLog),
    }
}

/// Reserves so many blocks beside a run.
fn take_blocks(
    alloc: Global,
    map: &mut BlockMap,
    run: Option<Pxd>,
    n: u32,
) -> Result<Claim, ClaimError>
    ensures run { IfOk result (λ claim. claim.run ≡ run) }
    ensures each { IfOk result (λ claim. TakesEach map.old map.new n claim.blocks) }
    ensures all_left { IfOk result (λ claim. claim.fresh ≡ claim.blocks) }
    ensures free { AnswersByCount map.old n result }
    ensures unchanged { OnErr result (map.new ≡ map.old) }
{
    let blocks = match map.reserve_each(alloc, n) {
        Ok(blocks) => blocks,
        Err(ReserveError::NoSpace(_)) => return Err(ClaimError::NeedsLog),
        Err(ReserveError::Memory) => return Err(ClaimError::Memory),
    };
    let mut fresh = PxdList::new(alloc);
    match fresh.extend_from_slice(blocks.as_slice()) {
        Ok(()) => Ok(Claim { run, blocks, fresh }),
        Err(_) => {
            map.give_back(&blocks);
            Err(ClaimError::Memory)
        }
    }
}

/// Gives a run back, if there is one.
pub(crate) fn give_back_run(map: &mut BlockMap, run: Option<Pxd>)
    requires { AreReserved map.old (run_list run) }
    ensures { map.new ≡ put_state Free (run_list run) map.old }
{
    match run {
        Some(run) => map.give_back_run(&run),
        None => {}
    }
}
