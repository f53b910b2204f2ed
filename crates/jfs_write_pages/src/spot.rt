//! Where the blocks of a file stand.

ghost use Rattle.std.specs.Prelude.{◌≡◌, ◌<◌, ◌≤◌, ◌+◌, ◌^◌, ◌++◌, true, OnOk, IfOk};
ghost use Rattle.jfs_data_steps.specs.xtree.specs.Node.{is_within, all_within};
ghost use Rattle.jfs_data_steps.specs.xtree.specs.Writing.{is_recorded};
ghost use Rattle.jfs_write_pages.specs.Spots.{spot_at, spots_from, spots_in, spots_between, run_spots};

use jfs_bits::Xad;
use std::alloc::{AllocError, Global};

/// A block of a file.
#[derive(Clone, Copy, PartialEq, Eq, Debug)]
pub struct Spot {
    /// Its number in the file.
    pub index: u64,
    /// The block of the volume.
    pub block: u32,
    /// What it holds counts; else it reads as zeros.
    pub recorded: bool,
}

/// Where so many blocks of a file stand, from block `first` on, by its extents; `None` in a hole.
pub fn spots_from(
    alloc: Global,
    es: &[Xad],
    blocks: u32,
    first: u64,
    count: u32,
) -> Result<Vec<Option<Spot>>, AllocError>
    requires within { all_within blocks es.now ≡ true }
    requires fits { first + count < 2 ^ 64 }
    ensures { IfOk result (λ spots. spots.items ≡ spots_from es.now first count) }
{
    let mut spots = Vec::new(alloc);
    for i in 0..count {
        spots.push(spot_at(es, blocks, first + u64::from(i)))?;
    }
    Ok(spots)
}

/// Where block `k` of a file stands; `None` in a hole.
fn spot_at(es: &[Xad], blocks: u32, k: u64) -> Option<Spot>
    requires within { all_within blocks es.now ≡ true }
    ensures { result ≡ spot_at es.now k }
{
    for e in es {
        let offset = e.offset;
        if k >= offset && k - offset < u64::from(e.at.len) {
            return Some(Spot {
                index: k,
                block: (e.at.addr + (k - offset)) as u32,
                recorded: is_recorded(e),
            });
        }
    }
    None
}

fn is_recorded(e: &Xad) -> bool
    ensures { result ≡ is_recorded e.now }
{
    e.flag & Xad::NOT_RECORDED != Xad::NOT_RECORDED
}

/// Pushes the recorded blocks that extents have of a file from block `from` on and before block `to`.
pub fn push_between(
    spots: &mut Vec<Spot>,
    es: &[Xad],
    blocks: u32,
    from: u64,
    to: u64,
) -> Result<(), AllocError>
    requires within { all_within blocks es.now ≡ true }
    ensures { OnOk result (spots.new.items ≡ spots.old.items ++ spots_between from to es.now) }
{
    for e in es {
        push_in(spots, e, blocks, from, to)?;
    }
    Ok(())
}

/// Pushes those of one extent.
fn push_in(
    spots: &mut Vec<Spot>,
    e: &Xad,
    blocks: u32,
    from: u64,
    to: u64,
) -> Result<(), AllocError>
    requires within { is_within blocks e.now ≡ true }
    ensures { OnOk result (spots.new.items ≡ spots.old.items ++ spots_in from to e.now) }
{
    if !is_recorded(e) {
        return Ok(());
    }
    let offset = e.offset;
    let skipped = from.saturating_sub(offset);
    let before = to.saturating_sub(offset);
    let end = before.min(u64::from(e.at.len));
    if skipped >= end {
        return Ok(());
    }
    push_run(
        spots,
        offset + skipped,
        (e.at.addr + skipped) as u32,
        (end - skipped) as u32,
    )
}

/// Pushes recorded blocks that stand side by side.
fn push_run(spots: &mut Vec<Spot>, index: u64, block: u32, count: u32) -> Result<(), AllocError>
    requires index { index + count < 2 ^ 64 }
    requires block { block + count < 2 ^ 32 }
    ensures { OnOk result (spots.new.items ≡ spots.old.items ++ run_spots index block count) }
{
    for i in 0..count {
        spots.push(Spot {
            index: index + u64::from(i),
            block: block + i,
            recorded: true,
        })?;
    }
    Ok(())
}
