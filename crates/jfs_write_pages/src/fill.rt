//! New blocks for the holes of a file.

ghost use Rattle.std.specs.Prelude.{◌≡◌, ◌≤◌, ◌<◌, ◌+◌, ◌^◌, ◌++◌, length, OnOk, IfOk};
ghost use Rattle.jfs_data_steps.specs.page_tree.specs.Form.{AllBelow};
ghost use Rattle.jfs_data_steps.specs.page_tree.specs.Fresh.{blocks_of, run_from};
ghost use Rattle.jfs_write_pages.specs.Spots.{holes_in, placed};

use crate::spot::Spot;
use jfs_bits::{Pxd, PxdList};
use std::alloc::{AllocError, Global};

/// How many of these blocks of a file are holes.
pub fn holes_in(spots: &[Option<Spot>]) -> u32
    requires { length spots.now ≤ 17 }
    ensures value { result ≡ holes_in spots.now }
    ensures most { result ≤ 17 }
{
    let mut holes = 0;
    for spot in spots {
        if spot.is_none() {
            holes += 1;
        }
    }
    holes
}

/// These blocks of a file from block `first` on, each hole of which gets the next one of new blocks: those of runs, in their order.
pub fn placed(
    alloc: Global,
    spots: &[Option<Spot>],
    first: u64,
    runs: &PxdList,
    blocks: u32,
) -> Result<Vec<Spot>, AllocError>
    requires fits { first + length spots.now < 2 ^ 64 }
    requires within { AllBelow blocks (blocks_of runs.now) }
    requires enough { holes_in spots.now ≤ length (blocks_of runs.now) }
    ensures { IfOk result (λ all. all.items ≡ placed first spots.now (blocks_of runs.now)) }
{
    let news = blocks_of(alloc, runs, blocks)?;
    let mut all = Vec::new(alloc);
    let mut next = 0;
    let mut index = first;
    for spot in spots {
        match spot {
            Some(spot) => all.push(*spot)?,
            None => {
                all.push(Spot {
                    index,
                    block: news[next],
                    recorded: false,
                })?;
                next += 1;
            }
        }
        index += 1;
    }
    Ok(all)
}

/// The blocks of runs, one after the other.
fn blocks_of(alloc: Global, runs: &PxdList, blocks: u32) -> Result<Vec<u32>, AllocError>
    requires { AllBelow blocks (blocks_of runs.now) }
    ensures { IfOk result (λ news. news.items ≡ blocks_of runs.now) }
{
    let mut news = Vec::new(alloc);
    for run in runs.as_slice() {
        push_blocks(&mut news, run, blocks)?;
    }
    Ok(news)
}

/// Pushes the blocks of a run.
fn push_blocks(news: &mut Vec<u32>, run: &Pxd, blocks: u32) -> Result<(), AllocError>
    requires { AllBelow blocks (run_from run.now.addr run.now.len) }
    ensures { OnOk result (news.new.items ≡ news.old.items ++ run_from run.now.addr run.now.len) }
{
    let addr = run.addr;
    let len = run.len;
    for k in 0..len {
        news.push((addr + u64::from(k)) as u32)?;
    }
    Ok(())
}
