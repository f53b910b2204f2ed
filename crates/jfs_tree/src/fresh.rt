//! Free blocks that a call may take for pages, in their order.

ghost use Rattle.std.specs.Prelude.{◌≡◌, ◌<◌, ◌+◌, ◌++◌, ◌∷◌, [], ℕ, List, IfOk, OnOk, length, reverse};
ghost use Rattle.jfs_tree.specs.Form.{AllBelow};
ghost use Rattle.jfs_tree.specs.Fresh.{blocks_of, run_from};

use jfs_bits::{Pxd, PxdList};
use std::alloc::{AllocError, Global};

/// The blocks of runs, which lie in a file system part of so many.
pub(crate) fn blocks_of(alloc: Global, fresh: &PxdList, blocks: u32) -> Result<Vec<u32>, AllocError>
    requires { AllBelow blocks (blocks_of fresh.now) }
    ensures { IfOk result (λ all. all.items ≡ blocks_of fresh.now) }
{
    let mut all = Vec::new(alloc);
    for pxd in fresh.as_slice() {
        push_run(&mut all, pxd, blocks)?;
    }
    Ok(all)
}

fn push_run(all: &mut Vec<u32>, pxd: &Pxd, blocks: u32) -> Result<(), AllocError>
    requires { AllBelow blocks (run_from pxd.now.addr pxd.now.len) }
    ensures { OnOk result (all.new.items ≡ all.old.items ++ run_from pxd.now.addr pxd.now.len) }
{
    let addr = pxd.addr;
    let len = pxd.len;
    for k in 0..len {
        all.push((addr + u64::from(k)) as u32)?;
    }
    Ok(())
}

#[tactic(auto, using(crate::proofs::Runs::list_more))]
/// These blocks as runs of one.
pub(crate) fn list_of(alloc: Global, blocks: &[u32]) -> Result<PxdList, AllocError>
    ensures { IfOk result (λ list. blocks_of list ≡ blocks.now) }
{
    let mut list = PxdList::new(alloc);
    for n in blocks {
        list.push(page_at(*n))?;
    }
    Ok(list)
}

/// The blocks in the order in which they are taken from the end.
pub(crate) fn reversed(mut stack: Vec<u32>) -> Vec<u32>
    ensures { result.items ≡ reverse stack.items }
{
    stack.as_mut_slice().reverse();
    stack
}

/// The place of one page.
pub fn page_at(n: u32) -> Pxd
    ensures { result ≡ record { len = 1; addr = n } }
{
    Pxd {
        len: 1,
        addr: u64::from(n),
    }
}
