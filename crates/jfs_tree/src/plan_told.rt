//! A call of several steps on one draft, told as edits.

ghost use Rattle.std.specs.Prelude.{◌≡◌, ℕ, List, reverse, IfOk, IfErr};
ghost use Rattle.jfs_disk.specs.Image.{page_of};
ghost use Rattle.jfs_tree.specs.Call.{CarriesFault, IsRead};
ghost use Rattle.jfs_tree.specs.Changes.{TellsTaken};
ghost use Rattle.jfs_tree.specs.Form.{AllBelow, IsFront};
ghost use Rattle.jfs_tree.specs.Fresh.{blocks_of, TakenInOrder};
ghost use Rattle.jfs_tree.specs.Taken.{HasTaken};
ghost use Rattle.jfs_tree.specs.Tell.{TellsDraft};

use crate::add_told::{Planned, finish};
use crate::draft::Draft;
use crate::form::TreeError;
use crate::fresh::{blocks_of, reversed};
use jfs_bits::{PageKind, PxdList};
use jfs_ranges::{PageView, Tx};
use std::alloc::{AllocError, Global};

/// Free blocks, which lie in a file system part of so many, as steps take them: the first one stands last.
pub fn fresh_stack(alloc: Global, fresh: &PxdList, blocks: u32) -> Result<Vec<u32>, AllocError>
    requires { AllBelow blocks (blocks_of fresh.now) }
    ensures stack { IfOk result (λ stack. stack.items ≡ reverse (blocks_of fresh.now)) }
    ensures within { IfOk result (λ stack. AllBelow blocks stack.items) }
{
    let all = blocks_of(alloc, fresh, blocks)?;
    Ok(reversed(all))
}

/// The free blocks that are left, and the transaction with the changed lines and new pages of a draft and then an `Alloc` of each page that was taken.
pub fn tell_steps<V: PageView>(
    alloc: Global,
    view: &mut V,
    draft: &Draft,
    fresh: &PxdList,
    left: &[u32],
    kind: PageKind,
    tx: &Tx,
) -> Result<Planned, TreeError>
    requires within { AllBelow (V.PageView.block_count view.old) (blocks_of fresh.now) }
    requires front { IsFront left.now (reverse (blocks_of fresh.now)) }
    requires drafted { HasTaken draft.now.pages.items (reverse (blocks_of fresh.now)) left.now }
    ensures image { V.PageView.tells → V.PageView.image view.new ≡ V.PageView.image view.old }
    ensures count_of_blocks { V.PageView.block_count view.new ≡ V.PageView.block_count view.old }
    ensures device { V.PageView.device view.new ≡ V.PageView.device view.old }
    ensures fault { CarriesFault (V.PageView.faults view.old) (V.PageView.faults view.new) result }
    ensures told { V.PageView.tells → IfOk result (λ p. TellsDraft (V.PageView.block_count view.old) (V.PageView.image view.old) draft.now.pages.items tx.now p.tx) }
    ensures rest { IfOk result (λ p. blocks_of p.fresh ≡ reverse left.now) }
    ensures taken { IfOk result (λ p. TakenInOrder (blocks_of fresh.now) (blocks_of p.fresh) tx.now p.tx) }
    ensures edits { V.PageView.tells → IfOk result (λ p. TellsTaken (V.PageView.block_count view.old) kind (page_of (V.PageView.image view.old)) (blocks_of fresh.now) (blocks_of p.fresh) tx.now p.tx) }
    ensures read { IfErr result (λ e. IsRead e) }
{
    let blocks = view.blocks();
    let Ok(all) = blocks_of(alloc, fresh, blocks) else {
        return Err(TreeError::Memory);
    };
    finish(alloc, view, draft, all.as_slice(), left.len(), kind, tx)
}
