//! A leaf into which a range is written.

ghost use Rattle.std.specs.Prelude.{◌≡◌, ◌<◌, ◌≤◌, ◌+◌, ◌^◌, ℕ, List, true, false, None, length, OnOk, IfOk, IfErr, IfSome};
ghost use Rattle.jfs_disk.specs.Image.{Image};
ghost use Rattle.jfs_tree.specs.Call.{StaysOff};
ghost use Rattle.jfs_tree.specs.Draft.{shown};
ghost use Rattle.jfs_tree.specs.Form.{AllBelow, IsFront};
ghost use Rattle.jfs_tree.specs.Spells.{no_page};
ghost use Rattle.jfs_tree.specs.Taken.{DraftsTaken};
ghost use Rattle.jfs_put_range.specs.Parts.{IsOpened, IsPart, WrotePage, RefutesPage, GrownBelow, NamesBelow, NoView, OthersFramed, most_taken};

use crate::full::starts_new;
use crate::open::Opened;
use crate::part::Part;
use jfs_bits::Rule;
use jfs_refill::{ENTRIES, store};
use jfs_tree::{Draft, Sibling, TreeError};
use jfs_written::written;
use std::alloc::Global;

/// What the part below a page became: perhaps one more page stands behind it, and it has so many levels.
#[derive(Drop)]
pub(crate) struct Grown {
    pub sibling: Option<Sibling<u64>>,
    pub levels: u32,
}

/// Writes a part of a range into page `n`, a leaf. One that can't have entries on either side of the range's 17 blocks doesn't overflow where the tree rises.
pub(crate) fn put_leaf(
    alloc: Global,
    draft: &mut Draft,
    stack: &mut Vec<u32>,
    n: u32,
    opened: Opened,
    part: &Part,
    blocks: u32,
) -> Result<Grown, TreeError>
    requires opened { IsOpened blocks opened.page.0 opened.entries.items true }
    requires part { IsPart blocks part.now.xs.items }
    requires some { 0 < length part.now.xs.items }
    requires enough { most_taken part.now.xs.items part.now.left part.now.right 1 ≤ length stack.old.items }
    requires small { blocks < 2 ^ 40 }
    requires page { n < no_page }
    requires below { AllBelow blocks stack.old.items }
    ensures wrote { (image : Image) → opened.page.0 ≡ shown draft.old.pages.items image n → IfOk result (λ grown. WrotePage part.now.last blocks part.now.xs.items part.now.left part.now.right
        (shown draft.old.pages.items image) (shown draft.new.pages.items image) grown.levels n grown.sibling stack.old.items stack.new.items) }
    ensures bad { (image : Image) (most : ℕ) → opened.page.0 ≡ shown draft.old.pages.items image n → IfErr result (λ e. RefutesPage blocks part.now.xs.items part.now.left part.now.right (shown draft.old.pages.items image) most n stack.old.items e) }
    ensures levels { IfOk result (λ grown. grown.levels ≡ 1) }
    ensures alone { part.now.left ≡ false → part.now.right ≡ false → IfOk result (λ grown. grown.sibling ≡ None) }
    ensures used { OnOk result (length stack.old.items ≤ length stack.new.items + most_taken part.now.xs.items part.now.left part.now.right 1) }
    ensures below { GrownBelow stack.old.items stack.new.items result }
    ensures front { IsFront stack.new.items stack.old.items }
    ensures others { (image : Image) → opened.page.0 ≡ shown draft.old.pages.items image n → OnOk result (OthersFramed (shown draft.old.pages.items image) (shown draft.new.pages.items image) stack.old.items stack.new.items) }
    ensures drafted { OnOk result (DraftsTaken draft.old.pages.items draft.new.pages.items stack.old.items stack.new.items) }
    ensures key { IfOk result (λ grown. IfSome grown.sibling (λ s. s.key < 2 ^ 40)) }
    ensures names { IfErr result NamesBelow }
    ensures cause { IfErr result (λ e. NoView e) }
{
    let Ok(list) = written(alloc, opened.entries.as_slice(), part.xs.as_slice()) else {
        return Err(TreeError::Memory);
    };
    if list.len() > ENTRIES && !part.left && !part.right {
        return Err(TreeError::Bad {
            page: n,
            rule: Rule::Order,
        });
    }
    let full = starts_new(part, opened.entries.as_slice(), list.as_slice());
    match store(draft, stack, n, opened.page, list.as_slice(), full) {
        Ok(sibling) => Ok(Grown { sibling, levels: 1 }),
        Err(e) => Err(e),
    }
}
