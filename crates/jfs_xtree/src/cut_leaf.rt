//! A leaf that is cut at a block of the file.

ghost use Rattle.std.specs.Prelude.{◌≡◌, ◌<◌, ◌≤◌, ◌+◌, ◌-◌, ◌++◌, ◌∷◌, [], ℕ, length, take, drop, true, false, OnOk, IfOk, IfErr};
ghost use Rattle.jfs_bits.specs.Extent.{FitsXad};
ghost use Rattle.jfs_xtpage.specs.Page.{head_of, entries_of, entry_of, count_of, rises_from, behind_slots, IsLaidOut};
ghost use Rattle.jfs_xtree.specs.Node.{SameKind, KeepsFrame};
ghost use Rattle.jfs_xtree.specs.Cutting.{up_to, kept_below, gone_of, gone_past};
ghost use Rattle.jfs_xtree.specs.CutParts.{KeepsSome, AllFrom};

use crate::free_below::push_runs;
use crate::place::{end_of, place_of};
use jfs_bits::{Pxd, PxdList, Xad};
use jfs_tree::TreeError;
use jfs_xtpage::{xt_cut, xt_entry, xt_put};

/// Keeps a leaf's extents below the bound, and frees the blocks of the others. Whether any is left.
pub(crate) fn cut_leaf(runs: &mut PxdList, bytes: &mut [u8], bound: u64) -> Result<bool, TreeError>
    requires page { IsLaidOut bytes.old }
    requires order { rises_from 0 (entries_of bytes.old) ≡ true }
    ensures rows { OnOk result (entries_of bytes.new ≡ kept_below bound (entries_of bytes.old)) }
    ensures gone { OnOk result (runs.new ≡ runs.old ++ gone_past bound (entries_of bytes.old)) }
    ensures kind { OnOk result (SameKind (head_of bytes.old) (head_of bytes.new)) }
    ensures frame { OnOk result (KeepsFrame bytes.old bytes.new) }
    ensures laid { OnOk result (IsLaidOut bytes.new) }
    ensures kept { IfOk result (KeepsSome (entries_of bytes.new)) }
    ensures cause { IfErr result (λ e. e ≡ TreeError.Memory) }
{
    let keep = first_past(bytes, bound);
    push_rest(runs, bytes, keep, bound)?;
    if keep > 0 {
        shorten(bytes, keep - 1, bound);
    }
    xt_cut(bytes, keep);
    Ok(keep > 0)
}

/// The place of the first extent that begins at or past the bound.
fn first_past(bytes: &[u8], bound: u64) -> u16
    requires page { IsLaidOut bytes.now }
    requires order { rises_from 0 (entries_of bytes.now) ≡ true }
    ensures most { result ≤ count_of bytes.now }
    ensures before { (j : ℕ) → j < result → (entry_of bytes.now j).offset < bound }
    ensures past { AllFrom bound (drop result (entries_of bytes.now)) }
{
    match bound.checked_sub(1) {
        Some(last) => place_of(bytes, last),
        None => 0,
    }
}

/// Frees what the last extent that is kept has past the bound, and the extents behind it.
fn push_rest(runs: &mut PxdList, bytes: &[u8], keep: u16, bound: u64) -> Result<(), TreeError>
    requires page { IsLaidOut bytes.now }
    requires order { rises_from 0 (entries_of bytes.now) ≡ true }
    requires most { keep ≤ count_of bytes.now }
    requires before { (j : ℕ) → j < keep → (entry_of bytes.now j).offset < bound }
    requires past { AllFrom bound (drop keep (entries_of bytes.now)) }
    ensures gone { OnOk result (runs.new ≡ runs.old ++ gone_past bound (entries_of bytes.now)) }
    ensures cause { IfErr result (λ e. e ≡ TreeError.Memory) }
{
    if keep > 0 {
        push_tail(runs, &xt_entry(bytes, keep - 1), bound)?;
    }
    push_runs(runs, bytes, keep)
}

/// Frees what an extent that begins below the bound has past it.
fn push_tail(runs: &mut PxdList, x: &Xad, bound: u64) -> Result<(), TreeError>
    requires fits { FitsXad x.now }
    requires before { x.now.offset < bound }
    ensures gone { OnOk result (runs.new ≡ runs.old ++ gone_of bound x.now) }
    ensures cause { IfErr result (λ e. e ≡ TreeError.Memory) }
{
    let end = end_of(x);
    let offset = x.offset;
    let addr = x.at.addr;
    if end <= bound {
        return Ok(());
    }
    let gone = Pxd {
        len: (end - bound) as u32,
        addr: addr + (bound - offset),
    };
    match runs.push(gone) {
        Ok(()) => Ok(()),
        Err(_) => Err(TreeError::Memory),
    }
}

/// Shortens the extent at a place, which begins below the bound, to end at it where it reaches past it.
fn shorten(bytes: &mut [u8], place: u16, bound: u64)
    requires page { IsLaidOut bytes.old }
    requires place { place < count_of bytes.old }
    requires before { (entry_of bytes.old place).offset < bound }
    ensures head { head_of bytes.new ≡ head_of bytes.old }
    ensures tail { behind_slots bytes.new ≡ behind_slots bytes.old }
    ensures laid { IsLaidOut bytes.new }
    ensures entries { entries_of bytes.new ≡ take place (entries_of bytes.old) ++ up_to bound (entry_of bytes.old place) ∷ drop (place + 1) (entries_of bytes.old) }
{
    let x = xt_entry(bytes, place);
    if end_of(&x) > bound {
        let offset = x.offset;
        let at = Pxd {
            len: (bound - offset) as u32,
            addr: x.at.addr,
        };
        xt_put(
            bytes,
            place,
            Xad {
                flag: x.flag,
                offset,
                at,
            },
        );
    }
}
