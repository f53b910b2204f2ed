//! The part of a range that goes into a part of a tree.

ghost use Rattle.std.specs.Prelude.{◌≡◌, ◌≤◌, ◌<◌, ◌+◌, ◌-◌, ◌++◌, ◌∷◌, [], ◌&&◌, IfOk, OnOk};
ghost use Rattle.std.specs.List.{All};
ghost use Rattle.jfs_bits.specs.Extent.{FitsXad};
ghost use Rattle.jfs_xtpage.specs.Page.{end_of};
ghost use Rattle.jfs_xtree.specs.Cutting.{kept_below};
ghost use Rattle.jfs_xtree.specs.Writing.{kept_from};
ghost use Rattle.jfs_put_range.specs.Parts.{Cuts, IsPart, is_none};

use jfs_bits::{Pxd, Xad};
use std::alloc::{AllocError, Global};

/// The extents of a range that go into a part of a tree. `left` tells that the part may have entries before the 17 blocks in which the range lies, `right` that it may
/// have some behind them, and `last` that the part has the last page of each of its levels.
#[derive(Drop)]
pub(crate) struct Part {
    pub xs: Vec<Xad>,
    pub left: bool,
    pub right: bool,
    pub last: bool,
}

/// A part in two.
#[derive(Drop)]
pub(crate) struct Cut {
    pub head: Part,
    pub tail: Part,
}

/// Cuts a part at a block of the file.
pub(crate) fn cut_at(alloc: Global, part: &Part, bound: u64) -> Result<Cut, AllocError>
    requires fits { All FitsXad part.now.xs.items }
    requires some { All (λ x. 1 ≤ x.at.len) part.now.xs.items }
    ensures { IfOk result (λ cut. Cuts bound part.now.xs.items part.now.left part.now.right part.now.last cut.head cut.tail) }
{
    let head = extents_below(alloc, part.xs.as_slice(), bound)?;
    let tail = extents_from(alloc, part.xs.as_slice(), bound)?;
    let right = part.right && tail.is_empty();
    let left = part.left && head.is_empty();
    Ok(Cut {
        head: Part {
            xs: head,
            left: part.left,
            right,
            last: false,
        },
        tail: Part {
            xs: tail,
            left,
            right: part.right,
            last: part.last,
        },
    })
}

/// What extents have below a block of the file.
fn extents_below(alloc: Global, xs: &[Xad], bound: u64) -> Result<Vec<Xad>, AllocError>
    requires fits { All FitsXad xs.now }
    ensures { IfOk result (λ list. list.items ≡ kept_below bound xs.now) }
{
    let mut list = Vec::new(alloc);
    for x in xs {
        push_below(&mut list, x, bound)?;
    }
    Ok(list)
}

fn push_below(list: &mut Vec<Xad>, x: &Xad, bound: u64) -> Result<(), AllocError>
    requires fits { FitsXad x.now }
    ensures { OnOk result (list.new.items ≡ list.old.items ++ kept_below bound (x.now ∷ [])) }
{
    let offset = x.offset;
    if offset >= bound {
        return Ok(());
    }
    if end_of(x) <= bound {
        list.push(*x)?;
        return Ok(());
    }
    list.push(Xad {
        flag: x.flag,
        offset,
        at: Pxd {
            len: (bound - offset) as u32,
            addr: x.at.addr,
        },
    })?;
    Ok(())
}

/// What extents have from a block of the file on.
fn extents_from(alloc: Global, xs: &[Xad], bound: u64) -> Result<Vec<Xad>, AllocError>
    requires fits { All FitsXad xs.now }
    requires some { All (λ x. 1 ≤ x.at.len) xs.now }
    ensures { IfOk result (λ list. list.items ≡ kept_from bound xs.now) }
{
    let mut list = Vec::new(alloc);
    for x in xs {
        push_from(&mut list, x, bound)?;
    }
    Ok(list)
}

fn push_from(list: &mut Vec<Xad>, x: &Xad, bound: u64) -> Result<(), AllocError>
    requires fits { FitsXad x.now }
    requires some { 1 ≤ x.now.at.len }
    ensures { OnOk result (list.new.items ≡ list.old.items ++ kept_from bound (x.now ∷ [])) }
{
    let offset = x.offset;
    let addr = x.at.addr;
    let end = end_of(x);
    if end <= bound {
        return Ok(());
    }
    if offset >= bound {
        list.push(*x)?;
        return Ok(());
    }
    list.push(Xad {
        flag: x.flag,
        offset: bound,
        at: Pxd {
            len: (end - bound) as u32,
            addr: addr + (bound - offset),
        },
    })?;
    Ok(())
}

/// The first block of the file behind an extent.
pub(crate) fn end_of(x: &Xad) -> u64
    requires { FitsXad x.now }
    ensures { result ≡ end_of x.now }
{
    let offset = x.offset;
    let len = x.at.len;
    offset + u64::from(if len == 0 { 1 } else { len })
}
