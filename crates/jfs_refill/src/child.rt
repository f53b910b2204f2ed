//! Entries of children.

ghost use Rattle.std.specs.Prelude.{◌≡◌, ◌<◌, ◌^◌, ◌++◌, OnOk, IfSome, if◌then◌else◌};
ghost use Rattle.std.specs.List.{All};
ghost use Rattle.jfs_bits.specs.Extent.{FitsXad};
ghost use Rattle.jfs_xtree.specs.Node.{lowered};
ghost use Rattle.jfs_refill.specs.Grown.{grown_entries};

use jfs_bits::{Pxd, Xad};
use jfs_tree::Sibling;
use jfs_xtree::child_entry;
use std::alloc::AllocError;

/// Puts a child's entry at the end of a list, and behind it the entry of the page that was split off the child, where there is one. `first` tells that the child is the
/// first one of its page, at whose key nothing looks.
pub fn push_grown(
    list: &mut Vec<Xad>,
    child: Xad,
    grown: &Option<Sibling<u64>>,
    first: bool,
) -> Result<(), AllocError>
    requires child { FitsXad child }
    requires key { IfSome grown.now (λ s. s.key < 2 ^ 40) }
    ensures list { OnOk result (list.new.items ≡ list.old.items ++ grown_entries first child grown.now) }
    ensures fits { OnOk result (All FitsXad list.old.items → All FitsXad list.new.items) }
{
    match grown {
        None => list.push(child)?,
        Some(sibling) => {
            list.push(lowered(first, sibling.key, child))?;
            list.push(child_entry(sibling.key, sibling.page))?;
        }
    }
    Ok(())
}

/// A child's entry before a key.
fn lowered(first: bool, key: u64, child: Xad) -> Xad
    requires { FitsXad child }
    ensures is { result ≡ lowered first key child }
    ensures fits { FitsXad result }
{
    let len = if child.at.len == 0 { 1 } else { child.at.len };
    if child.offset + u64::from(len) <= key {
        return child;
    }
    Xad {
        flag: child.flag,
        offset: if first { 0 } else { child.offset },
        at: Pxd {
            len: 1,
            addr: child.at.addr,
        },
    }
}
