//! Calls that only look.

ghost use Rattle.std.specs.Prelude.{◌≡◌, true};
ghost use Rattle.jfs_bits.specs.declared.descriptor.Moment.{Moment};
ghost use Rattle.jfs_disk.specs.Image.{page_of};
ghost use Rattle.jfs_plain.specs.Limits.{FitsCall};
ghost use Rattle.jfs_plain.specs.Step.{Room, outcome};
ghost use Rattle.jfs_look.specs.way.specs.Walk.{IfConsistent};
ghost use Rattle.jfs_files.specs.Outcome.{CarriesReply, IsReply};
ghost use Rattle.jfs_files.specs.Meets.{OrOpen, looks, looked};

use jfs_imap::InodeMap;
use jfs_look::{list_names, stat};
use jfs_plain::{Call, Reply};
use jfs_ranges::PageView;
use jfs_readlink::read_link;
use jfs_truncate::read::read_bytes;
use std::alloc::Global;

/// What `stat`, `list`, `readlink` and `read` are answered.
pub(crate) fn look_reply<V: PageView>(
    alloc: Global,
    view: &mut V,
    inodes: &InodeMap,
    call: &Call,
) -> Reply
    requires fits { FitsCall call.now }
    requires only { looks call.now ≡ true }
    ensures image { V.PageView.tells → V.PageView.image view.new ≡ V.PageView.image view.old }
    ensures count_of_blocks { V.PageView.block_count view.new ≡ V.PageView.block_count view.old }
    ensures device { V.PageView.device view.new ≡ V.PageView.device view.old }
    ensures fault { CarriesReply (V.PageView.faults view.old) (V.PageView.faults view.new) result }
    // Whatever the room of the volume is, and whenever it is asked.
    ensures follows { V.PageView.tells → IfConsistent (V.PageView.block_count view.old) (page_of (V.PageView.image view.old)) inodes.now (λ t. (room : Room) (now : Moment) → IsReply t (outcome room t call.now now) result) }
    ensures meets { V.PageView.tells → OrOpen (looked (V.PageView.block_count view.old) (page_of (V.PageView.image view.old)) inodes.now call.now) result }
{
    match call {
        Call::Stat { path } => match stat(view, inodes, path.as_slice()) {
            Ok(stat) => Reply::Attr(stat),
            Err(e) => Reply::Refused(e),
        },
        Call::List { path } => match list_names(alloc, view, inodes, path.as_slice()) {
            Ok(names) => Reply::Names(names),
            Err(e) => Reply::Refused(e),
        },
        Call::Readlink { path } => match read_link(alloc, view, inodes, path.as_slice()) {
            Ok(target) => Reply::Target(target),
            Err(e) => Reply::Refused(e),
        },
        Call::Read {
            path,
            offset,
            count,
        } => match read_bytes(alloc, view, inodes, path.as_slice(), *offset, *count) {
            Ok(bytes) => Reply::Bytes(bytes),
            Err(e) => Reply::Refused(e),
        },
        _ => unreachable!(),
    }
}
