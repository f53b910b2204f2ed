//! Whether what stands at a number breaks a rule.

ghost use Rattle.std.specs.Prelude.{◌≡◌, IfOk};
ghost use Rattle.jfs_disk.specs.Image.{page_of};
ghost use Rattle.jfs_reader.specs.meaning.specs.Readers.{readers};
ghost use Rattle.jfs_image.specs.View.{image_of, blocks_in};
ghost use Rattle.jfs_image.specs.Standing.{IsReady};
ghost use Rattle.jfs_image.specs.Judged.{Judges, JudgesAs};

use crate::held::{extents_in, keeps_rules, names_in};
use crate::inode::{inode_at, is_live};
use crate::standing::Judged;
use crate::view::ListView;
use jfs_inode::Dinode;
use jfs_reader::{InodeMap, ReadError};
use std::alloc::{AllocError, Global};

/// What stands at a number, by its inode and what its trees spell.
pub(crate) fn judge(
    alloc: Global,
    view: &ListView<'_>,
    map: &InodeMap,
    n: u32,
) -> Result<Judged, AllocError>
    requires { IsReady view.now map.now }
    ensures { IfOk result (Judges (image_of view.now) n) }
{
    match inode_at(view, map, n) {
        Ok(Some(d)) => judge_as(alloc, view, n, &d),
        Ok(None) => Ok(Judged::Missing),
        Err(ReadError::Outside) => Ok(Judged::Broken),
        Err(ReadError::View(_)) => Err(AllocError),
    }
}

/// What an inode is at the place of a number.
fn judge_as(alloc: Global, view: &ListView<'_>, n: u32, d: &Dinode) -> Result<Judged, AllocError>
    ensures { IfOk result (JudgesAs (readers (blocks_in view.now)) (page_of (image_of view.now)) n d.now) }
{
    if !is_live(n, d) {
        return Ok(Judged::Free);
    }
    if !keeps_rules(d, n) {
        return Ok(Judged::Broken);
    }
    let Some(names) = names_in(alloc, view, d)? else {
        return Ok(Judged::Broken);
    };
    let Some(extents) = extents_in(alloc, view, d)? else {
        return Ok(Judged::Broken);
    };
    let _spelled = (names, extents);
    Ok(Judged::Sound(*d))
}
