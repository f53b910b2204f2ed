//! An object: its node, and what it holds.

ghost use Rattle.std.specs.Prelude.{◌≡◌, IfOk, is_none};
ghost use Rattle.jfs_bits.specs.Broken.{first_broken};
ghost use Rattle.jfs_disk.specs.Image.{page_of};
ghost use Rattle.jfs_inode.specs.Rules.{rows};
ghost use Rattle.jfs_reader.specs.objects.specs.Objects.{spelled};
ghost use Rattle.jfs_reader.specs.meaning.specs.Readers.{readers};
ghost use Rattle.jfs_image.specs.View.{image_of, blocks_in};
ghost use Rattle.jfs_image.specs.Held.{HeldIs, NamesMay, ExtentsMay};

use crate::content::file_bytes;
use crate::node::node_with;
use crate::standing::Held;
use crate::target::target_of;
use crate::view::ListView;
use jfs_bits::{Xad, XadList};
use jfs_dtree::DtError;
use jfs_inode::Dinode;
use jfs_name::NameList;
use jfs_reader::{extents_of, names_of};
use jfs_xtree::XtError;
use std::alloc::{AllocError, Global};

/// What an inode spells: `None` exactly where the inode breaks a rule, or a tree of it does.
pub(crate) fn hold(
    alloc: Global,
    view: &ListView<'_>,
    n: u32,
    d: &Dinode,
) -> Result<Option<Held>, AllocError>
    ensures { IfOk result (HeldIs (readers (blocks_in view.now)) (page_of (image_of view.now)) n (spelled (readers (blocks_in view.now)) (page_of (image_of view.now)) d.now)) }
{
    if !keeps_rules(d, n) {
        return Ok(None);
    }
    let Some(names) = names_in(alloc, view, d)? else {
        return Ok(None);
    };
    let Some(extents) = extents_in(alloc, view, d)? else {
        return Ok(None);
    };
    let target = target_of(alloc, view, extents.as_slice(), d)?;
    let bytes = file_bytes(alloc, view, extents.as_slice(), d)?;
    let node = node_with(alloc, d, target, &names)?;
    Ok(Some(Held { node, bytes }))
}

/// The names that an inode's tree spells; `None` exactly where it breaks a rule.
pub(crate) fn names_in(
    alloc: Global,
    view: &ListView<'_>,
    d: &Dinode,
) -> Result<Option<NameList>, AllocError>
    ensures { IfOk result (NamesMay (readers (blocks_in view.now)) (page_of (image_of view.now)) d.now) }
{
    let mut own = *view;
    match names_of(alloc, &mut own, d) {
        Ok(names) => Ok(Some(names)),
        Err(DtError::View(_)) => Err(AllocError),
        Err(DtError::Bad { .. }) => Ok(None),
        Err(DtError::Exists) => Ok(None),
        Err(DtError::Missing) => Ok(None),
        Err(DtError::TooDeep) => Ok(None),
    }
}

/// The extents that an inode's tree spells; `None` exactly where it breaks a rule.
pub(crate) fn extents_in(
    alloc: Global,
    view: &ListView<'_>,
    d: &Dinode,
) -> Result<Option<XadList>, AllocError>
    ensures { IfOk result (ExtentsMay (readers (blocks_in view.now)) (page_of (image_of view.now)) d.now) }
{
    let mut own = *view;
    match extents_of(alloc, &mut own, d) {
        Ok(extents) => Ok(Some(extents)),
        Err(XtError::View(_)) => Err(AllocError),
        Err(XtError::Bad { .. }) => Ok(None),
    }
}

/// Whether an inode breaks no rule at the place of this number.
#[tactic(auto, unfolding(jfs_inode::specs::Rules::rows))]
pub(crate) fn keeps_rules(d: &Dinode, n: u32) -> bool
    ensures { result ≡ is_none (first_broken (rows d.now n)) }
{
    let d = *d;
    if d.number != n {
        return false;
    }
    if !Dinode::TYPES.contains(&(d.mode & Dinode::TYPE)) {
        return false;
    }
    d.nlink <= 65535
}
