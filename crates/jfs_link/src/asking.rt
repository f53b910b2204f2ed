//! What a link is asked for, before anything is reserved.

ghost use Rattle.std.specs.Prelude.{◌≡◌, ◌≤◌, ◌<◌, ℕ, [], true, false, length, get_or, IfOk, IfErr};
ghost use Rattle.jfs_disk.specs.Image.{page_of};
ghost use Rattle.jfs_lead_steps.specs.objects.specs.Objects.{has_names};
ghost use Rattle.jfs_steps.specs.way.specs.Answer.{Carries, Answers};
ghost use Rattle.jfs_steps.specs.way.specs.Walk.{IsHeld, IsShown};
ghost use Rattle.jfs_link.specs.Link.{MayLink, RefusesLink, IfConsistentBy, asked};

use jfs_bmap::BlockMap;
use jfs_claim::look_for_space;
use jfs_imap::InodeMap;
use jfs_lead_steps::dtree::is_deep;
use jfs_name::Name;
use jfs_plain::Refusal;
use jfs_ranges::{PageView, ViewError};
use jfs_steps::new_place;
use jfs_steps::reader::{has_names, root_in};
use jfs_steps::way::{Held, walk};

/// The object that gets a name, and the directory that gets it.
#[derive(Clone, Copy)]
pub struct Joint {
    pub object: Held,
    pub dir: Held,
}

/// The greatest number of links.
const MOST_LINKS: u32 = 65_535;

/// The blocks that a name may need.
const NEED: u32 = 8;

/// What is to be joined, where nothing refuses it. The causes come in this order: the walk to the object; `IsDir`; what `new_place` refuses; `TooManyLinks` where the object has 65,535;
/// `NoSpace` where fewer than 8 blocks have no owner beside the 64 that are always kept; `TooDeep` where the directory's tree can't take the name.
pub fn ask<V: PageView>(
    view: &mut V,
    blocks: &BlockMap,
    inodes: &InodeMap,
    from: &[Name],
    to: &[Name],
) -> Result<Joint, Refusal>
    requires from { (i : ℕ) → i < length from.now → length (get_or from.now i []) ≤ 255 }
    requires to { (i : ℕ) → i < length to.now → length (get_or to.now i []) ≤ 255 }
    requires size { length blocks.now.states ≡ V.PageView.block_count view.old }
    ensures image { V.PageView.tells → V.PageView.image view.new ≡ V.PageView.image view.old }
    ensures count_of_blocks { V.PageView.block_count view.new ≡ V.PageView.block_count view.old }
    ensures device { V.PageView.device view.new ≡ V.PageView.device view.old }
    ensures fault { Carries (V.PageView.faults view.old) (V.PageView.faults view.new) result }
    ensures some { IfOk result (λ joint. 0 < length to.now) }
    ensures object { IfOk result (λ joint. IsHeld (V.PageView.block_count view.old) inodes.now joint.object) }
    ensures directory { IfOk result (λ joint. IsHeld (V.PageView.block_count view.old) inodes.now joint.dir) }
    ensures no_directory { IfOk result (λ joint. has_names joint.object.inode ≡ false) }
    ensures names { IfOk result (λ joint. has_names joint.dir.inode ≡ true) }
    ensures few { IfOk result (λ joint. joint.object.inode.nlink < 65535) }
    ensures object_shown { V.PageView.tells → IfOk result (λ joint. IsShown (page_of (V.PageView.image view.old)) joint.object) }
    ensures dir_shown { V.PageView.tells → IfOk result (λ joint. IsShown (page_of (V.PageView.image view.old)) joint.dir) }
    // On a consistent volume it is what the plain step asks.
    ensures allowed { V.PageView.tells → IfOk result (λ joint. IfConsistentBy (V.PageView.block_count view.old) (page_of (V.PageView.image view.old)) blocks.now inodes.now (MayLink from.now to.now joint.object joint.dir)) }
    ensures refused { V.PageView.tells → IfErr result (λ why. IfConsistentBy (V.PageView.block_count view.old) (page_of (V.PageView.image view.old)) blocks.now inodes.now (RefusesLink from.now to.now why)) }
    // On any volume it is what the pages on both ways give, and the first of them that breaks a rule is named.
    ensures meets { V.PageView.tells → Answers (asked (V.PageView.block_count view.old) (page_of (V.PageView.image view.old)) blocks.now inodes.now from.now to.now) result }
{
    let object = match walk(view, inodes, from) {
        Ok(object) => object,
        Err(e) => return Err(e),
    };
    if has_names(&object.inode) {
        return Err(Refusal::IsDir);
    }
    let dir = match new_place(view, inodes, to) {
        Ok(dir) => dir,
        Err(e) => return Err(e),
    };
    if object.inode.nlink >= MOST_LINKS {
        return Err(Refusal::TooManyLinks);
    }
    match look_for_space(blocks, NEED) {
        Ok(()) => {}
        Err(e) => return Err(e),
    }
    match is_deep(view, root_in(&dir.inode), &to[to.len() - 1]) {
        Ok(false) => Ok(Joint { object, dir }),
        Ok(true) => Err(Refusal::TooDeep { inode: dir.number }),
        Err(ViewError::Read(fault)) => Err(Refusal::IoFault { fault }),
        Err(ViewError::Memory) => Err(Refusal::OutOfMemory),
    }
}
