//! The target of a symbolic link. (POSIX: readlink.)

ghost use Rattle.std.specs.Prelude.{◌≡◌, ◌<◌, ◌≤◌, ℕ, [], length, get_or, Err, IfOk};
ghost use Rattle.jfs_bits.specs.Field.{range_of};
ghost use Rattle.jfs_disk.specs.Image.{page_of};
ghost use Rattle.jfs_disk.specs.declared.disk.Fault.{Fault};
ghost use Rattle.jfs_ranges.specs.View.{CarriesCount};
ghost use Rattle.jfs_xtree.specs.Spells.{CarriesXt};
ghost use Rattle.jfs_way.specs.meaning.specs.Node.{is_symbolic};
ghost use Rattle.jfs_plain.specs.Step.{readlink};
ghost use Rattle.jfs_way.specs.reader.specs.Reading.{CarriesRead};
ghost use Rattle.jfs_way.specs.Answer.{Carries, CarriesCause, Answers, Follows, view_refusal};
ghost use Rattle.jfs_way.specs.Walk.{IfConsistent};
ghost use Rattle.jfs_readlink.specs.Target.{target_from, target_at, IsTarget, extents_refusal, read_refusal};

use crate::stored::stored_bytes;
use jfs_bits::{Blob, Rule};
use jfs_imap::InodeMap;
use jfs_inode::Dinode;
use jfs_name::Name;
use jfs_plain::Refusal;
use jfs_ranges::{PageView, ViewError};
use jfs_tree::NO_PAGE;
use jfs_way::reader::{ReadError, extents_of};
use jfs_way::{Held, walk};
use jfs_xtree::XtError;
use std::alloc::{AllocError, Global};

/// The target of the symbolic link at the end of a path. `Err` is the walk's refusal; `NotFile` where that is no symbolic link; or `Damaged` where a page of the tree of
/// a link that keeps its target in blocks breaks a rule. A target of more than 1 MiB is answered as want of memory.
pub fn read_link<V: PageView>(
    alloc: Global,
    view: &mut V,
    inodes: &InodeMap,
    path: &[Name],
) -> Result<Blob, Refusal>
    requires names { (i : ℕ) → i < length path.now → length (get_or path.now i []) ≤ 255 }
    ensures image { V.PageView.tells → V.PageView.image view.new ≡ V.PageView.image view.old }
    ensures count_of_blocks { V.PageView.block_count view.new ≡ V.PageView.block_count view.old }
    ensures device { V.PageView.device view.new ≡ V.PageView.device view.old }
    ensures fault { Carries (V.PageView.faults view.old) (V.PageView.faults view.new) result }
    // On a consistent volume it is the plain step of its tree.
    ensures follows { V.PageView.tells → IfConsistent (V.PageView.block_count view.old) (page_of (V.PageView.image view.old)) inodes.now (λ t.
        Follows (IsTarget t) (readlink t path.now) result) }
    // On any volume it is the target that the inode or its blocks hold, and the first page that breaks a rule is named.
    ensures meets { V.PageView.tells → Answers (target_at (V.PageView.block_count view.old) (page_of (V.PageView.image view.old)) inodes.now path.now) result }
{
    match walk(view, inodes, path) {
        Ok(at) => target_of(alloc, view, &at),
        Err(e) => Err(e),
    }
}

/// The longest target that is read, in bytes. Systems make none of more than 4,095; a volume may say that one has 2^63.
const MOST: u64 = 1 << 20;

/// The target of an inode that a call holds.
fn target_of<V: PageView>(alloc: Global, view: &mut V, at: &Held) -> Result<Blob, Refusal>
    ensures image { V.PageView.tells → V.PageView.image view.new ≡ V.PageView.image view.old }
    ensures count_of_blocks { V.PageView.block_count view.new ≡ V.PageView.block_count view.old }
    ensures device { V.PageView.device view.new ≡ V.PageView.device view.old }
    ensures fault { Carries (V.PageView.faults view.old) (V.PageView.faults view.new) result }
    ensures meets { V.PageView.tells → Answers (target_from (V.PageView.block_count view.old) (page_of (V.PageView.image view.old)) at.now) result }
{
    if !is_symbolic(&at.inode) {
        return Err(Refusal::NotFile);
    }
    if at.inode.size < 256 {
        return match short_target(alloc, &at.inode.rest, at.inode.size as usize) {
            Ok(target) => Ok(target),
            Err(_) => Err(Refusal::OutOfMemory),
        };
    }
    if at.inode.size > MOST {
        return Err(Refusal::OutOfMemory);
    }
    let extents = match extents_of(alloc, view, &at.inode) {
        Ok(extents) => extents,
        Err(e) => return Err(from_extents(at.page, e)),
    };
    match stored_bytes(alloc, view, extents.as_slice(), at.inode.size) {
        Ok(target) => Ok(target),
        Err(e) => Err(from_read(at.page, e)),
    }
}

/// A symbolic link, by its mode.
fn is_symbolic(d: &Dinode) -> bool
    ensures { result ≡ is_symbolic d.now }
{
    d.mode & Dinode::TYPE == Dinode::LINK
}

/// So many bytes from byte 256 of an inode on, which is byte 128 of its rest.
fn short_target(alloc: Global, rest: &[u8; 384], size: usize) -> Result<Blob, AllocError>
    requires { size < 256 }
    ensures { IfOk result (λ target. target ≡ range_of rest.now 128 size) }
{
    let mut target = Blob::new(alloc);
    target.extend_from_slice(&rest[128..128 + size])?;
    Ok(target)
}

/// A walk of the tree of a link failed, whose inode stands on this page.
fn from_extents(page: u32, e: XtError) -> Refusal
    ensures count { (before now : Fault) → CarriesXt {T = Unit {0}} before now (Err e) → CarriesCause before now result }
    ensures value { result ≡ extents_refusal page e }
{
    match e {
        XtError::View(e) => from_view(e),
        XtError::Bad { page: bad, rule } => Refusal::Damaged {
            page: if bad == NO_PAGE { page } else { bad },
            rule,
        },
    }
}

/// A block of a link could not be read, whose inode stands on this page. One that lies past the end breaks the rule `range`.
fn from_read(page: u32, e: ReadError) -> Refusal
    ensures count { (before now : Fault) → CarriesRead {T = Unit {0}} before now (Err e) → CarriesCause before now result }
    ensures value { result ≡ read_refusal page e }
{
    match e {
        ReadError::View(e) => from_view(e),
        ReadError::Outside => Refusal::Damaged {
            page,
            rule: Rule::Range,
        },
    }
}

/// A page could not be read, or memory ran out.
fn from_view(e: ViewError) -> Refusal
    ensures count { (before now : Fault) → CarriesCount {T = Unit {0}} before now (Err e) → CarriesCause before now result }
    ensures value { result ≡ view_refusal e }
{
    match e {
        ViewError::Read(fault) => Refusal::IoFault { fault },
        ViewError::Memory => Refusal::OutOfMemory,
    }
}
