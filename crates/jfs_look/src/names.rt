//! The names of a directory. (POSIX: readdir.)

ghost use Rattle.std.specs.Prelude.{◌≡◌, ◌≤◌, ◌<◌, ℕ, [], length, get_or, Err};
ghost use Rattle.jfs_disk.specs.Image.{page_of};
ghost use Rattle.jfs_disk.specs.declared.disk.Fault.{Fault};
ghost use Rattle.jfs_dtree.specs.Spells.{CarriesDt};
ghost use Rattle.jfs_plain.specs.Step.{listed};
ghost use Rattle.jfs_way.specs.Answer.{Carries, CarriesCause, Answers, Follows, names_refusal};
ghost use Rattle.jfs_way.specs.Walk.{IfConsistent};
ghost use Rattle.jfs_look.specs.Look.{names_from, names_at, IsNames};

use jfs_dtree::{DtError, list};
use jfs_imap::InodeMap;
use jfs_name::{Name, NameList};
use jfs_plain::Refusal;
use jfs_ranges::{PageView, ViewError};
use jfs_tree::NO_PAGE;
use jfs_way::reader::{has_names, root_in};
use jfs_way::{Held, walk};
use std::alloc::Global;

/// The names of the directory at the end of a path, in rising order, each with its inode. `Err` is the walk's refusal; `NotDir` where that is no directory; or
/// `Damaged` where a page of its tree breaks a rule.
pub fn list_names<V: PageView>(
    alloc: Global,
    view: &mut V,
    inodes: &InodeMap,
    path: &[Name],
) -> Result<NameList, Refusal>
    requires names { (i : ℕ) → i < length path.now → length (get_or path.now i []) ≤ 255 }
    ensures image { V.PageView.tells → V.PageView.image view.new ≡ V.PageView.image view.old }
    ensures count_of_blocks { V.PageView.block_count view.new ≡ V.PageView.block_count view.old }
    ensures device { V.PageView.device view.new ≡ V.PageView.device view.old }
    ensures fault { Carries (V.PageView.faults view.old) (V.PageView.faults view.new) result }
    // On a consistent volume it is the plain step of its tree.
    ensures follows { V.PageView.tells → IfConsistent (V.PageView.block_count view.old) (page_of (V.PageView.image view.old)) inodes.now (λ t.
        Follows (IsNames t) (listed t path.now) result) }
    // On any volume it is the names that the root of the directory spells, and the first page that breaks a rule is named.
    ensures meets { V.PageView.tells → Answers (names_at (V.PageView.block_count view.old) (page_of (V.PageView.image view.old)) inodes.now path.now) result }
{
    match walk(view, inodes, path) {
        Ok(at) => names_of(alloc, view, &at),
        Err(e) => Err(e),
    }
}

/// The names of an inode that a call holds.
fn names_of<V: PageView>(alloc: Global, view: &mut V, at: &Held) -> Result<NameList, Refusal>
    ensures image { V.PageView.tells → V.PageView.image view.new ≡ V.PageView.image view.old }
    ensures count_of_blocks { V.PageView.block_count view.new ≡ V.PageView.block_count view.old }
    ensures device { V.PageView.device view.new ≡ V.PageView.device view.old }
    ensures fault { Carries (V.PageView.faults view.old) (V.PageView.faults view.new) result }
    ensures meets { V.PageView.tells → Answers (names_from (V.PageView.block_count view.old) (page_of (V.PageView.image view.old)) at.now) result }
{
    if !has_names(&at.inode) {
        return Err(Refusal::NotDir);
    }
    match list(alloc, view, root_in(&at.inode)) {
        Ok(names) => Ok(names),
        Err(e) => Err(from_names(at.number, at.page, e)),
    }
}

/// A call on the tree of directory `dir` failed, whose inode stands on this page.
fn from_names(dir: u32, page: u32, e: DtError) -> Refusal
    ensures count { (before now : Fault) → CarriesDt {T = Unit {0}} before now (Err e) → CarriesCause before now result }
    ensures value { result ≡ names_refusal dir page e }
{
    match e {
        DtError::View(ViewError::Read(fault)) => Refusal::IoFault { fault },
        DtError::View(ViewError::Memory) => Refusal::OutOfMemory,
        DtError::Bad { page: bad, rule } => Refusal::Damaged {
            page: if bad == NO_PAGE { page } else { bad },
            rule,
        },
        DtError::Exists => Refusal::Exists,
        DtError::Missing => Refusal::NotFound,
        DtError::TooDeep => Refusal::TooDeep { inode: dir },
    }
}
