//! A file that is read. (POSIX: pread.)

ghost use Rattle.std.specs.Prelude.{◌≡◌, ◌≤◌, ◌<◌, ◌+◌, ◌^◌, ℕ, [], length, get_or, true, IfErr};
ghost use Rattle.jfs_disk.specs.Image.{page_of};
ghost use Rattle.jfs_way.specs.meaning.specs.Contents.{is_regular};
ghost use Rattle.jfs_way.specs.meaning.specs.Readers.{root_of};
ghost use Rattle.jfs_plain.specs.Step.{read};
ghost use Rattle.jfs_way.specs.Answer.{Carries, Answers, Follows};
ghost use Rattle.jfs_way.specs.Walk.{IfConsistent};
ghost use Rattle.jfs_read.specs.Read.{bytes_in, read_at, IsBytes, OpenWhereSpelled};

use crate::bytes::stored_bytes;
use jfs_bits::Blob;
use jfs_imap::InodeMap;
use jfs_inode::Dinode;
use jfs_name::Name;
use jfs_plain::Refusal;
use jfs_ranges::PageView;
use jfs_way::reader::{has_names, root_in};
use jfs_way::{Held, walk};
use std::alloc::Global;

/// So many bytes, at most, of the file at the end of a path, from an offset on: as many as stand before its end. `Err` is the walk's refusal; `IsDir` or `NotFile` where
/// that is no regular file; or `Damaged`, at the first page on the ways to their blocks that breaks a rule.
pub fn read_bytes<V: PageView>(
    alloc: Global,
    view: &mut V,
    inodes: &InodeMap,
    path: &[Name],
    offset: u64,
    count: u32,
) -> Result<Blob, Refusal>
    requires names { (i : ℕ) → i < length path.now → length (get_or path.now i []) ≤ 255 }
    ensures image { V.PageView.tells → V.PageView.image view.new ≡ V.PageView.image view.old }
    ensures count_of_blocks { V.PageView.block_count view.new ≡ V.PageView.block_count view.old }
    ensures device { V.PageView.device view.new ≡ V.PageView.device view.old }
    ensures fault { Carries (V.PageView.faults view.old) (V.PageView.faults view.new) result }
    // On a consistent volume it is the plain step of its tree.
    ensures follows { V.PageView.tells → IfConsistent (V.PageView.block_count view.old) (page_of (V.PageView.image view.old)) inodes.now (λ t.
        Follows (IsBytes t) (read t path.now offset count) result) }
    // On any volume it is what the pages on the ways to the bytes tell, and the first of them that breaks a rule is named.
    ensures meets { V.PageView.tells → Answers (read_at (V.PageView.block_count view.old) (page_of (V.PageView.image view.old)) inodes.now path.now offset count) result }
{
    match walk(view, inodes, path) {
        Ok(at) => bytes_in(alloc, view, &at, offset, count),
        Err(e) => Err(e),
    }
}

/// The bytes of an inode that a call holds, before its end.
fn bytes_in<V: PageView>(
    alloc: Global,
    view: &mut V,
    at: &Held,
    offset: u64,
    count: u32,
) -> Result<Blob, Refusal>
    ensures image { V.PageView.tells → V.PageView.image view.new ≡ V.PageView.image view.old }
    ensures count_of_blocks { V.PageView.block_count view.new ≡ V.PageView.block_count view.old }
    ensures device { V.PageView.device view.new ≡ V.PageView.device view.old }
    ensures fault { Carries (V.PageView.faults view.old) (V.PageView.faults view.new) result }
    ensures meets { V.PageView.tells → Answers (bytes_in (V.PageView.block_count view.old) (page_of (V.PageView.image view.old)) at.now offset count) result }
    ensures width { length (root_of at.now.inode) ≡ 288 }
    ensures sound { V.PageView.tells → is_regular at.now.inode ≡ true → IfErr result (OpenWhereSpelled (V.PageView.block_count view.old) (page_of (V.PageView.image view.old)) at.now.inode) }
{
    let regular = is_regular(&at.inode);
    if has_names(&at.inode) {
        return Err(Refusal::IsDir);
    }
    if !regular {
        return Err(Refusal::NotFile);
    }
    let left = at.inode.size.saturating_sub(offset).min(u64::from(count));
    stored_bytes(alloc, view, at, offset, left as u32)
}

fn is_regular(d: &Dinode) -> bool
    ensures kind { result ≡ is_regular d.now }
    ensures width { length (root_of d.now) ≡ 288 }
{
    let _root = root_in(d);
    d.mode & Dinode::TYPE == Dinode::REGULAR
}
