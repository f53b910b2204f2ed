//! The attributes of an object. (POSIX: stat.)

ghost use Rattle.std.specs.Prelude.{◌≡◌, ◌≤◌, ◌<◌, ℕ, [], length, get_or};
ghost use Rattle.jfs_disk.specs.Image.{page_of};
ghost use Rattle.jfs_inode.specs.Rules.{type_of};
ghost use Rattle.jfs_way.specs.meaning.specs.Node.{kind_of};
ghost use Rattle.jfs_plain.specs.Step.{stat};
ghost use Rattle.jfs_way.specs.Answer.{Carries, Answers, Follows};
ghost use Rattle.jfs_way.specs.Walk.{IfConsistent};
ghost use Rattle.jfs_look.specs.Look.{stat_in, stat_at, IsAttr};

use jfs_imap::InodeMap;
use jfs_inode::Dinode;
use jfs_name::Name;
use jfs_plain::{NodeKind, Refusal, Stat};
use jfs_ranges::PageView;
use jfs_way::reader::has_names;
use jfs_way::{Held, walk};

/// What the object at the end of a path is, and its attributes. `Err` is the walk's refusal.
pub fn stat<V: PageView>(view: &mut V, inodes: &InodeMap, path: &[Name]) -> Result<Stat, Refusal>
    requires names { (i : ℕ) → i < length path.now → length (get_or path.now i []) ≤ 255 }
    ensures image { V.PageView.tells → V.PageView.image view.new ≡ V.PageView.image view.old }
    ensures count_of_blocks { V.PageView.block_count view.new ≡ V.PageView.block_count view.old }
    ensures device { V.PageView.device view.new ≡ V.PageView.device view.old }
    ensures fault { Carries (V.PageView.faults view.old) (V.PageView.faults view.new) result }
    // On a consistent volume it is the plain step of its tree.
    ensures follows { V.PageView.tells → IfConsistent (V.PageView.block_count view.old) (page_of (V.PageView.image view.old)) inodes.now (λ t.
        Follows (IsAttr t) (stat t path.now) result) }
    // On any volume it tells of the inode that the pages on the way lead to, and the first of them that breaks a rule is named.
    ensures meets { V.PageView.tells → Answers (stat_at (V.PageView.block_count view.old) (page_of (V.PageView.image view.old)) inodes.now path.now) result }
{
    match walk(view, inodes, path) {
        Ok(at) => Ok(stat_in(&at)),
        Err(e) => Err(e),
    }
}

/// What is told of an inode.
fn stat_in(at: &Held) -> Stat
    ensures { result ≡ stat_in at.now }
{
    let d = &at.inode;
    Stat {
        kind: kind_of(d),
        mode: d.mode & 0xfff,
        nlink: d.nlink,
        uid: d.uid,
        gid: d.gid,
        size: if has_names(d) { 0 } else { d.size },
        inode: at.number,
        mtime: d.mtime,
    }
}

/// Devices, pipes and sockets are `Other`.
fn kind_of(d: &Dinode) -> NodeKind
    ensures { result ≡ kind_of (type_of d.now) }
{
    match d.mode & Dinode::TYPE {
        Dinode::DIRECTORY => NodeKind::Dir,
        Dinode::REGULAR => NodeKind::File,
        Dinode::LINK => NodeKind::Link,
        _ => NodeKind::Other,
    }
}
